// The limits of coordinates, and the tests of boxes and points.
ghost use Rattle.std.specs.Prelude.{◌≡◌, take};
ghost use Rattle.geometry.specs.Axes.{KnownAxes};
ghost use Rattle.geometry.specs.Box.{within_limits, valid_axis, valid_box, valid_point, on_axis, inside};

use crate::padding::HEIGHT;
use base::both;

const LOWEST: i32 = -1_000_000;

const HIGHEST: i32 = 1_000_000;

fn within_limits(x: i32) -> bool
    ensures { result ≡ within_limits x }
{
    both(LOWEST <= x, x <= HIGHEST)
}

// Three comparisons: with the ends in order, each is within one limit because the other end is.
fn valid_axis(s: [i32; 2]) -> bool
    ensures { result ≡ valid_axis s }
{
    let l = s[0];
    let h = s[1];
    both(both(LOWEST <= l, l <= h), h <= HIGHEST)
}

pub fn valid_box(axes: usize, b: [[i32; 2]; 3]) -> bool
    requires { KnownAxes axes }
    ensures { result ≡ valid_box (take axes b) }
{
    let plan = both(valid_axis(b[0]), valid_axis(b[1]));
    if axes == HEIGHT {
        both(plan, valid_axis(b[2]))
    } else {
        plan
    }
}

pub fn valid_point(axes: usize, p: [i32; 3]) -> bool
    requires { KnownAxes axes }
    ensures { result ≡ valid_point (take axes p) }
{
    let plan = both(within_limits(p[0]), within_limits(p[1]));
    if axes == HEIGHT {
        both(plan, within_limits(p[2]))
    } else {
        plan
    }
}

fn on_axis(s: [i32; 2], x: i32) -> bool
    ensures { result ≡ on_axis s x }
{
    let l = s[0];
    let h = s[1];
    both(l <= x, x <= h)
}

pub fn inside(axes: usize, b: [[i32; 2]; 3], p: [i32; 3]) -> bool
    requires { KnownAxes axes }
    ensures { result ≡ inside (take axes b) (take axes p) }
{
    let plan = both(on_axis(b[0], p[0]), on_axis(b[1], p[1]));
    if axes == HEIGHT {
        both(plan, on_axis(b[2], p[2]))
    } else {
        plan
    }
}
