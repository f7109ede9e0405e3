// The squared distance of two points; the least and the largest from a point to the points of a box: near and far of
// document 01.
ghost use Rattle.std.specs.Prelude.{◌≡◌, true, take};
ghost use Rattle.geometry.specs.Axes.{KnownAxes};
ghost use Rattle.geometry.specs.Box.{valid_box, valid_point};
ghost use Rattle.geometry.specs.Distance.{D, min_dist, max_dist};
ghost use Rattle.base.specs.Answer.{outcome_of, tested_at};
ghost use Rattle.geometry.specs.Calls.{distance_tests, min_dist_call, max_dist_call};

use crate::padding::{HEIGHT, HasAxes, Town};
use crate::{axis, limits, padding};
use base::{Reason, Refusal};

// D of two points.
pub fn squared_dist(axes: usize, p: [i32; 3], q: [i32; 3]) -> u64
    requires { KnownAxes axes × ((valid_point (take axes p) ≡ true) × (valid_point (take axes q) ≡ true)) }
    ensures { result ≡ D (take axes p) (take axes q) }
{
    let plan = axis::square(p[0], q[0]) + axis::square(p[1], q[1]);
    if axes == HEIGHT {
        plan + axis::square(p[2], q[2])
    } else {
        plan
    }
}

pub fn min_dist_within(axes: usize, b: [[i32; 2]; 3], p: [i32; 3]) -> u64
    requires { KnownAxes axes × ((valid_box (take axes b) ≡ true) × (valid_point (take axes p) ≡ true)) }
    ensures { result ≡ min_dist (take axes b) (take axes p) }
{
    let plan = axis::min_square(b[0], p[0]) + axis::min_square(b[1], p[1]);
    if axes == HEIGHT {
        plan + axis::min_square(b[2], p[2])
    } else {
        plan
    }
}

pub fn max_dist_within(axes: usize, b: [[i32; 2]; 3], p: [i32; 3]) -> u64
    requires { KnownAxes axes × ((valid_box (take axes b) ≡ true) × (valid_point (take axes p) ≡ true)) }
    ensures { result ≡ max_dist (take axes b) (take axes p) }
{
    let plan = axis::max_square(b[0], p[0]) + axis::max_square(b[1], p[1]);
    if axes == HEIGHT {
        plan + axis::max_square(b[2], p[2])
    } else {
        plan
    }
}

// Tests 9 and 13.
fn tests(axes: usize, b: [[i32; 2]; 3], p: [i32; 3]) -> Result<(), Reason>
    requires { KnownAxes axes }
    ensures { tested_at 0 result ≡ distance_tests (take axes b) (take axes p) }
{
    if !limits::valid_box(axes, b) {
        return Err(Reason::Box);
    }
    if !limits::valid_point(axes, p) {
        return Err(Reason::Spot);
    }
    Ok(())
}

// Near, of a box and a point of N axes.
pub fn min_dist<const N: usize>(b: [[i32; 2]; N], p: [i32; N]) -> Result<u64, Refusal>
where
    Town: HasAxes<N>,
    ensures { outcome_of result ≡ min_dist_call b.entry p.entry }
{
    let bounds = padding::pad_box(b);
    let point = padding::pad_point(p);
    tests(N, bounds, point)?;
    Ok(min_dist_within(N, bounds, point))
}

// Far.
pub fn max_dist<const N: usize>(b: [[i32; 2]; N], p: [i32; N]) -> Result<u64, Refusal>
where
    Town: HasAxes<N>,
    ensures { outcome_of result ≡ max_dist_call b.entry p.entry }
{
    let bounds = padding::pad_box(b);
    let point = padding::pad_point(p);
    tests(N, bounds, point)?;
    Ok(max_dist_within(N, bounds, point))
}
