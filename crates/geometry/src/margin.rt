// The margin of three boxes, with three points that reach it, and whether E is closer than B from O.
ghost use Rattle.std.specs.Prelude.{◌≡◌, ◌&&◌, take};
ghost use Rattle.geometry.specs.Axes.{KnownAxes};
ghost use Rattle.geometry.specs.Box.{valid_box, ValidBoxes};
ghost use Rattle.geometry.specs.Margin.{reached, margin, closer};
ghost use Rattle.geometry.specs.Calls.{reached_of, reached_in, reached_outcome, margin_call};

use crate::padding::{HEIGHT, HasAxes, Town, pad_box};
use crate::{gains, limits};
use base::{Reason, Refusal};

pub fn margin_within(axes: usize, o: [[i32; 2]; 3], e: [[i32; 2]; 3], b: [[i32; 2]; 3]) -> i64
    requires { KnownAxes axes × ValidBoxes (take axes o) (take axes e) (take axes b) }
    ensures { result ≡ margin (take axes o) (take axes e) (take axes b) }
{
    let plan = gains::best_gain(o[0], e[0], b[0]) + gains::best_gain(o[1], e[1], b[1]);
    if axes == HEIGHT {
        plan + gains::best_gain(o[2], e[2], b[2])
    } else {
        plan
    }
}

pub fn closer_within(axes: usize, o: [[i32; 2]; 3], e: [[i32; 2]; 3], b: [[i32; 2]; 3]) -> bool
    requires { KnownAxes axes × ValidBoxes (take axes o) (take axes e) (take axes b) }
    ensures { result ≡ closer (take axes o) (take axes e) (take axes b) }
{
    margin_within(axes, o, e, b) < 0
}

// The margin, and three points of N coordinates that reach it.
#[derive(Clone, Copy, Debug, PartialEq, Eq)]
pub struct MarginPoints<const N: usize> {
    pub margin: i64,
    pub o: [i32; N],
    pub e: [i32; N],
    pub b: [i32; N],
}

// Of either number of axes, with room for three.
fn margin_points(
    axes: usize,
    o: [[i32; 2]; 3],
    e: [[i32; 2]; 3],
    b: [[i32; 2]; 3],
) -> MarginPoints<3>
    requires { KnownAxes axes × ValidBoxes (take axes o) (take axes e) (take axes b) }
    ensures { reached_in axes result ≡ reached (take axes o) (take axes e) (take axes b) }
{
    let margin = margin_within(axes, o, e, b);
    let x = gains::best_ends(o[0], e[0], b[0]);
    let y = gains::best_ends(o[1], e[1], b[1]);
    if axes == HEIGHT {
        let z = gains::best_ends(o[2], e[2], b[2]);
        MarginPoints {
            margin,
            o: [x.o, y.o, z.o],
            e: [x.e, y.e, z.e],
            b: [x.b, y.b, z.b],
        }
    } else {
        MarginPoints {
            margin,
            o: [x.o, y.o, 0],
            e: [x.e, y.e, 0],
            b: [x.b, y.b, 0],
        }
    }
}

// Whether all three boxes are valid, one tested after the other: if it may, compiled code gathers the tests of three
// boxes of three axes in vectors, which takes longer.
pub fn valid_boxes(axes: usize, o: [[i32; 2]; 3], e: [[i32; 2]; 3], b: [[i32; 2]; 3]) -> bool
    requires { KnownAxes axes }
    ensures { result ≡ ((valid_box (take axes o) && valid_box (take axes e)) && valid_box (take axes b)) }
{
    if !limits::valid_box(axes, o) {
        return false;
    }
    if !limits::valid_box(axes, e) {
        return false;
    }
    limits::valid_box(axes, b)
}

// The first N of three coordinates.
fn first<const N: usize>(p: [i32; 3]) -> [i32; N]
where
    Town: HasAxes<N>,
    ensures { result ≡ take N p }
{
    let mut q = [0; N];
    q.copy_from_slice(&p[..N]);
    q
}

// The points as an answer shows them, without the room left over.
fn shown<const N: usize>(m: MarginPoints<3>) -> MarginPoints<N>
where
    Town: HasAxes<N>,
    ensures { reached_of result ≡ reached_in N m }
{
    MarginPoints {
        margin: m.margin,
        o: first(m.o),
        e: first(m.e),
        b: first(m.b),
    }
}

pub fn margin<const N: usize>(
    o: [[i32; 2]; N],
    e: [[i32; 2]; N],
    b: [[i32; 2]; N],
) -> Result<MarginPoints<N>, Refusal>
where
    Town: HasAxes<N>,
    ensures { reached_outcome result ≡ margin_call o.entry e.entry b.entry }
{
    let po = pad_box(o);
    let pe = pad_box(e);
    let pb = pad_box(b);
    if !valid_boxes(N, po, pe, pb) {
        return Err(Reason::Box.at(0));
    }
    Ok(shown(margin_points(N, po, pe, pb)))
}
