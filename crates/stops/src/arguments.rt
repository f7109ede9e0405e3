// Tests 11 to 14 and 17 of the join. Stops come by columns, x, y and z: of a plan call y stands for z.
ghost use Rattle.std.specs.Prelude.{[], ◌∷◌, ◌≡◌, take};
ghost use Rattle.base.specs.Answer.{tested_at};
ghost use Rattle.geometry.specs.Axes.{Columns};
ghost use Rattle.stops.specs.Arguments.{stops_due, room, arguments};

use crate::around::valid_stops;
use base::{Reason, both};
use blocks::header::Header;
use search::{MAX_STOPS, valid_k};

// The lengths of the output slices.
#[derive(Clone, Copy, Debug, PartialEq, Eq)]
pub struct Lengths {
    pub dist: usize,
    pub site: usize,
    pub cue: usize,
    pub marks: usize,
}

// Test 12.
fn stops_due(axes: usize, xs: &[i32], ys: &[i32], zs: &[i32]) -> bool
    requires { Columns axes ys.now zs.now }
    ensures { result ≡ stops_due (take axes (xs.now ∷ ys.now ∷ zs.now ∷ [])) }
{
    let n = xs.len();
    both(
        (1..=MAX_STOPS).contains(&n),
        both(ys.len() == n, zs.len() == n),
    )
}

// Test 14: n places in each of three slices, and T marks.
#[tactic(auto, unfolding(crate::specs::Arguments::room))]
fn room(n: usize, h: Header, l: Lengths) -> bool
    ensures { result ≡ room n h.tiles l }
{
    both(
        both(n <= l.dist, n <= l.site),
        both(n <= l.cue, h.tiles <= l.marks),
    )
}

// The arguments of a call for this number of axes: the reason of the first test that they fail.
#[tactic(auto, using(crate::proofs::ArgumentLaws::told), unfolding(crate::specs::Arguments::arguments))]
pub fn check_arguments(
    h: Header,
    axes: usize,
    xs: &[i32],
    ys: &[i32],
    zs: &[i32],
    k: u32,
    l: Lengths,
) -> Result<(), Reason>
    requires { Columns axes ys.now zs.now }
    ensures { tested_at 0 result ≡ arguments h (take axes (xs.now ∷ ys.now ∷ zs.now ∷ [])) k l }
{
    if !valid_k(k) {
        return Err(Reason::K);
    }
    if !stops_due(axes, xs, ys, zs) {
        return Err(Reason::Stops);
    }
    if h.axes != axes {
        return Err(Reason::Axes);
    }
    if !valid_stops(axes, xs, ys, zs) {
        return Err(Reason::Spot);
    }
    let n = xs.len() * (k as usize);
    if !room(n, h, l) {
        return Err(Reason::Short);
    }
    Ok(())
}
