// One axis of three boxes: the differences from the two ends of O, the larger of them, and the points it is reached at.
ghost use Rattle.std.specs.Prelude.{◌≡◌, true, ◌≤◌, pos, ◌-ℤ◌};
ghost use Rattle.geometry.specs.Box.{lo, hi, valid_axis};
ghost use Rattle.geometry.specs.Distance.{closest, farthest};
ghost use Rattle.geometry.specs.Margin.{gain, best_end};

use crate::axis;

// A square to E less a square to B, on one axis.
fn difference(far: u64, near: u64) -> i64
    requires { (far ≤ 4000000000000) × (near ≤ 4000000000000) }
    ensures { result ≡ (pos far -ℤ pos near) }
{
    (far as i64) - (near as i64)
}

// On one axis, from each end of O: the square to the farther end of E less the square to the closest point of B.
#[derive(Clone, Copy)]
struct Gains {
    low: i64,
    high: i64,
}

fn gains_at_ends(o: [i32; 2], e: [i32; 2], b: [i32; 2]) -> Gains
    requires { (valid_axis o ≡ true) × ((valid_axis e ≡ true) × (valid_axis b ≡ true)) }
    ensures { (result.low ≡ gain e b (lo o)) × (result.high ≡ gain e b (hi o)) }
{
    let l = o[0];
    let h = o[1];
    let low = difference(axis::max_square(e, l), axis::min_square(b, l));
    let high = difference(axis::max_square(e, h), axis::min_square(b, h));
    Gains { low, high }
}

// The larger of the two.
pub fn best_gain(o: [i32; 2], e: [i32; 2], b: [i32; 2]) -> i64
    requires { (valid_axis o ≡ true) × ((valid_axis e ≡ true) × (valid_axis b ≡ true)) }
    ensures { result ≡ gain e b (best_end o e b) }
{
    let g = gains_at_ends(o, e, b);
    if g.low < g.high { g.high } else { g.low }
}

// The coordinates on one axis of the three points that reach the margin.
#[derive(Clone, Copy)]
pub struct Ends {
    pub o: i32,
    pub e: i32,
    pub b: i32,
}

fn best_end(o: [i32; 2], e: [i32; 2], b: [i32; 2]) -> i32
    requires { (valid_axis o ≡ true) × ((valid_axis e ≡ true) × (valid_axis b ≡ true)) }
    ensures { result ≡ best_end o e b }
{
    let g = gains_at_ends(o, e, b);
    if g.low < g.high { o[1] } else { o[0] }
}

pub fn best_ends(o: [i32; 2], e: [i32; 2], b: [i32; 2]) -> Ends
    requires { (valid_axis o ≡ true) × ((valid_axis e ≡ true) × (valid_axis b ≡ true)) }
    ensures o { result.o ≡ best_end o e b }
    ensures e { result.e ≡ farthest e (best_end o e b) }
    ensures b { result.b ≡ closest b (best_end o e b) }
{
    let x = best_end(o, e, b);
    let y = axis::farthest(e, x);
    let z = axis::closest(b, x);
    Ends { o: x, e: y, b: z }
}
