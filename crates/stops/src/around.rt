// The stops of a run: the test of their coordinates, and the smallest box around them.
ghost use Rattle.std.specs.Prelude.{◌≡◌, [], ◌∷◌, ◌<◌, length, take};
ghost use Rattle.geometry.specs.Axes.{KnownAxes};
ghost use Rattle.geometry.specs.Around.{least, greatest, around};
ghost use Rattle.stops.specs.Arguments.{stops_valid};

use crate::stop::stop_at;
use geometry::limits::valid_point;
use plan::region::Region;

// Test 13.
pub fn valid_stops(axes: usize, xs: &[i32], ys: &[i32], zs: &[i32]) -> bool
    requires { KnownAxes axes × (length ys.now ≡ length xs.now) × (length zs.now ≡ length xs.now) }
    ensures { result ≡ stops_valid (take axes (xs.now ∷ ys.now ∷ zs.now ∷ [])) }
{
    (0..xs.len()).all(|i| valid_point(axes, stop_at(xs, ys, zs, i)))
}

// The least and the greatest of some coordinates.
fn extent(xs: &[i32]) -> [i32; 2]
    requires { 0 < length xs.now }
    ensures { result ≡ least xs.now ∷ greatest xs.now ∷ [] }
{
    let low = xs.iter().fold(xs[0], |a, x| a.min(*x));
    let high = xs.iter().fold(xs[0], |a, x| a.max(*x));
    [low, high]
}

// The smallest box around the stops.
#[tactic(auto, unfolding(geometry::specs::Around::around))]
pub fn around(xs: &[i32], ys: &[i32], zs: &[i32]) -> Region
    requires { (0 < length xs.now) × (0 < length ys.now) × (0 < length zs.now) }
    ensures { result ≡ around (xs.now ∷ ys.now ∷ zs.now ∷ []) }
{
    [extent(xs), extent(ys), extent(zs)]
}
