// The stops as points, with room for three axes.
ghost use Rattle.std.specs.Prelude.{[], ◌∷◌, ◌≡◌, ◌<◌, ◌≤◌, length};
ghost use Rattle.base.specs.Over.{over};
ghost use Rattle.stops.specs.Stops.{stop_at, stops_of};

use plan::region::Stop;

// Stop i.
#[tactic(auto, unfolding(geometry::specs::Around::row))]
pub fn stop_at(xs: &[i32], ys: &[i32], zs: &[i32], i: usize) -> Stop
    requires { (i < length xs.now) × (i < length ys.now) × (i < length zs.now) }
    ensures { result ≡ stop_at (xs.now ∷ ys.now ∷ zs.now ∷ []) i }
{
    [xs[i], ys[i], zs[i]]
}

// All stops in their order, at the front of `stops`.
#[tactic(auto, using(crate::proofs::StopLaws::points_done))]
pub fn gather_stops(xs: &[i32], ys: &[i32], zs: &[i32], stops: &mut [Stop])
    requires { (length ys.now ≡ length xs.now) × (length zs.now ≡ length xs.now)
        × (length xs.now ≤ length stops.old) }
    ensures { stops.new
        ≡ over stops.old 0 (stops_of (xs.now ∷ ys.now ∷ zs.now ∷ [])) }
{
    for i in 0..xs.len() {
        stops[i] = stop_at(xs, ys, zs, i);
    }
}
