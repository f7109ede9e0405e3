// Far in the tables against near.
ghost use Rattle.std.specs.Prelude.{◌≡◌, ◌+◌, ◌*◌, ◌<◌, ◌≤◌, ltb, get_or, length};
ghost use Rattle.base.specs.Every.{every};
ghost use Rattle.blocks.specs.Layout.{max_tiles};
ghost use Rattle.geometry.specs.Axes.{KnownAxes};
ghost use Rattle.corners.specs.Inner.Tables.{far_size, below_all, FirstBelow, LastBelow};

use base::both;
use blocks::header::Header;
use blocks::layout::{HEIGHT, MAX_TILES};
use plan::region::MAX_CORNERS;

// From one place on, the first before `to` where far is below near, from corner 0; `to` if there is none. A `for` that
// returns the place was tried, and is slower: what the caller does there is then reached by a jump more.
pub fn next_below(far: &[u64], from: usize, to: usize, near: u64) -> usize
    requires { (from ≤ to) × (to ≤ length far.now) }
    ensures { FirstBelow far.now near from to result }
{
    let mut e = from;
    while e < to && near <= far[e] {
        e += 1;
    }
    e
}

// Of the places from `low` to `to` - 1 the last where far is below near, and one more, from the corner whose part
// starts at `part`; not above `low` if there is none.
pub fn last_below(far: &[u64], part: usize, low: usize, to: usize, near: u64) -> usize
    requires { part + to ≤ length far.now }
    ensures { LastBelow far.now part near low to result }
{
    for i in (low..to).rev() {
        if far[part + i] < near {
            return i + 1;
        }
    }
    low.min(to)
}

// Whether at place e far is below near, from each of the corners `first` to `first` + 3: 0 to 3 have the low z, 4 to 7 the
// high one. The last of the four, opposite to the first, comes first: a tile that passed the test of one mostly fails
// that of the other.
fn below_four(far: &[u64], e: usize, near: [u64; MAX_CORNERS], first: usize) -> bool
    requires { (e < max_tiles) × ((first + 4) * max_tiles ≤ length far.now) × (first ≤ 4) }
    ensures { result ≡ every (λ c. ltb (get_or far.now ((first + c) * max_tiles + e) 0)
        (get_or near (first + c) 0)) 4 }
{
    let mut all = true;
    for c in (0..4).rev() {
        all = both(all, far[(first + c) * MAX_TILES + e] < near[first + c]);
    }
    all
}

// Whether at place e far is below near, from each corner.
pub fn below(h: Header, far: &[u64], e: usize, near: [u64; MAX_CORNERS]) -> bool
    requires { KnownAxes h.axes × (e < max_tiles) × (length far.now ≡ far_size h) }
    ensures { result ≡ below_all h far.now near e }
{
    let low = below_four(far, e, near, 0);
    if h.axes == HEIGHT {
        both(low, below_four(far, e, near, 4))
    } else {
        low
    }
}
