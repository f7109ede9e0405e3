// What a tile waits for: a tile that is left and nearer than it. It is looked for among the places from the back to the
// front, and once it was taken the next one from there on: no pair of tiles is looked at twice.
ghost use Rattle.std.specs.Prelude.{true, ◌&&◌, ◌≡◌, ℕ, ◌<◌, ◌≤◌, get_or, length};
ghost use Rattle.base.specs.Refusal.{accepted};
ghost use Rattle.blocks.specs.Directory.{directory};
ghost use Rattle.blocks.specs.Layout.{max_tiles};
ghost use Rattle.corners.specs.Inner.Tables.{far_size, FarTable, below_all};
ghost use Rattle.geometry.specs.Axes.{KnownAxes};
ghost use Rattle.plan.specs.Inner.Seam.{TileOf, region_of, ValidRegion};
ghost use Rattle.arrange.specs.Inner.Places.{tile_at, Listed, Least};
ghost use Rattle.stream.specs.Inner.State.{is_left, LastBlocker, waits_for, Settled, TakenBelow, Stands, Standing};
ghost use Rattle.stream.specs.Inner.State.{Released};
ghost use Rattle.stream.specs.Stream.{closer_from};

use arrange::places::{place_before, tile_at};
use base::both;
use blocks::header::Header;
use blocks::layout::MAX_TILES;
use corners::compare::{below, last_below};
use corners::tables::near_from;
use plan::region::{MAX_CORNERS, Region, corners};

// In the place of a tile to wait for: none is left; the tile itself was taken. Numbers and no enum, so that a group of
// places is compared with one tile at once.
pub const FREE: u32 = 960;

pub const TAKEN: u32 = 961;

// Whether the tile at place i is left, and nearer than the one that near was taken of.
fn blocks_at(
    h: Header,
    far: &[u64],
    keys: &[u64],
    waits: &[u32],
    near: [u64; MAX_CORNERS],
    i: usize,
) -> bool
    requires known_axes { KnownAxes h.axes × (length far.now ≡ far_size h) × (i < max_tiles) }
    requires i_in_bounds { (i < length keys.now) × (tile_at keys.now i < length waits.now) }
    ensures { result ≡ below_all h far.now near i
        && is_left waits.now (tile_at keys.now i) }
{
    let t = tile_at(keys, i);
    both(below(h, far, i, near), waits[t] != TAKEN)
}

// Of the places from `low` to `to` - 1 the last that blocks, and one more. The corner opposite to the first, by which
// the places are ordered, is tested in a loop of its own.
fn last_blocker(
    h: Header,
    far: &[u64],
    keys: &[u64],
    waits: &[u32],
    near: [u64; MAX_CORNERS],
    low: usize,
    to: usize,
) -> usize
    requires known_axes { KnownAxes h.axes × (length far.now ≡ far_size h) × (to ≤ h.tiles) × (h.tiles ≤ max_tiles) }
    requires keys_len { (length keys.now ≡ max_tiles) × Listed h.tiles keys.now × (length waits.now ≡ max_tiles) }
    ensures { LastBlocker (λ i. below_all h far.now near i
        && is_left waits.now (tile_at keys.now i)) low to result }
{
    let n = corners(h);
    let part = (n - 1) * MAX_TILES;
    let bound = near[n - 1];
    // A `while`, since the next place is the next one found.
    let mut i = last_below(far, part, low, to, bound);
    while low < i {
        if blocks_at(h, far, keys, waits, near, i - 1) {
            return i;
        }
        i = last_below(far, part, low, i - 1, bound);
    }
    i
}

// The tile at that place, or none.
fn waits_for(keys: &[u64], low: usize, i: usize) -> u32
    requires { i ≤ length keys.now }
    ensures { result ≡ waits_for keys.now low i }
{
    if low < i {
        return tile_at(keys, i - 1) as u32;
    }
    FREE
}

// What tile b waits for, found again.
fn settle(
    h: Header,
    far: &[u64],
    keys: &[u64],
    near: [u64; MAX_CORNERS],
    low: usize,
    to: usize,
    b: usize,
    waits: &mut [u32],
    from: &mut [u32],
)
    requires known_axes { KnownAxes h.axes × (length far.now ≡ far_size h) × (to ≤ h.tiles) × (h.tiles ≤ max_tiles) }
    requires keys_len { (length keys.now ≡ max_tiles) × Listed h.tiles keys.now × (length waits.old ≡ max_tiles) }
    requires b_lt_tiles { (b < h.tiles) × (length from.old ≡ max_tiles) }
    ensures { Settled (below_all h far.now near) keys.now low to b
        waits.old waits.new from.old from.new }
{
    let i = last_blocker(h, far, keys, waits, near, low, to);
    waits[b] = waits_for(keys, low, i);
    from[b] = i as u32;
}

// What tile b waits for first. All tiles are left.
fn settle_first(
    f: &[u8],
    h: Header,
    o: Region,
    far: &[u64],
    least: &[u64],
    keys: &[u64],
    b: usize,
    waits: &mut [u32],
    from: &mut [u32],
)
    requires tile_of { TileOf f.now h b × ValidRegion h (region_of h o) }
    requires far_table { FarTable f.now h (region_of h o) (tile_at keys.now) h.tiles far.now }
    requires keys_len { (length keys.now ≡ max_tiles) × Listed h.tiles keys.now
        × (length least.now ≡ max_tiles) × Least far.now h.tiles least.now }
    requires waits_len { (length waits.old ≡ max_tiles) × (length from.old ≡ max_tiles) }
    ensures { Released (closer_from f.now h (region_of h o)) h.tiles keys.now b
        waits.old waits.new from.old from.new }
{
    let near = near_from(f, h, o, b);
    let to = place_before(least, h.tiles, near[0]);
    settle(h, far, keys, near, 0, to, b, waits, from);
}

// The same for all tiles.
pub fn settle_all(
    f: &[u8],
    h: Header,
    o: Region,
    far: &[u64],
    least: &[u64],
    keys: &[u64],
    waits: &mut [u32],
    from: &mut [u32],
)
    requires f_value { (directory f.now ≡ accepted h) × ValidRegion h (region_of h o) }
    requires far_table { FarTable f.now h (region_of h o) (tile_at keys.now) h.tiles far.now }
    requires keys_len { (length keys.now ≡ max_tiles) × Listed h.tiles keys.now
        × (length least.now ≡ max_tiles) × Least far.now h.tiles least.now }
    requires waits_len { (length waits.old ≡ max_tiles) × (length from.old ≡ max_tiles)
        × ((a : ℕ) → is_left waits.old a ≡ true) }
    ensures { Standing (closer_from f.now h (region_of h o)) h.tiles keys.now h.tiles 0
        waits.new from.new × ((a : ℕ) → is_left waits.new a ≡ true) }
{
    for b in 0..h.tiles {
        settle_first(f, h, o, far, least, keys, b, waits, from);
    }
}

// What tile b waits for next, since the one that it waited for was taken. At the places below `low` all were taken.
pub fn release(
    f: &[u8],
    h: Header,
    o: Region,
    far: &[u64],
    keys: &[u64],
    low: usize,
    b: usize,
    waits: &mut [u32],
    from: &mut [u32],
)
    requires tile_of { TileOf f.now h b × ValidRegion h (region_of h o) }
    requires far_table { FarTable f.now h (region_of h o) (tile_at keys.now) h.tiles far.now }
    requires keys_len { (length keys.now ≡ max_tiles) × Listed h.tiles keys.now
        × (length waits.old ≡ max_tiles) × (length from.old ≡ max_tiles) }
    requires taken_below { TakenBelow (closer_from f.now h (region_of h o)) h.tiles keys.now waits.old low }
    requires stands { Stands (closer_from f.now h (region_of h o)) h.tiles keys.now (is_left waits.old)
        (get_or waits.old b 0) (get_or waits.old b 0) (get_or from.old b 0) b }
    ensures { Released (closer_from f.now h (region_of h o)) h.tiles keys.now b
        waits.old waits.new from.old from.new }
{
    let near = near_from(f, h, o, b);
    let to = from[b] as usize;
    settle(h, far, keys, near, low, to, b, waits, from);
}
