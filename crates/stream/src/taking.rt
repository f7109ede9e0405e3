// The tiles taken one after the other.
ghost use Rattle.std.specs.Prelude.{true, false, ◌≢◌, ◌≡◌, ℕ, ◌+◌, ◌<◌, ◌≤◌, min, get_or, length};
ghost use Rattle.base.specs.Over.{over};
ghost use Rattle.base.specs.Refusal.{accepted};
ghost use Rattle.blocks.specs.Directory.{directory};
ghost use Rattle.blocks.specs.Layout.{max_tiles};
ghost use Rattle.corners.specs.Inner.Tables.{far_size, FarTable};
ghost use Rattle.plan.specs.Inner.Seam.{region_of, ValidRegion};
ghost use Rattle.arrange.specs.Inner.Places.{tile_at, Listed};
ghost use Rattle.stream.specs.Inner.State.{is_left, TakenBelow, Standing, Freed, FirstFree, FirstLeft};
ghost use Rattle.stream.specs.Stream.{closer_from, tile_order};

use crate::blocking::{FREE, TAKEN, release, settle_all};
use arrange::places;
use arrange::places::tile_at;
use blocks::header::Header;
use blocks::layout::{HEIGHT, MAX_TILES};
use plan::region::Region;

// How many tiles are looked at together.
const GROUP: usize = 32;

// Whether none of the tiles of a group waits for t: a loop of constant length and without a branch, so that compiled
// code looks at several tiles at once.
fn none_waits(waits: &[u32], first: usize, t: u32) -> bool
    requires { (first + 32 ≤ length waits.now) × (first ≤ max_tiles) }
    ensures { result ≡ true → (b : ℕ) → first ≤ b → b < first + 32 → get_or waits.now b 0 ≢ t }
{
    let mut found: u32 = 0;
    for i in 0..GROUP {
        found += u32::from(waits[first + i] == t);
    }
    found == 0
}

// Those of the tiles from `first` to `to` - 1 that waited for t find another tile to wait for, or none. Gives a tile
// not above `least`, before which all wait as they did.
fn release_among(
    f: &[u8],
    h: Header,
    o: Region,
    far: &[u64],
    keys: &[u64],
    low: usize,
    t: usize,
    first: usize,
    to: usize,
    least: usize,
    waits: &mut [u32],
    from: &mut [u32],
) -> usize
    requires f_value { (directory f.now ≡ accepted h) × ValidRegion h (region_of h o) }
    requires far_table { FarTable f.now h (region_of h o) (tile_at keys.now) h.tiles far.now }
    requires keys_len { (length keys.now ≡ max_tiles) × Listed h.tiles keys.now
        × (length waits.old ≡ max_tiles) × (length from.old ≡ max_tiles) }
    requires taken_below { TakenBelow (closer_from f.now h (region_of h o)) h.tiles keys.now waits.old low }
    requires t_lt_tiles { (t < h.tiles) × (first ≤ to) × (to ≤ h.tiles) }
    requires standing { Standing (closer_from f.now h (region_of h o)) h.tiles keys.now t first waits.old from.old }
    ensures { (result ≤ least) × Freed (closer_from f.now h (region_of h o)) h.tiles keys.now
        t to waits.old waits.new from.old from.new result }
{
    let mut before = least;
    for b in first..to {
        if waits[b] == t as u32 {
            release(f, h, o, far, keys, low, b, waits, from);
            before = before.min(b);
        }
    }
    before
}

// The same of all tiles, group by group: those of which none waited for t are passed over. A `for` over the groups, with
// the first tile of each worked out, was tried, and is slower.
fn release_all(
    f: &[u8],
    h: Header,
    o: Region,
    far: &[u64],
    keys: &[u64],
    low: usize,
    t: usize,
    waits: &mut [u32],
    from: &mut [u32],
) -> usize
    requires f_value { (directory f.now ≡ accepted h) × ValidRegion h (region_of h o) }
    requires far_table { FarTable f.now h (region_of h o) (tile_at keys.now) h.tiles far.now }
    requires keys_len { (length keys.now ≡ max_tiles) × Listed h.tiles keys.now
        × (length waits.old ≡ max_tiles) × (length from.old ≡ max_tiles) }
    requires taken_below { TakenBelow (closer_from f.now h (region_of h o)) h.tiles keys.now waits.old low }
    requires t_lt_tiles { (t < h.tiles)
        × Standing (closer_from f.now h (region_of h o)) h.tiles keys.now t 0 waits.old from.old }
    ensures { (result ≤ t) × Freed (closer_from f.now h (region_of h o)) h.tiles keys.now
        t h.tiles waits.old waits.new from.old from.new result }
{
    let mut before = t;
    let mut first: usize = 0;
    while first < h.tiles {
        let to = h.tiles.min(first + GROUP);
        if !none_waits(waits, first, t as u32) {
            before = release_among(f, h, o, far, keys, low, t, first, to, before, waits, from);
        }
        first += GROUP;
    }
    before
}

// From tile `at` on the first that waits for none.
fn first_free(waits: &[u32], at: usize, n: usize) -> usize
    requires { (at ≤ n) × (n ≤ length waits.now) }
    ensures { FirstFree waits.now at n result }
{
    for t in at..n {
        if waits[t] == FREE {
            return t;
        }
    }
    n
}

// From place `low` on the first of a tile that is left.
fn first_left(keys: &[u64], waits: &[u32], low: usize, n: usize) -> usize
    requires { (low ≤ n) × (n ≤ length keys.now) × Listed n keys.now × (n ≤ length waits.now) }
    ensures { FirstLeft keys.now waits.now low n result }
{
    for i in low..n {
        let t = tile_at(keys, i);
        if waits[t] != TAKEN {
            return i;
        }
    }
    n
}

// All tiles, from what each waits for at first.
fn take_all(
    f: &[u8],
    h: Header,
    o: Region,
    far: &[u64],
    keys: &[u64],
    waits: &mut [u32],
    from: &mut [u32],
    order: &mut [u32],
)
    requires f_value { (directory f.now ≡ accepted h) × ValidRegion h (region_of h o) }
    requires far_table { FarTable f.now h (region_of h o) (tile_at keys.now) h.tiles far.now }
    requires keys_len { (length keys.now ≡ max_tiles) × Listed h.tiles keys.now
        × (length waits.old ≡ max_tiles) × (length from.old ≡ max_tiles) × (h.tiles ≤ length order.old) }
    requires standing { Standing (closer_from f.now h (region_of h o)) h.tiles keys.now h.tiles 0 waits.old from.old
        × ((a : ℕ) → is_left waits.old a ≡ true) }
    ensures { order.new ≡ over order.old 0 (tile_order f.now h (region_of h o)) }
{
    let mut at: usize = 0;
    let mut low: usize = 0;
    for i in 0..h.tiles {
        let t = first_free(waits, at, h.tiles);
        order[i] = t as u32;
        waits[t] = TAKEN;
        low = first_left(keys, waits, low, h.tiles);
        at = release_all(f, h, o, far, keys, low, t, waits, from);
    }
}

// The same from the table of far, filled.
fn order_placed(f: &[u8], h: Header, o: Region, far: &[u64], keys: &[u64], order: &mut [u32])
    requires f_value { (directory f.now ≡ accepted h) × ValidRegion h (region_of h o) }
    requires far_table { FarTable f.now h (region_of h o) (tile_at keys.now) h.tiles far.now }
    requires keys_len { (length keys.now ≡ max_tiles) × Listed h.tiles keys.now × (h.tiles ≤ length order.old) }
    ensures { order.new ≡ over order.old 0 (tile_order f.now h (region_of h o)) }
{
    let mut least = [0u64; MAX_TILES];
    places::fill_least(far, h.tiles, &mut least);
    let mut waits = [FREE; MAX_TILES];
    let mut from = [0u32; MAX_TILES];
    settle_all(f, h, o, far, &least, keys, &mut waits, &mut from);
    take_all(f, h, o, far, keys, &mut waits, &mut from, order);
}

// The same with a table that has room for the corners of the town's regions.
fn order_with(f: &[u8], h: Header, o: Region, far: &mut [u64], order: &mut [u32])
    requires { (directory f.now ≡ accepted h) × (h.tiles ≤ length order.old) × ValidRegion h (region_of h o)
        × (length far.old ≡ far_size h) }
    ensures { order.new ≡ over order.old 0 (tile_order f.now h (region_of h o)) }
{
    let mut keys = [0u64; MAX_TILES];
    places::list_tiles(f, h, o, &mut keys);
    places::fill_far(f, h, o, &keys, far);
    order_placed(f, h, o, far, &keys, order);
}

// The tiles in their sequence.
pub fn put_order(f: &[u8], h: Header, o: Region, order: &mut [u32])
    requires { (directory f.now ≡ accepted h) × (h.tiles ≤ length order.old) × ValidRegion h (region_of h o) }
    ensures { order.new ≡ over order.old 0 (tile_order f.now h (region_of h o)) }
{
    if h.axes == HEIGHT {
        let mut far = [0u64; 8 * MAX_TILES];
        order_with(f, h, o, &mut far, order);
    } else {
        let mut far = [0u64; 4 * MAX_TILES];
        order_with(f, h, o, &mut far, order);
    }
}
