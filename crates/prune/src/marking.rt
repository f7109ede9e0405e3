// The sum that prunes a tile, and the marks of all tiles.
ghost use Rattle.std.specs.Prelude.{◌≡◌, ◌-◌, ◌≤◌, leb, length};
ghost use Rattle.base.specs.Over.{over};
ghost use Rattle.base.specs.Refusal.{accepted};
ghost use Rattle.blocks.specs.Directory.{directory};
ghost use Rattle.blocks.specs.Layout.{max_tiles};
ghost use Rattle.corners.specs.Inner.Tables.{far_size, FarTable};
ghost use Rattle.geometry.specs.Axes.{KnownAxes};
ghost use Rattle.plan.specs.FilePlan.{entries};
ghost use Rattle.plan.specs.Inner.Seam.{TileOf, region_of, ValidRegion};
ghost use Rattle.search.specs.Lists.{bit};
ghost use Rattle.search.specs.Pruning.{pruned, pruned_count};
ghost use Rattle.prune.specs.Inner.Sum.{sum_below};
ghost use Rattle.prune.specs.Prune.{prune_marks};

use crate::tables::fill_corners;
use blocks::header::Header;
use blocks::layout::{HEIGHT, MAX_TILES};
use corners::compare::{below, next_below};
use corners::tables::near_from;
use plan::measure::NONE;
use plan::region::{MAX_CORNERS, Region, corners};
use plan::sites;

// How many tiles are tried first.
const FEW: usize = 32;

// Whether the tiles from `from` to `to` - 1 that are far below near, from each corner, have together at least k sites
// that rank. It stops as soon as they do, and looks only at tiles that pass the test of the first corner.
fn reaches_among(
    f: &[u8],
    h: Header,
    far: &[u64],
    near: [u64; MAX_CORNERS],
    from: usize,
    to: usize,
    k: usize,
) -> bool
    requires f_value { (directory f.now ≡ accepted h) × (length far.now ≡ far_size h) }
    requires from_le_to { (from ≤ to) × (to ≤ h.tiles) }
    ensures { result ≡ leb k (sum_below f.now h far.now near from (to - from)) }
{
    let mut sum: usize = 0;
    // A `while`, since the next tile is the next one found.
    let mut e = next_below(far, from, to, near[0]);
    while e < to {
        if below(h, far, e, near) {
            sum += sites::ranked(f, h, e);
            if k <= sum {
                return true;
            }
        }
        e = next_below(far, e + 1, to, near[0]);
    }
    k <= sum
}

// Whether all tiles that are far below near, from each corner, have together at least k sites that rank. A few tiles
// from `middle` on, which lie about O, are tried first: against a tile far from O they mostly do it.
fn reaches(
    f: &[u8],
    h: Header,
    far: &[u64],
    middle: usize,
    near: [u64; MAX_CORNERS],
    k: usize,
) -> bool
    requires { (directory f.now ≡ accepted h) × (length far.now ≡ far_size h) × (middle ≤ h.tiles) }
    ensures { result ≡ leb k (sum_below f.now h far.now near 0 h.tiles) }
{
    let to = h.tiles.min(middle + FEW);
    reaches_among(f, h, far, near, middle, to, k) || reaches_among(f, h, far, near, 0, h.tiles, k)
}

// The mark of tile t: 1 where it is pruned, else 0.
fn prune_tile(f: &[u8], h: Header, far: &[u64], middle: usize, o: Region, k: usize, t: usize) -> u8
    requires tile_of { TileOf f.now h t × ValidRegion h (region_of h o) × (middle ≤ h.tiles) }
    requires far_table { FarTable f.now h (region_of h o) (λ t. t) h.tiles far.now }
    ensures { result ≡ bit (pruned (entries f.now h) (region_of h o) k t) }
{
    let near = near_from(f, h, o, t);
    if reaches(f, h, far, middle, near, k) {
        return search::PRUNED;
    }
    0
}

// A tile that lies about O: of all tiles the one with the least far from two opposite corners. It is only where
// the sums start: nothing rests on it.
fn middle_tile(far: &[u64], h: Header) -> usize
    requires { KnownAxes h.axes × (h.tiles ≤ max_tiles) × (length far.now ≡ far_size h) }
    ensures { result ≤ h.tiles }
{
    let opposite = (corners(h) - 1) * MAX_TILES;
    let mut middle: usize = 0;
    let mut least: u64 = NONE;
    for e in 0..h.tiles {
        let sum = far[e] / 2 + far[opposite + e] / 2;
        if sum < least {
            middle = e;
            least = sum;
        }
    }
    middle
}

// The marks of all tiles, and the number pruned.
fn prune_all(f: &[u8], h: Header, far: &[u64], o: Region, k: usize, marks: &mut [u8]) -> usize
    requires f_value { (directory f.now ≡ accepted h) × (h.tiles ≤ length marks.old) × ValidRegion h (region_of h o) }
    requires far_table { FarTable f.now h (region_of h o) (λ t. t) h.tiles far.now }
    ensures value { (result ≡ pruned_count (entries f.now h) (region_of h o) k) × (result ≤ h.tiles) }
    ensures marks_after { marks.new
        ≡ over marks.old 0 (prune_marks f.now h (region_of h o) k) }
{
    let middle = middle_tile(far, h);
    let mut count: usize = 0;
    for t in 0..h.tiles {
        let x = prune_tile(f, h, far, middle, o, k, t);
        marks[t] = x;
        count += usize::from(x);
    }
    count
}

// The same, with the table filled first.
fn prune_with(f: &[u8], h: Header, far: &mut [u64], o: Region, k: usize, marks: &mut [u8]) -> usize
    requires { (directory f.now ≡ accepted h) × (h.tiles ≤ length marks.old) × ValidRegion h (region_of h o)
        × (length far.old ≡ far_size h) }
    ensures value { (result ≡ pruned_count (entries f.now h) (region_of h o) k) × (result ≤ h.tiles) }
    ensures marks_after { marks.new
        ≡ over marks.old 0 (prune_marks f.now h (region_of h o) k) }
{
    fill_corners(f, h, o, far);
    prune_all(f, h, far, o, k, marks)
}

// The same, with a table that has room for the corners of the town's regions and no more: it is set to zero first.
pub fn mark_pruned(f: &[u8], h: Header, o: Region, k: usize, marks: &mut [u8]) -> usize
    requires { (directory f.now ≡ accepted h) × (h.tiles ≤ length marks.old) × ValidRegion h (region_of h o) }
    ensures value { (result ≡ pruned_count (entries f.now h) (region_of h o) k) × (result ≤ h.tiles) }
    ensures marks_after { marks.new
        ≡ over marks.old 0 (prune_marks f.now h (region_of h o) k) }
{
    if h.axes == HEIGHT {
        let mut far = [0u64; 8 * MAX_TILES];
        prune_with(f, h, &mut far, o, k, marks)
    } else {
        let mut far = [0u64; 4 * MAX_TILES];
        prune_with(f, h, &mut far, o, k, marks)
    }
}
