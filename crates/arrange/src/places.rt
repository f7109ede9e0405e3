// The places: the tiles listed, far of each at its place, and from a place on.
ghost use Rattle.std.specs.Prelude.{◌≡◌, ◌%◌, ◌<◌, ◌≤◌, get_or, length};
ghost use Rattle.base.specs.Refusal.{accepted};
ghost use Rattle.blocks.specs.Directory.{directory};
ghost use Rattle.blocks.specs.Layout.{max_tiles};
ghost use Rattle.corners.specs.Inner.Tables.{far_size, FarTable};
ghost use Rattle.plan.specs.Inner.Seam.{TileOf, region_of, ValidRegion};
ghost use Rattle.arrange.specs.Inner.Places.{tile_at, tile_room, Listed, Least, NoneFrom};

use crate::sorting::sort;
use blocks::directory;
use blocks::header::Header;
use corners::tables::fill_tile;
use geometry::distance::max_dist_within;
use plan::measure::NONE;
use plan::region::{Region, corner_of};

// Room for the number of a tile.
const TILE_ROOM: u64 = 1024;

// The tile at place i.
pub fn tile_at(keys: &[u64], i: usize) -> usize
    requires { i < length keys.now }
    ensures { result ≡ tile_at keys.now i }
{
    (keys[i] % TILE_ROOM) as usize
}

// Far of tile t from the first corner, and below it the number of the tile.
fn key_of(f: &[u8], h: Header, o: Region, t: usize) -> u64
    requires { TileOf f.now h t × ValidRegion h (region_of h o) }
    ensures { result % tile_room ≡ t }
{
    let far = max_dist_within(h.axes, directory::box_at(f, h, t), corner_of(h, o, 0));
    let tile = t as u64;
    far * TILE_ROOM + tile
}

fn fill_keys(f: &[u8], h: Header, o: Region, keys: &mut [u64])
    requires { (directory f.now ≡ accepted h) × ValidRegion h (region_of h o) × (length keys.old ≡ max_tiles) }
    ensures { Listed h.tiles keys.new }
{
    for t in 0..h.tiles {
        keys[t] = key_of(f, h, o, t);
    }
}

// The tiles in their order.
pub fn list_tiles(f: &[u8], h: Header, o: Region, keys: &mut [u64])
    requires { (directory f.now ≡ accepted h) × ValidRegion h (region_of h o) × (length keys.old ≡ max_tiles) }
    ensures { Listed h.tiles keys.new }
{
    fill_keys(f, h, o, keys);
    sort(keys, h.tiles);
}

// Far from each corner to each tile, at its place.
pub fn fill_far(f: &[u8], h: Header, o: Region, keys: &[u64], far: &mut [u64])
    requires f_value { (directory f.now ≡ accepted h) × ValidRegion h (region_of h o) }
    requires listed { Listed h.tiles keys.now × (length keys.now ≡ max_tiles) × (length far.old ≡ far_size h) }
    ensures { FarTable f.now h (region_of h o) (tile_at keys.now) h.tiles far.new }
{
    for i in 0..h.tiles {
        fill_tile(f, h, o, tile_at(keys, i), i, far);
    }
}

// At each place the least far from the first corner of all tiles from there on.
pub fn fill_least(far: &[u64], n: usize, least: &mut [u64])
    requires { (n ≤ length far.now) × (n ≤ length least.old) }
    ensures { Least far.now n least.new }
{
    let mut low = NONE;
    for i in (0..n).rev() {
        low = low.min(far[i]);
        least[i] = low;
    }
}

// A place from which on no far from the first corner is below near. It is halved by hand: the library's partition_point
// tells of its place only in a table that is known to rise.
pub fn place_before(least: &[u64], n: usize, near: u64) -> usize
    requires { (n ≤ length least.now) × (n ≤ max_tiles) }
    ensures { NoneFrom least.now n near result }
{
    let mut low: usize = 0;
    let mut high = n;
    while low < high {
        let middle = low + (high - low) / 2;
        if near <= least[middle] {
            high = middle;
        } else {
            low = middle + 1;
        }
    }
    high
}
