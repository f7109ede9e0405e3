// Far of tiles in a table, near of a tile.
ghost use Rattle.std.specs.Prelude.{◌≡◌, ◌<◌, length};
ghost use Rattle.blocks.specs.Layout.{max_tiles};
ghost use Rattle.plan.specs.Inner.Seam.{TileOf, region_of, ValidRegion};
ghost use Rattle.corners.specs.Inner.Tables.{far_size, FarRow, NearTable};

use blocks::directory;
use blocks::header::Header;
use blocks::layout::MAX_TILES;
use geometry::distance::max_dist_within;
use plan::measure;
use plan::region::{MAX_CORNERS, Region, corner_of, corners};

// Far from each corner to tile t, at a place of the table. The box is read once: compiled code then squares each axis
// once for all corners. Inlined, since a call for each tile is slower.
#[inline(always)]
pub fn fill_tile(f: &[u8], h: Header, o: Region, t: usize, at: usize, far: &mut [u64])
    requires { TileOf f.now h t × ValidRegion h (region_of h o) × (at < max_tiles) × (length far.old ≡ far_size h) }
    ensures { FarRow f.now h (region_of h o) t at far.old far.new }
{
    let b = directory::box_at(f, h, t);
    for c in 0..corners(h) {
        far[c * MAX_TILES + at] = max_dist_within(h.axes, b, corner_of(h, o, c));
    }
}

// Near from each corner to tile t. Inlined for the same reason.
#[inline(always)]
pub fn near_from(f: &[u8], h: Header, o: Region, t: usize) -> [u64; MAX_CORNERS]
    requires { TileOf f.now h t × ValidRegion h (region_of h o) }
    ensures { NearTable f.now h (region_of h o) t result }
{
    let mut near = [0u64; MAX_CORNERS];
    for c in 0..corners(h) {
        near[c] = measure::near(f, h, t, corner_of(h, o, c));
    }
    near
}
