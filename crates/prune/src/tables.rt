// The table of far: of each tile from each corner of the region, tile t at place t.
ghost use Rattle.std.specs.Prelude.{◌≡◌, length};
ghost use Rattle.base.specs.Refusal.{accepted};
ghost use Rattle.blocks.specs.Directory.{directory};
ghost use Rattle.corners.specs.Inner.Tables.{far_size, FarTable};
ghost use Rattle.plan.specs.Inner.Seam.{region_of, ValidRegion};

use blocks::header::Header;
use corners::tables::fill_tile;
use plan::region::Region;

pub fn fill_corners(f: &[u8], h: Header, o: Region, far: &mut [u64])
    requires { (directory f.now ≡ accepted h) × ValidRegion h (region_of h o) × (length far.old ≡ far_size h) }
    ensures { FarTable f.now h (region_of h o) (λ t. t) h.tiles far.new }
{
    for t in 0..h.tiles {
        fill_tile(f, h, o, t, t, far);
    }
}
