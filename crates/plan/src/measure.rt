// Tiles measured from a stop.
ghost use Rattle.std.specs.Prelude.{◌≡◌};
ghost use Rattle.search.specs.Plan.{near};
ghost use Rattle.plan.specs.FilePlan.{entries};
ghost use Rattle.plan.specs.Inner.Seam.{TileOf, stop_of, ValidStop};

use crate::region::Stop;
use blocks::directory;
use blocks::header::Header;
use geometry::distance::min_dist_within;

// Above every distance. A number and no Option: it stands in tables of keys, as queue/src/keys.rt says.
pub const NONE: u64 = u64::MAX;

// Near distance of tile t.
pub fn near(f: &[u8], h: Header, t: usize, p: Stop) -> u64
    requires { TileOf f.now h t × ValidStop h (stop_of h p) }
    ensures { result ≡ near (entries f.now h) (stop_of h p) t }
{
    min_dist_within(h.axes, directory::box_at(f, h, t), p)
}
