// Stops, and regions: boxes to stand in. Each has room for three axes, of which those of the town count.
ghost use Rattle.std.specs.Prelude.{[], ◌≡◌, ◌<◌, length, get_or};
ghost use Rattle.geometry.specs.Axes.{KnownAxes};
ghost use Rattle.plan.specs.Inner.Seam.{stop_of, region_of, ValidStop, ValidRegion, corner_of, corner_count};

use blocks::header::Header;
use blocks::layout::HEIGHT;
use geometry::corner;

pub type Stop = [i32; 3];

// A stop to fill an array with.
pub const ORIGIN: Stop = [0; 3];

pub type Region = [[i32; 2]; 3];

// How many corners a region has at most, and in a town.
pub const MAX_CORNERS: usize = 8;

pub fn corners(h: Header) -> usize
    requires { KnownAxes h.axes }
    ensures { result ≡ corner_count h }
{
    if h.axes == HEIGHT { 8 } else { 4 }
}

// Stop i, read coordinate by coordinate: compiled code then holds each in a register of its own.
pub fn stop_in(stops: &[Stop], i: usize) -> Stop
    requires { (i < length stops.now) × (length (get_or stops.now i []) ≡ 3) }
    ensures { result ≡ get_or stops.now i [] }
{
    [stops[i][0], stops[i][1], stops[i][2]]
}

// Corner c of a region.
pub fn corner_of(h: Header, o: Region, c: usize) -> Stop
    requires { KnownAxes h.axes × ValidRegion h (region_of h o) }
    ensures { (stop_of h result ≡ corner_of (region_of h o) c) × ValidStop h (stop_of h result) }
{
    corner::corner(o, c)
}
