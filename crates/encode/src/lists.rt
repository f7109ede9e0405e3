// The numbers in a town's lists, the header of its file, and how many of its sites are muted.
ghost use Rattle.std.specs.Prelude.{◌≡◌, ◌+◌, ◌≤◌, length};
ghost use Rattle.geometry.specs.Axes.{KnownAxes};
ghost use Rattle.encode.specs.Supply.{header_of, numbers_per_box, muted_from};

use blocks::header::Header;
use tiles::tile::MUTED_CUE;

// How many numbers a box has.
pub fn numbers_per_box(axes: usize) -> usize
    requires { KnownAxes axes }
    ensures { result ≡ numbers_per_box axes }
{
    2 * axes
}

pub fn header_of(axes: usize, counts: &[u32]) -> Header
    ensures { result ≡ header_of axes counts.now }
{
    Header {
        tiles: counts.len(),
        axes,
    }
}

// How many of n sites from site `first` on are muted.
pub fn muted_from(cues: &[u32], first: usize, n: usize) -> usize
    requires { first + n ≤ length cues.now }
    ensures { (result ≡ muted_from cues.now first n) × (result ≤ n) }
{
    let mut muted = 0;
    for slot in 0..n {
        muted += (cues[first + slot] == MUTED_CUE) as usize;
    }
    muted
}
