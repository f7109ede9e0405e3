// The entries of a directory block.
ghost use Rattle.std.specs.Prelude.{[], ◌∷◌, ◌≡◌, ◌+◌, ◌*◌, ◌/◌, ◌%◌, ◌<◌, ◌≤◌, length, take};
ghost use Rattle.base.specs.Every.{every};
ghost use Rattle.geometry.specs.Axes.{KnownAxes};
ghost use Rattle.blocks.specs.Layout.{block_size, payload_at, entry_size, entries_per_block};
ghost use Rattle.blocks.specs.Inner.Reciprocal.{entry_reciprocal};
ghost use Rattle.blocks.specs.Directory.{entry_offset, entry_number, entry_box, entry_count, entry_muted, entry_valid};

use crate::layout;
use base::both;
use codec::reading::{i32_at, u16_at};
use geometry::limits::valid_box;

// 4,194,304 divided by the entries of a block, rounded up.
fn reciprocal(axes: usize) -> usize
    requires { KnownAxes axes }
    ensures { result ≡ entry_reciprocal axes }
{
    if axes == layout::HEIGHT {
        246_724
    } else {
        174_763
    }
}

// Where the entry of tile t stands: the position of its directory block, and its index there. By a product: compiled
// code would else divide by a number that it does not know.
pub fn entry_block(axes: usize, t: usize) -> usize
    requires { KnownAxes axes × (t < 131072) }
    ensures { result ≡ t / entries_per_block axes }
{
    t * reciprocal(axes) / 4_194_304
}

pub fn entry_index(axes: usize, t: usize) -> usize
    requires { KnownAxes axes × (t < 131072) }
    ensures { result ≡ t % entries_per_block axes }
{
    t - layout::entries_per_block(axes) * entry_block(axes, t)
}

#[tactic(auto, unfolding(crate::specs::Directory::entry_offset))]
pub fn entry_offset(axes: usize, i: usize) -> usize
    requires { KnownAxes axes × (i ≤ entries_per_block axes) }
    ensures { (result ≡ entry_offset axes i) × (result ≡ payload_at + entry_size axes * i) }
{
    layout::PAYLOAD_AT + layout::entry_size(axes) * i
}

// The low and the high end of entry i's box on one axis.
fn entry_axis(axes: usize, s: &[u8], i: usize, axis: usize) -> [i32; 2]
    requires { KnownAxes axes × (i < entries_per_block axes) × (axis < axes) × (length s.now ≡ block_size) }
    ensures { result ≡ entry_number axes s.now i axis ∷ entry_number axes s.now i (axes + axis) ∷ [] }
{
    let at = entry_offset(axes, i);
    let low = i32_at(s, at + layout::NUMBER_SIZE * axis);
    let high = i32_at(s, at + layout::NUMBER_SIZE * (axes + axis));
    [low, high]
}

// The box of entry i: its first axes count.
pub fn entry_box(axes: usize, s: &[u8], i: usize) -> [[i32; 2]; 3]
    requires { KnownAxes axes × (i < entries_per_block axes) × (length s.now ≡ block_size) }
    ensures { take axes result ≡ entry_box axes s.now i }
{
    if axes == layout::HEIGHT {
        let x = entry_axis(layout::HEIGHT, s, i, 0);
        let y = entry_axis(layout::HEIGHT, s, i, 1);
        let z = entry_axis(layout::HEIGHT, s, i, 2);
        [x, y, z]
    } else {
        let x = entry_axis(layout::PLAN, s, i, 0);
        let y = entry_axis(layout::PLAN, s, i, 1);
        [x, y, [0, 0]]
    }
}

#[tactic(auto, unfolding(crate::specs::Directory::entry_count))]
pub fn entry_count(axes: usize, s: &[u8], i: usize) -> usize
    requires { KnownAxes axes × (i < entries_per_block axes) × (length s.now ≡ block_size) }
    ensures { result ≡ entry_count axes s.now i }
{
    u16_at(s, entry_offset(axes, i) + layout::count_offset(axes))
}

#[tactic(auto, unfolding(crate::specs::Directory::entry_muted))]
pub fn entry_muted(axes: usize, s: &[u8], i: usize) -> usize
    requires { KnownAxes axes × (i < entries_per_block axes) × (length s.now ≡ block_size) }
    ensures { result ≡ entry_muted axes s.now i }
{
    u16_at(s, entry_offset(axes, i) + layout::muted_offset(axes))
}

// Test 9 of one entry.
#[tactic(auto, unfolding(crate::specs::Directory::entry_valid))]
fn entry_valid(axes: usize, s: &[u8], i: usize) -> bool
    requires { KnownAxes axes × (i < entries_per_block axes) × (length s.now ≡ block_size) }
    ensures { result ≡ entry_valid axes s.now i }
{
    let count = entry_count(axes, s, i);
    both(
        both(
            valid_box(axes, entry_box(axes, s, i)),
            count <= layout::max_sites(axes),
        ),
        entry_muted(axes, s, i) <= count,
    )
}

// The same: compiled code has it twice, each with the number of axes as a constant.
fn entry_passes(axes: usize, s: &[u8], i: usize) -> bool
    requires { KnownAxes axes × (i < entries_per_block axes) × (length s.now ≡ block_size) }
    ensures { result ≡ entry_valid axes s.now i }
{
    if axes == layout::HEIGHT {
        entry_valid(layout::HEIGHT, s, i)
    } else {
        entry_valid(layout::PLAN, s, i)
    }
}

pub fn entries_valid(axes: usize, s: &[u8], n: usize) -> bool
    requires { KnownAxes axes × (n ≤ entries_per_block axes) × (length s.now ≡ block_size) }
    ensures { result ≡ every (entry_valid axes s.now) n }
{
    (0..n).all(|i| entry_passes(axes, s, i))
}
