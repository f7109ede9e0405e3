// The directory: its blocks in order, and the box and the counts of a tile.
ghost use Rattle.std.specs.Prelude.{◌≡◌, ◌+◌, ◌*◌, ◌<◌, ◌≤◌, length, take};
ghost use Rattle.base.specs.Answer.{outcome_of};
ghost use Rattle.base.specs.Refusal.{accepted};
ghost use Rattle.codec.specs.Number.{limit16};
ghost use Rattle.geometry.specs.Axes.{KnownAxes};
ghost use Rattle.blocks.specs.Layout.{block_size, entries_per_block};
ghost use Rattle.blocks.specs.Block.{block_at, header_in};
ghost use Rattle.blocks.specs.Directory.{directory_blocks, entries_due, tiles_due, directory_padding};
ghost use Rattle.blocks.specs.Directory.{directory_block, directory_block_at, length_due, length_fits, directory_rest};
ghost use Rattle.blocks.specs.Directory.{directory, box_at, count_at, muted_at};

use crate::header::Header;
use crate::{block, entry, layout};
use base::{Reason, Refusal, both};
use codec::reading::{u16_at, zeros};

// The number of directory blocks.
#[tactic(auto, unfolding(crate::specs::Directory::directory_blocks))]
pub fn directory_blocks(h: Header) -> usize
    requires { KnownAxes h.axes × (h.tiles < limit16) }
    ensures { (result ≡ directory_blocks h) × (result ≤ h.tiles) }
{
    let n = layout::entries_per_block(h.axes);
    entry::entry_block(h.axes, h.tiles + (n - 1))
}

// The number of entries due in the directory block at position p.
#[tactic(auto, unfolding(crate::specs::Directory::entries_due))]
pub fn entries_due(h: Header, p: usize) -> usize
    requires { KnownAxes h.axes × (p < limit16) }
    ensures { (result ≡ entries_due h p) × (result ≤ entries_per_block h.axes) }
{
    let n = layout::entries_per_block(h.axes);
    let tiles = h.tiles;
    let first = n * p;
    if tiles < first {
        return 0;
    }
    let left = tiles - first;
    if left < n { left } else { n }
}

// Test 6: T against block 0's and against the number of the file's blocks.
#[tactic(auto, unfolding(crate::specs::Directory::tiles_due))]
fn tiles_due(h: Header, first: Header, blocks: usize) -> bool
    requires { KnownAxes h.axes × (h.tiles < limit16) }
    ensures { result ≡ tiles_due h first blocks }
{
    let tiles = h.tiles;
    both(
        both(1 <= tiles, tiles <= layout::MAX_TILES),
        both(tiles == first.tiles, directory_blocks(h) + tiles == blocks),
    )
}

// Test 8, of a block with n entries.
#[tactic(auto, unfolding(crate::specs::Directory::directory_padding))]
fn directory_padding(axes: usize, s: &[u8], n: usize) -> bool
    requires { KnownAxes axes × (n ≤ entries_per_block axes) × (length s.now ≡ block_size) }
    ensures { result ≡ directory_padding axes s.now n }
{
    let used = entry::entry_offset(axes, n);
    both(
        zeros(s, layout::RESERVED_AT, layout::PAYLOAD_AT),
        zeros(s, used, layout::CHECK_AT),
    )
}

// Test 1, once block 0 has settled the axes.
#[tactic(auto, unfolding(crate::specs::Directory::length_fits))]
fn length_fits(axes: usize, n: usize) -> bool
    requires { KnownAxes axes }
    ensures { result ≡ length_fits axes n }
{
    n <= layout::max_length(axes)
}

// One directory block of a file of n bytes: the first test that fails decides.
#[tactic(auto, unfolding(crate::specs::Directory::directory_block))]
fn directory_block(s: &[u8], p: usize, first: Header, n: usize) -> Result<Header, Refusal>
    requires { (length s.now ≡ block_size) × (p < limit16) × KnownAxes first.axes }
    ensures { outcome_of result ≡ directory_block s.now p first n }
{
    if let Err(reason) = block::start_tests(s, layout::directory_kind(first.axes)) {
        return Err(reason.at(p));
    }
    if !length_fits(first.axes, n) {
        return Err(Reason::Length.at(p));
    }
    if u16_at(s, layout::POSITION_AT) != p {
        return Err(Reason::Position.at(p));
    }
    let h = block::header_in(s);
    if !tiles_due(h, first, n / layout::BLOCK_SIZE) {
        return Err(Reason::Tiles.at(p));
    }
    let due = entries_due(h, p);
    if u16_at(s, layout::ENTRIES_AT) != due {
        return Err(Reason::Entries.at(p));
    }
    if !directory_padding(first.axes, s, due) {
        return Err(Reason::Padding.at(p));
    }
    if !entry::entries_valid(first.axes, s, due) {
        return Err(Reason::Box.at(p));
    }
    Ok(h)
}

// The directory block at position p of a file whose block 0 has the header `first`.
#[tactic(auto, unfolding(crate::specs::Directory::directory_block_at))]
fn directory_block_at(f: &[u8], p: usize, first: Header) -> Result<Header, Refusal>
    requires { (block_size * p + block_size ≤ length f.now) × (p < limit16) × (first ≡ header_in (block_at f.now 0)) }
    ensures { outcome_of result ≡ directory_block_at f.now p }
{
    directory_block(block::block_at(f, p), p, first, f.len())
}

// The directory blocks after block 0.
fn directory_rest(f: &[u8], h: Header) -> Result<Header, Refusal>
    requires { (block_size * directory_blocks h ≤ length f.now) × (h.tiles < limit16) × KnownAxes h.axes
        × (h ≡ header_in (block_at f.now 0)) }
    ensures { outcome_of result ≡ directory_rest f.now h }
{
    let d = directory_blocks(h);
    for p in 1..d {
        directory_block_at(f, p, h)?;
    }
    Ok(h)
}

// Test 1, before all else.
#[tactic(auto, unfolding(crate::specs::Directory::length_due))]
fn length_due(n: usize) -> bool
    ensures { result ≡ length_due n }
{
    both(
        both(1 <= n, n % layout::BLOCK_SIZE == 0),
        n <= layout::max_length(layout::HEIGHT),
    )
}

// Reads the directory of a file: its header, or the first refusal.
#[tactic(auto, unfolding(crate::specs::Directory::directory))]
pub fn read_directory(f: &[u8]) -> Result<Header, Refusal>
    ensures { outcome_of result ≡ directory f.now }
{
    if !length_due(f.len()) {
        return Err(Reason::Length.at(0));
    }
    let h = block::header_in(block::block_at(f, 0));
    directory_block_at(f, 0, h)?;
    directory_rest(f, h)
}

// The box of tile t of a file whose directory is accepted: its first axes count.
pub fn box_at(f: &[u8], h: Header, t: usize) -> [[i32; 2]; 3]
    requires { (directory f.now ≡ accepted h) × (t < h.tiles) }
    ensures { take h.axes result ≡ box_at f.now h t }
{
    let p = entry::entry_block(h.axes, t);
    let i = entry::entry_index(h.axes, t);
    entry::entry_box(h.axes, block::block_at(f, p), i)
}

// The number of sites of tile t of a file whose directory is accepted.
pub fn count_at(f: &[u8], h: Header, t: usize) -> usize
    requires { (directory f.now ≡ accepted h) × (t < h.tiles) }
    ensures { result ≡ count_at f.now h t }
{
    let p = entry::entry_block(h.axes, t);
    let i = entry::entry_index(h.axes, t);
    entry::entry_count(h.axes, block::block_at(f, p), i)
}

// The number of muted sites of tile t of a file whose directory is accepted.
pub fn muted_at(f: &[u8], h: Header, t: usize) -> usize
    requires { (directory f.now ≡ accepted h) × (t < h.tiles) }
    ensures { result ≡ muted_at f.now h t }
{
    let p = entry::entry_block(h.axes, t);
    let i = entry::entry_index(h.axes, t);
    entry::entry_muted(h.axes, block::block_at(f, p), i)
}
