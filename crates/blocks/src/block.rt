// The blocks of a file: where they stand, and the tests that both kinds have in common.
ghost use Rattle.std.specs.Prelude.{ℕ, ◌≡◌, ◌+◌, ◌*◌, ◌<◌, ◌≤◌, length};
ghost use Rattle.base.specs.Answer.{tested_at};
ghost use Rattle.codec.specs.Number.{limit16};
ghost use Rattle.geometry.specs.Axes.{KnownAxes};
ghost use Rattle.blocks.specs.Layout.{block_size};
ghost use Rattle.blocks.specs.Block.{block_at, axes_in, header_in, kind_due, block_start};

use crate::header::Header;
use crate::{checksum, layout};
use base::Reason;
use codec::reading::u16_at;

// The block at position p, in place.
pub fn block_at(f: &[u8], p: usize) -> &[u8]
    requires { block_size * p + block_size ≤ length f.now }
    ensures { (result.now ≡ block_at f.now p) × (length result.now ≡ block_size) }
{
    let a = layout::BLOCK_SIZE * p;
    let e = a + layout::BLOCK_SIZE;
    &f[a..e]
}

// The axes that a directory block has: those of its kind.
#[tactic(auto, unfolding(crate::specs::Block::axes_in))]
fn axes_in(s: &[u8]) -> usize
    requires { length s.now ≡ block_size }
    ensures { (result ≡ axes_in s.now) × KnownAxes result }
{
    if s[layout::KIND_AT] == layout::directory_kind(layout::HEIGHT) {
        layout::HEIGHT
    } else {
        layout::PLAN
    }
}

// The header that a directory block has.
pub fn header_in(s: &[u8]) -> Header
    requires { length s.now ≡ block_size }
    ensures { (result ≡ header_in s.now) × (result.tiles < limit16) × KnownAxes result.axes }
{
    let tiles = u16_at(s, layout::TILES_AT);
    let axes = axes_in(s);
    Header { tiles, axes }
}

// Whether the block is of the kind that is due.
#[tactic(auto, unfolding(crate::specs::Block::kind_due))]
fn kind_due(s: &[u8], kind: u8) -> bool
    requires { length s.now ≡ block_size }
    ensures { result ≡ kind_due kind s.now }
{
    s[layout::KIND_AT] == kind
}

// Tests 2 to 4 of a block: the reason is that of the first one failed.
#[tactic(auto, unfolding(crate::specs::Block::block_start))]
pub fn start_tests(s: &[u8], kind: u8) -> Result<(), Reason>
    requires { length s.now ≡ block_size }
    ensures { (p : ℕ) → tested_at p result ≡ block_start kind s.now p }
{
    if s[0] != layout::SYNC_BYTE {
        return Err(Reason::Sync);
    }
    if !checksum::agrees(s) {
        return Err(Reason::Check);
    }
    if !kind_due(s, kind) {
        return Err(Reason::Kind);
    }
    Ok(())
}
