// What both kinds of block have in common: the head, and the check over the bytes before it.
ghost use Rattle.std.specs.Prelude.{◌≡◌, ◌+◌, ◌<◌, ◌≤◌, length, take, drop};
ghost use Rattle.base.specs.Over.{over};
ghost use Rattle.blocks.specs.Layout.{block_size, reserved_at, check_at};
ghost use Rattle.encode.specs.Encode.{head_bytes, check_bytes};

use blocks::checksum::sums_of;
use blocks::layout;
use codec::writing::{put_u8, put_u16};

// Bytes 0 to 7 of the block at `at`.
#[tactic(auto, using(crate::proofs::EncodeLaws::head_row))]
pub fn put_head(d: &mut [u8], at: usize, kind: u8, p: usize, n: usize, t: usize)
    requires { at + reserved_at ≤ length d.old }
    ensures { d.new ≡ over d.old at (head_bytes kind p n t) }
{
    put_u8(d, at, layout::SYNC_BYTE);
    put_u8(d, at + layout::KIND_AT, kind);
    put_u16(d, at + layout::POSITION_AT, p);
    put_u16(d, at + layout::ENTRIES_AT, n);
    put_u16(d, at + layout::TILES_AT, t);
}

// Bytes 510 and 511 of the block at `at`, from bytes 1 to 509.
#[tactic(auto, using(crate::proofs::EncodeLaws::sums_byte))]
pub fn put_checksum(d: &mut [u8], at: usize)
    requires { at + block_size ≤ length d.old }
    ensures { d.new
        ≡ over d.old (at + check_at) (check_bytes (take block_size (drop at d.old))) }
{
    let end = at + layout::BLOCK_SIZE;
    let s = sums_of(&d[at..end]);
    put_u8(d, at + layout::CHECK_AT, s.a as u8);
    put_u8(d, at + layout::CHECK_AT + 1, s.c as u8);
}
