// The calls of the cab's sound host: the block check, and the margin over two axes and over three.
ghost use Rattle.std.specs.Prelude.{◌≡◌};
ghost use Rattle.host.specs.Cab.{block_check, box_from, box_from3, margin_number};

use base::Reason;
use blocks::{checksum, layout};
use geometry::margin::{margin_within, valid_boxes};
use geometry::padding::pad_box;

// What `nearby_margin` and `nearby_margin3` give for a bad box: no margin is so large, and C gets a single number.
pub const BAD_BOX: i64 = 9_000_000_000_000_000_000;

// 0 where the slice is a block with the right first byte and check; else 1, 2 or 3 of the table: C gets a number.
#[unsafe(no_mangle)]
pub extern "C" fn nearby_block_check(block: &[u8]) -> u32
    ensures { result ≡ block_check block.now }
{
    if block.len() != layout::BLOCK_SIZE {
        return Reason::Length.number();
    }
    if block[0] != layout::SYNC_BYTE {
        return Reason::Sync.number();
    }
    if !checksum::agrees(block) {
        return Reason::Check.number();
    }
    0
}

// A box from its ends: 0 is a low end, 1 a high end.
pub fn box_of(x0: i32, x1: i32, y0: i32, y1: i32) -> [[i32; 2]; 2]
    ensures { result ≡ box_from x0 x1 y0 y1 }
{
    [[x0, x1], [y0, y1]]
}

pub fn box3_of(x0: i32, x1: i32, y0: i32, y1: i32, z0: i32, z1: i32) -> [[i32; 2]; 3]
    ensures { result ≡ box_from3 x0 x1 y0 y1 z0 z1 }
{
    [[x0, x1], [y0, y1], [z0, z1]]
}

// The margin of three boxes, each low x, high x, low y, high y; `BAD_BOX` if a box is bad.
#[unsafe(no_mangle)]
pub extern "C" fn nearby_margin(
    ox0: i32,
    ox1: i32,
    oy0: i32,
    oy1: i32,
    ex0: i32,
    ex1: i32,
    ey0: i32,
    ey1: i32,
    bx0: i32,
    bx1: i32,
    by0: i32,
    by1: i32,
) -> i64
    ensures { result ≡ margin_number (box_from ox0 ox1 oy0 oy1) (box_from ex0 ex1 ey0 ey1) (box_from bx0 bx1 by0 by1) }
{
    let o = pad_box(box_of(ox0, ox1, oy0, oy1));
    let e = pad_box(box_of(ex0, ex1, ey0, ey1));
    let b = pad_box(box_of(bx0, bx1, by0, by1));
    if !valid_boxes(layout::PLAN, o, e, b) {
        return BAD_BOX;
    }
    margin_within(layout::PLAN, o, e, b)
}

// The same with low z and high z after them: C has no generic calls.
#[unsafe(no_mangle)]
pub extern "C" fn nearby_margin3(
    ox0: i32,
    ox1: i32,
    oy0: i32,
    oy1: i32,
    oz0: i32,
    oz1: i32,
    ex0: i32,
    ex1: i32,
    ey0: i32,
    ey1: i32,
    ez0: i32,
    ez1: i32,
    bx0: i32,
    bx1: i32,
    by0: i32,
    by1: i32,
    bz0: i32,
    bz1: i32,
) -> i64
    ensures { result ≡ margin_number (box_from3 ox0 ox1 oy0 oy1 oz0 oz1) (box_from3 ex0 ex1 ey0 ey1 ez0 ez1)
        (box_from3 bx0 bx1 by0 by1 bz0 bz1) }
{
    let o = box3_of(ox0, ox1, oy0, oy1, oz0, oz1);
    let e = box3_of(ex0, ex1, ey0, ey1, ez0, ez1);
    let b = box3_of(bx0, bx1, by0, by1, bz0, bz1);
    if !valid_boxes(layout::HEIGHT, o, e, b) {
        return BAD_BOX;
    }
    margin_within(layout::HEIGHT, o, e, b)
}
