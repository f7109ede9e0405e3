// The two sums of a block by eight lanes, in 16-bit numbers (02.3): byte j of each row of eight goes into lane j, which
// sums up its bytes as the paper does those of a block. No lane waits for another: compiled code adds to all at once.
ghost use Rattle.std.specs.Prelude.{◌≡◌, ◌+◌, ◌%◌, ◌<◌, ◌≤◌, length};
ghost use Rattle.blocks.specs.Layout.{block_size, check_at};
ghost use Rattle.blocks.specs.Inner.Lanes.{lanes, rows_size, whole_a, whole_c, sums_on};
ghost use Rattle.blocks.specs.Inner.Lanes.{total_of, moment_of, Small, Reduced, RowFits, RowAdded, Remainders};

use crate::checksum::Sums;

pub const LANES: usize = 8;

// To sums below 255 any 21 bytes can be added in 16 bits (`within_room`), and not any 22.
const MAX_ADDED: usize = 21;

// The bytes of MAX_ADDED rows.
pub const ROWS_SIZE: usize = LANES * MAX_ADDED;

#[derive(Clone, Copy, Debug, PartialEq, Eq)]
pub struct Lanes {
    pub a: [u16; LANES],
    pub c: [u16; LANES],
}

// Adds the row at i, a byte to each lane.
fn add_row(l: Lanes, s: &[u8], i: usize) -> Lanes
    requires { RowFits l × (i + lanes ≤ length s.now) }
    ensures { RowAdded l s.now i result }
{
    let mut a = l.a;
    let mut c = l.c;
    for j in 0..LANES {
        a[j] += u16::from(s[i + j]);
        c[j] += a[j];
    }
    Lanes { a, c }
}

// Adds MAX_ADDED rows from i on: no more fit 16 bits.
pub fn add_rows(l: Lanes, s: &[u8], i: usize) -> Lanes
    requires { (length s.now ≡ block_size) × (i + rows_size ≤ check_at) × Reduced l }
    ensures { sums_on result s.now (i + rows_size) ≡ sums_on l s.now i }
{
    let mut l = l;
    for row in 0..MAX_ADDED {
        l = add_row(l, s, i + LANES * row);
    }
    l
}

pub fn reduced(l: Lanes) -> Lanes
    ensures { Remainders l result }
{
    let mut a = l.a;
    let mut c = l.c;
    for j in 0..LANES {
        a[j] = a[j] % 255;
        c[j] = c[j] % 255;
    }
    Lanes { a, c }
}

// The sum of the eight, at most 8 × 255.
fn total(x: [u16; LANES]) -> u16
    requires { Small x }
    ensures { (result ≡ total_of x) × (result ≤ 2040) }
{
    let mut sum = 0;
    for v in x {
        sum += v;
    }
    sum
}

// The sum with each as often as its place says, the first not at all, the last seven times: at most 8 × 7 × 255.
fn moment(x: [u16; LANES]) -> u16
    requires { Small x }
    ensures { (result ≡ moment_of x) × (result ≤ 14280) }
{
    let mut sum = 0;
    for j in 0..LANES {
        sum += j as u16 * x[j];
    }
    sum
}

// The block's sums of all that is in the lanes. 14,280 = 8 × 7 × 255: no moment is larger, and it changes no remainder.
// Other ways to put the lanes together were tried, and lost the registers: docs/DECISIONS.md.
pub fn whole(l: Lanes) -> Sums
    requires { Reduced l }
    ensures { (result.a ≡ whole_a l % 255) × (result.c ≡ whole_c l % 255) }
{
    let x = l.a;
    let y = l.c;
    let a = total(x);
    let c = 8 * total(y) + (14_280 - moment(x));
    Sums {
        a: a % 255,
        c: c % 255,
    }
}
