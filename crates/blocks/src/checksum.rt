// The check of one block: two sums of its bytes 1 to 509, in 16-bit numbers (02.3).
ghost use Rattle.std.specs.Prelude.{◌≡◌, ◌+◌, ◌<◌, ◌≤◌, length};
ghost use Rattle.std.proofs.Math.Seq.{slice};
ghost use Rattle.blocks.specs.Layout.{block_size, check_at};
ghost use Rattle.blocks.specs.Checksum.{sums_from, sums, check_agrees};
ghost use Rattle.blocks.specs.Inner.Lanes.{max_added};

use crate::lanes::{LANES, Lanes, ROWS_SIZE, add_rows, reduced, whole};
use crate::layout::CHECK_AT;
use base::both;

#[derive(Clone, Copy, Debug, PartialEq, Eq)]
pub struct Sums {
    pub a: u16,
    pub c: u16,
}

// The first byte that is summed.
const SUMMED_AT: usize = 1;

// How often ROWS_SIZE bytes are added: as many as lie before the check.
const TIMES: usize = (CHECK_AT - SUMMED_AT) / ROWS_SIZE;

// Adds the last bytes, from `from` on: so few that the sums are reduced once.
fn add_last(t: Sums, s: &[u8], from: usize) -> Sums
    requires { (length s.now ≡ block_size) × (from ≤ check_at) × (check_at ≤ from + max_added)
        × (t.a < 255) × (t.c < 255) }
    ensures { result ≡ sums_from t.a t.c (slice from check_at s.now) }
{
    let mut a = t.a;
    let mut c = t.c;
    for i in from..CHECK_AT {
        a += u16::from(s[i]);
        c += a;
    }
    Sums {
        a: a % 255,
        c: c % 255,
    }
}

// Three times 21 rows of eight bytes by lanes, then the last five bytes one by one.
pub fn sums_of(s: &[u8]) -> Sums
    requires { length s.now ≡ block_size }
    ensures { result ≡ sums s.now }
{
    let mut l = Lanes {
        a: [0; LANES],
        c: [0; LANES],
    };
    for time in 0..TIMES {
        l = reduced(add_rows(l, s, SUMMED_AT + ROWS_SIZE * time));
    }
    add_last(whole(l), s, SUMMED_AT + ROWS_SIZE * TIMES)
}

#[tactic(auto, unfolding(crate::specs::Checksum::check_agrees))]
pub fn agrees(s: &[u8]) -> bool
    requires { length s.now ≡ block_size }
    ensures { result ≡ check_agrees s.now }
{
    let t = sums_of(s);
    let a = t.a;
    let c = t.c;
    both(u16::from(s[CHECK_AT]) == a, u16::from(s[CHECK_AT + 1]) == c)
}
