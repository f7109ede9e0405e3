// Numbers out of bytes, and the test for zeros.
ghost use Rattle.std.specs.Prelude.{◌≡◌, ◌+◌, ◌<◌, ◌≤◌, length};
ghost use Rattle.codec.specs.Number.{limit16, u16_at, u32_at, i32_at};
ghost use Rattle.codec.specs.Zeros.{zeros};

use base::both;

// 16 bits at `at`, as the count or the position that they stand for.
#[tactic(auto, unfolding(crate::specs::Number::u16_at))]
pub fn u16_at(s: &[u8], at: usize) -> usize
    requires { at + 2 ≤ length s.now }
    ensures { (result ≡ u16_at s.now at) × (result < limit16) }
{
    u16::from_le_bytes([s[at], s[at + 1]]) as usize
}

// 32 bits at `at`.
#[tactic(auto, unfolding(crate::specs::Number::u32_at, crate::specs::Number::u16_at))]
pub fn u32_at(s: &[u8], at: usize) -> u32
    requires { at + 4 ≤ length s.now }
    ensures { result ≡ u32_at s.now at }
{
    u32::from_le_bytes([s[at], s[at + 1], s[at + 2], s[at + 3]])
}

// Signed 32 bits at `at`.
#[tactic(auto, using(crate::proofs::Number::signed_cast), unfolding(crate::specs::Number::i32_at))]
pub fn i32_at(s: &[u8], at: usize) -> i32
    requires { at + 4 ≤ length s.now }
    ensures { result ≡ i32_at s.now at }
{
    u32_at(s, at).cast_signed()
}

// Whether bytes `from` to `to` - 1 are all zero. Every byte is looked at, without a branch: compiled code then takes
// many at once.
#[tactic(auto, using(crate::proofs::Zeros::zeros_none, crate::proofs::Zeros::zeros_next))]
pub fn zeros(s: &[u8], from: usize, to: usize) -> bool
    requires { to ≤ length s.now }
    ensures { result ≡ zeros s.now from to }
{
    let mut all = true;
    for i in from..to {
        all = both(all, s[i] == 0);
    }
    all
}
