// Numbers and zeros into bytes. Each call replaces a run of bytes, and leaves the others. One for each width: their
// bytes are defined each for itself.
ghost use Rattle.std.specs.Prelude.{◌≡◌, [], ◌∷◌, ◌+◌, ◌-◌, ◌<◌, ◌≤◌, length, replicate};
ghost use Rattle.base.specs.Over.{over};
ghost use Rattle.codec.specs.Bytes.{bytes16, bytes32, bytes_signed};

#[tactic(auto, unfolding(base::specs::Over::over))]
pub fn put_u8(d: &mut [u8], at: usize, b: u8)
    requires { at < length d.old }
    ensures { d.new ≡ over d.old at (b ∷ []) }
{
    d[at] = b;
}

// The low 16 bits of n.
#[tactic(auto, using(crate::proofs::Written::part_over, crate::proofs::Written::le_bytes_16))]
pub fn put_u16(d: &mut [u8], at: usize, n: usize)
    requires { at + 2 ≤ length d.old }
    ensures { d.new ≡ over d.old at (bytes16 n) }
{
    d[at..at + 2].copy_from_slice(&((n % 0x1_0000) as u16).to_le_bytes());
}

#[tactic(auto, using(crate::proofs::Written::part_over, crate::proofs::Written::le_bytes_32))]
pub fn put_u32(d: &mut [u8], at: usize, n: u32)
    requires { at + 4 ≤ length d.old }
    ensures { d.new ≡ over d.old at (bytes32 n) }
{
    d[at..at + 4].copy_from_slice(&n.to_le_bytes());
}

#[tactic(auto, using(crate::proofs::Number::bits_cast), unfolding(crate::specs::Bytes::bytes_signed))]
pub fn put_i32(d: &mut [u8], at: usize, x: i32)
    requires { at + 4 ≤ length d.old }
    ensures { d.new ≡ over d.old at (bytes_signed x) }
{
    put_u32(d, at, x.cast_unsigned());
}

// Zeros from `at` up to `to` - 1.
#[tactic(auto, using(crate::proofs::Written::part_over))]
pub fn put_zeros(d: &mut [u8], at: usize, to: usize)
    requires { (at ≤ to) × (to ≤ length d.old) }
    ensures { d.new ≡ over d.old at (replicate (to - at) 0) }
{
    d[at..to].fill(0);
}
