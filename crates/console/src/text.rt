// Words and numbers into a slice of bytes. Each call gives the index after what it wrote.
// A number is printed by the library, which writes the digits of `decimal`.
ghost use Rattle.std.specs.Prelude.{◌≡◌, ◌+◌, ◌≤◌, length};
ghost use Rattle.console.specs.Text.{decimal, labelled, Wrote};

use itoa::Buffer;

#[tactic(auto, using(crate::proofs::TextLaws::decimal_printed))]
fn put_decimal(out: &mut [u8], at: usize, n: u64) -> usize
    requires { at + length (decimal n) ≤ length out.old }
    ensures { Wrote out.old at (decimal n) out.new result }
{
    put_text(out, at, Buffer::new().format(n).as_bytes())
}

pub fn put_text(out: &mut [u8], at: usize, text: &[u8]) -> usize
    requires { at + length text.now ≤ length out.old }
    ensures { Wrote out.old at text.now out.new result }
{
    let end = at + text.len();
    out[at..end].copy_from_slice(text);
    end
}

pub fn put_labelled(out: &mut [u8], at: usize, word: &[u8], n: u64) -> usize
    requires { at + length word.now + length (decimal n) ≤ length out.old }
    ensures { Wrote out.old at (labelled word.now n) out.new result }
{
    let after = put_text(out, at, word);
    put_decimal(out, after, n)
}
