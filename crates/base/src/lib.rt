// What every layer shares: the refusal with its reasons (document 01, "Numbers given to bad input"; 02.1, 02.2, 02.4),
// and a test of two tests.
#![tactic(auto)]

ghost use Rattle.std.specs.Prelude.{◌≡◌, ◌&&◌};

mod refusal;

pub use refusal::{Reason, Refusal};

// Both tests, without a branch.
pub fn both(a: bool, b: bool) -> bool
    ensures { result ≡ (a && b) }
{
    a & b
}
