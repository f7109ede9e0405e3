// Why bad input is refused, and of which block.
ghost use Rattle.std.specs.Prelude.{◌≡◌, ◌<◌, ◌^◌, Some};
ghost use Rattle.base.specs.Answer.{number_of, refusal_text};

use std::error::Error;
use std::fmt;

// A row of the table: each has its number.
#[derive(Clone, Copy, Debug, PartialEq, Eq)]
pub enum Reason {
    Length = 1,
    Sync = 2,
    Check = 3,
    Kind = 4,
    Position = 5,
    Tiles = 6,
    Entries = 7,
    Padding = 8,
    Box = 9,
    Stray = 10,
    K = 11,
    Stops = 12,
    Spot = 13,
    Short = 14,
    Supply = 15,
    Muted = 16,
    Axes = 17,
    Reach = 18,
}

impl Reason {
    pub fn number(self) -> u32
        ensures { result ≡ number_of self }
    {
        self as u32
    }

    // The refusal of the block at position p.
    pub fn at(self, p: usize) -> Refusal
        requires { p < 2 ^ 32 }
        ensures reason { result.reason ≡ self }
        ensures block { result.block ≡ p }
    {
        Refusal {
            reason: self,
            block: p as u32,
        }
    }
}

#[derive(Clone, Copy, Debug, PartialEq, Eq)]
pub struct Refusal {
    pub reason: Reason,
    pub block: u32,
}

// Of a call as a whole, whose refusals are those of block 0.
impl From<Reason> for Refusal {
    ghost from_gives = { λ reason r. (r.reason ≡ reason) × (r.block ≡ 0) };

    fn from(reason: Reason) -> Refusal {
        Refusal { reason, block: 0 }
    }
}

impl fmt::Display for Refusal {
    ghost output = { λ r. Some (refusal_text (number_of r.reason) r.block) };

    #[tactic(auto, unfolding(crate::specs::Answer::refusal_text))]
    fn fmt<W: fmt::Write>(&self, f: &mut fmt::Formatter<W>) -> fmt::Result {
        write!(f, "refused {} block {}", self.reason.number(), self.block)
    }
}

impl Error for Refusal {}
