// The level call: refused, silent, or a level as a 64-bit float.
ghost use Rattle.std.specs.Prelude.{◌≡◌, ◌+◌, ◌≤◌};
ghost use Rattle.level.specs.Level.{valid_reach, quotient, level_outcome, level_call};

use base::{Reason, Refusal};

// Neither an Option nor a Result: document 01 names the form, an enum with the cases Silent, Level and Refused.
#[derive(Clone, Copy, Debug, PartialEq)]
pub enum LevelAnswer {
    Silent,
    Level(f64),
    Refused(Refusal),
}

pub const MAX_REACH: u32 = 1_000_000;

// Test 18.
#[tactic(auto, unfolding(crate::specs::Level::valid_reach))]
fn valid_reach(reach: u32) -> bool
    ensures { result ≡ valid_reach reach }
{
    (1..=MAX_REACH).contains(&reach)
}

// Both casts and the sum are exact, so that only the division rounds.
#[tactic(auto, using(crate::proofs::Whole::add_casts), unfolding(crate::specs::Level::quotient))]
fn quotient_of(square: u64, d: u64) -> f64
    requires { (square ≤ 1_000_000_000_000) × (d ≤ 100_000_000_000_000) }
    ensures { result ≡ quotient square (square + d) }
{
    let s = square as f64;
    let t = d as f64;
    s / (s + t)
}

#[tactic(auto, using(crate::proofs::CallLaws::reach_limits), unfolding(crate::specs::Level::level_call))]
pub fn level(reach: u32, d: u64) -> LevelAnswer
    ensures { level_outcome result ≡ level_call reach d }
{
    if !valid_reach(reach) {
        return LevelAnswer::Refused(Reason::Reach.at(0));
    }
    let r = u64::from(reach);
    let square = r * r;
    let last = 100 * square;
    if d > last {
        return LevelAnswer::Silent;
    }
    LevelAnswer::Level(quotient_of(square, d))
}
