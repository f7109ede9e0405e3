// What the search compares: places by rank, and a place against the key of a tile; its limits and marks.
#![tactic(auto)]

ghost use Rattle.std.specs.Prelude.{◌≡◌};
ghost use Rattle.search.specs.Limits.{valid_k};
ghost use Rattle.search.specs.Run.{rank, ahead_of};

// Slots of a tile in a site number: tile × 40 + slot.
pub const SLOTS: u32 = 40;

// Marks of a tile; one that is neither opened nor pruned has 0. They are bytes, since C lends the slice of marks.
pub const OPENED: u8 = 2;

pub const PRUNED: u8 = 1;

pub const MAX_K: u32 = 64;

pub const MAX_STOPS: usize = 256;

// Test 11.
#[tactic(auto, unfolding(crate::specs::Limits::valid_k))]
pub fn valid_k(k: u32) -> bool
    ensures { result ≡ valid_k k }
{
    (1..=MAX_K).contains(&k)
}

// A place of a list: the distance, the site as tile × 40 + slot, and the cue.
#[derive(Clone, Copy, Debug, PartialEq, Eq)]
pub struct Place {
    pub dist: u64,
    pub site: u32,
    pub cue: u32,
}

// Place x ranks before place y.
#[tactic(auto, unfolding(crate::specs::Run::rank, crate::specs::Order::lex))]
pub fn ranks_before(x: Place, y: Place) -> bool
    ensures { result ≡ rank x y }
{
    x.dist < y.dist || (x.dist == y.dist && x.site < y.site)
}

// Place x is ahead of the key of a tile: its least distance, then its number.
#[tactic(auto, unfolding(crate::specs::Run::ahead_of, crate::specs::Order::lex))]
pub fn ahead_of_key(x: Place, least: u64, tile: u32) -> bool
    ensures { result ≡ ahead_of x least tile }
{
    (x.dist, x.site / SLOTS) < (least, tile)
}
