// Pruning (document 01, "Striking"): the tiles that no stop of O can need. The call is call::prune.
#![tactic(auto)]

pub mod call;
pub mod marking;
mod tables;
