// The tiles that wait for a stop, by key: gathered once a run, the keys of a stop, the next key.
#![tactic(auto)]

pub mod gather;
pub mod keys;
