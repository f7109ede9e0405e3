// Levels for the mixer (02.4): how loud a place of a list is, from a reach and the place's squared distance.
#![tactic(auto)]

pub mod call;
