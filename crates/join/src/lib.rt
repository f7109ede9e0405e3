// The join (document 01, "The join"). The call is call::join.
#![tactic(auto)]

pub mod call;
