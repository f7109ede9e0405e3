// The stops served in turn: the walk of each over the waiting tiles. The call is serving::serve.
#![tactic(auto)]

pub mod marks;
pub mod serving;
