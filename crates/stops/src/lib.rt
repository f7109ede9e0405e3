// The stops of a run: the tests of a call's arguments, the smallest box around them, and the stops gathered as points.
#![tactic(auto)]

pub mod arguments;
pub mod around;
pub mod stop;
