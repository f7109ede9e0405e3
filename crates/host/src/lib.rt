// The calls for hosts written in C: `include/nearby.h` says the same in C. No pointer, no length and no number that C
// can pass in breaks a promise: no exported call has a `requires`.
#![tactic(auto)]

pub mod cab;
pub mod files;
pub mod mixer;
pub mod reports;
