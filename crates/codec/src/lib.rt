// Numbers and zeros in bytes, least significant byte first. It knows nothing of blocks.
#![tactic(auto)]

pub mod reading;
pub mod writing;
