// Blocks of 512 bytes: the check, and the directory (document 01, "Blocks" and "Numbers given to bad input").
// directory::read_directory takes any bytes. The other calls serve it and the crates above, which meet their
// `requires`.
#![tactic(auto)]

pub mod block;
pub mod checksum;
pub mod directory;
pub mod entry;
pub mod header;
pub mod lanes;
pub mod layout;
