// A town's lists as the bytes of its file (document 01, "Blocks"). The calls require lists that fit together; the
// writer tests them.
#![tactic(auto)]

pub mod directory;
pub mod head;
pub mod lists;
pub mod tile;
