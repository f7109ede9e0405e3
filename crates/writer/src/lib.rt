// The writer of files (document 01, "Writer, full check, host, program"). write::write takes any lists; the other calls
// serve it.
#![tactic(auto)]

pub mod supply;
pub mod write;
