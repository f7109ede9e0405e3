// Opening of tiles, and the full check (document 01, "Blocks" and "Writer, full check, host, program").
// validate::validate takes any bytes. The other calls are for a file whose directory is accepted.
#![tactic(auto)]

pub mod tile;
pub mod validate;
