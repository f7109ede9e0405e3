// The sites of a tile that rank put into the list of a stop.
#![tactic(auto)]

pub mod tile;
