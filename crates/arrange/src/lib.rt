// The tiles of a town by place, as seen from a region: in rising order of their far distance from its first corner.
// Those that can be closer than a tile then stand before a place that is found by halving (`place_before`).
#![tactic(auto)]

pub mod places;
mod sorting;
