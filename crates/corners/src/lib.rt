// Tiles measured from the corners of a region. Tile e is closer than tile b exactly when from each corner far of e is
// below near of b (plan's `closer_by_corners`), so each tile is measured once from each corner, and a pair of tiles
// takes a comparison for each corner.
#![tactic(auto)]

pub mod compare;
pub mod tables;
