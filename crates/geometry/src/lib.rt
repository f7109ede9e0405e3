// Box arithmetic (document 01, "Three boxes"): coordinates, boxes, points, squared distances from a point to a box, the
// margin of three boxes, the corners of a box. It knows nothing of blocks. Public calls that take any numbers:
// distance::min_dist, distance::max_dist and margin::margin, over N axes, 2 or 3. The others are for the crates above:
// they are told the number of axes when they run (padding.rt says how), and those with `_within` leave out the tests
// that their `requires` asks for.
#![tactic(auto)]

mod axis;
pub mod corner;
pub mod distance;
mod gains;
pub mod limits;
pub mod margin;
pub mod padding;
