// The waist: what the search asks of a file whose directory is accepted, each by one thin call proved against the plan.
// Above it a stop and a region are opaque, and tiles go by number. Only far is asked of a tile's box, by
// `corners` and `arrange`.
#![tactic(auto)]

pub mod measure;
pub mod region;
pub mod sites;
