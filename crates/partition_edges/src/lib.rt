//! References between places, as edges of a graph that partition refinement reads; the keys by
//! which they split classes; and round 0, the partition by kinds. Both the refinement and the
//! checker of its tables use this crate.
#![tactic(auto)]

pub mod edge_keys;
pub mod edges;
pub mod round_zero;
