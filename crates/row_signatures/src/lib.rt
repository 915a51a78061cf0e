//! The input of partition refinement, by the positions of rows: numbers for what rows must have in
//! common to share a class, and the references between rows as edges.
#![tactic(auto)]

mod flat_values;
pub mod kinds;
mod marks;
pub mod references;
pub mod shapes;
pub mod signatures;
mod value_hashes;
