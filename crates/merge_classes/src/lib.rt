//! The value-equal instances of a population: the standard table of partition refinement, computed
//! in time proportional to the number of references times a logarithm.
#![tactic(auto)]

pub mod classes;
pub mod laws;
mod numbered_classes;
mod tables;
