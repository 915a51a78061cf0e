//! The references between the instances of a typed population, and the values of inverse attributes
//! (ISO 10303-11, 9.2.1.3).
#![tactic(auto)]

pub mod extents;
mod inverse_references;
pub mod inverses;
pub mod places;
mod positions;
mod targets;
