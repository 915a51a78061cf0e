//! Values of expressions of EXPRESS (ISO 10303-11, 12): three-valued logic, comparison and
//! membership.
//!
//! Nothing here allocates: literals are slices of the texts that contain them.
#![tactic(auto)]

pub mod binaries;
pub mod comparison;
pub mod datum;
pub mod laws;
pub mod logical;
pub mod numbers;
pub mod scalar;
pub mod strings;
