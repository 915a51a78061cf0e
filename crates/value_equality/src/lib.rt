//! When two populations of an exchange structure (ISO 10303-21) agree, and which smaller population
//! is the least that keeps kinds, values, references and pinned identities.
//!
//! Two instances are value-equal if some relation that keeps relates them, so cycles are compared
//! too. The quotient by value equality is an image with the fewest instances. A table of partition
//! refinement, whoever made it, proves this.
#![tactic(auto)]

pub mod fault;
pub mod image;
pub mod laws;
mod parts;
mod places;
pub mod plain;
pub mod row;
mod sorted_types;
pub mod table;
mod value_rows;
