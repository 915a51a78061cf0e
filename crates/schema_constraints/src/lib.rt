//! The rules of a schema that apply to a whole population, by number, and their findings:
//! uniqueness rules and inverse attributes (ISO 10303-11, 9.2.2.1 and 9.2.1.3).
#![tactic(auto)]

pub mod attribute_order;
pub mod finding;
pub mod inverse_collections;
pub mod inverses;
pub mod label;
mod places;
pub mod sources;
pub mod tables;
mod unique_attributes;
pub mod uniques;
