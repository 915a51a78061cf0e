//! The types of a schema whose names are resolved (ISO 10303-11, 8, 9 and 10): the supertypes of
//! each entity, and the explicit attributes of its instances.
#![tactic(auto)]

pub mod resolution;
mod type_tables;
pub mod types;
