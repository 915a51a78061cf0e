//! The sources of attribute values, by the types of an instance
//! (ISO 10303-11, 9.2.1, 9.2.3, 12.7.3 and 12.7.4), and the types in terms of which a defined type
//! is defined (8.3.2).
#![tactic(auto)]

mod declaring_entity;
pub mod defined_types;
mod derivations;
mod group_references;
mod lowest_type;
pub mod source;
pub mod source_existence;
pub mod sources;
mod stored_attributes;
