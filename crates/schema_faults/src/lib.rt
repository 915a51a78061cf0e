//! The faults of the names of a schema, and the requirements of contexts on names
//! (ISO 10303-11, 8 to 10).
#![tactic(auto)]

pub mod cycles;
mod declared_names;
pub mod demands;
pub mod duplicates;
mod entities;
mod inherited_attributes;
mod inverses;
mod kinds;
mod names;
mod parts;
mod types;
