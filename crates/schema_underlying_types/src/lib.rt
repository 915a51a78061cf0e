//! The data types of a schema by number, with the names of defined types resolved: the requirements
//! of each on its values (ISO 10303-11, 8).
#![tactic(auto)]

pub mod base;
mod base_entries;
pub mod bases;
mod declarations;
mod items;
pub mod lookup;
mod measures;
mod numbered_types;
