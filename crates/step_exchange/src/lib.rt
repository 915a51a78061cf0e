//! The exchange structure of a STEP file (ISO 10303-21), read from bytes and written as normal
//! text.
#![tactic(auto)]

mod data;
pub mod exchange;
mod header;
pub mod laws;
pub mod print;
pub mod reference_targets;
mod schema;
pub mod section;
pub mod structure;
pub mod write;

pub use step_structures::fault;
