//! The parts of a schema that are read but not checked, with reasons that don't depend on
//! expressions (ISO 10303-11, 8 and 9).
#![tactic(auto)]

pub mod declarations;
pub mod limits;
pub mod list;
