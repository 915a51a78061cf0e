//! Whether a parameter of a record fits a data type, and its value as one of that type
//! (ISO 10303-21, 11).
#![tactic(auto)]

pub mod bounds;
pub mod contents;
pub mod distinct;
pub mod fits;
pub mod leaves;
pub mod normal_forms;
pub mod targets;
pub mod values;
