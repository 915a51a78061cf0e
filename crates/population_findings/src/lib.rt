//! The instances of an exchange structure by row, and their findings (ISO 10303-21, 11).
#![tactic(auto)]

mod counts;
mod finding_lists;
pub mod findings;
mod forms;
mod judge;
pub mod keywords;
mod misfits;
pub mod rows;
mod schema_name;
