//! The reports on a file that is checked, merged or verified, with their lines, and the one type of fault for
//! all three.
#![tactic(auto)]

pub mod fault;
mod labels;
pub mod merge_lines;
pub mod refusal;
pub mod report;
pub mod report_lines;
pub mod schema_fault;
pub mod words;
