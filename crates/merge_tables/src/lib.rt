//! The tables by which a file is merged if it has no findings.
#![tactic(auto)]

pub mod file_merge;
mod tables;
