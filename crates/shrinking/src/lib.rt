//! Merging the value-equal instances of a file according to its schema: the smaller file and its certificate,
//! from the bytes of schema and file.
#![tactic(auto)]

pub mod laws;
mod merge;
pub mod shrink;
pub mod summary;
mod write;
