//! Records and instances of an exchange structure (ISO 10303-21, 11), read from tokens. Their
//! parameters are flat cells of one column.
#![tactic(auto)]

pub mod builder;
pub mod cell;
pub mod forest;
pub mod instances;
pub mod laws;
pub mod names;
pub mod param;
pub mod params;
pub mod reader;
pub mod records;
mod stretch;
pub mod tokens;
