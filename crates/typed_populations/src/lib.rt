//! The typed population of an exchange structure: its instances with their types and the values of
//! their attributes (ISO 10303-21, 11).
#![tactic(auto)]

pub mod accessors;
mod copies;
pub mod instances;
mod plain_rows;
pub mod population;
mod value_order;
