//! The data types of a schema by number: their possible values, which of them are alike, and the
//! items of enumerations (ISO 10303-11, 8 and 9.2.3.4).
#![tactic(auto)]

pub mod alike_types;
pub mod edge_tables;
pub mod forms;
pub mod items;
pub mod laws;
pub mod shape_table;
pub mod shapes;
pub mod value_givers;
pub mod values;
