//! What a schema requires of the records of an instance, and of files, in tables that are built
//! once (ISO 10303-11, 9.2; ISO 10303-21, 11.2).
#![tactic(auto)]

mod counts;
pub mod forms;
pub mod knowledge;
mod operands;
mod slots;
mod sorted_rows;
pub mod tables;
