//! The independent checker of tables of partition refinement, whoever made them.
//!
//! It checks that a table is valid for a population: it is well-formed, its members are the
//! instances, instances that are alike start in one class, each split has a ground, and the last
//! round is stable. It also checks that another population is the quotient by the table. It uses no
//! crate that refines.
#![tactic(auto)]

pub mod ancestors;
mod births;
pub mod classes;
pub mod fault;
pub mod first_members;
pub mod judge;
pub mod members;
mod pin_numbers;
pub mod quotient;
pub mod splits;
pub mod stable_rounds;
pub mod starts;
pub mod table_form;
