//! Tools for reading texts, whatever their tokens, symbols and cells are: token by token, by tables
//! of what may come next, into columns of flat cells.
#![tactic(auto)]

pub mod column;
pub mod column_laws;
pub mod predictive_laws;
