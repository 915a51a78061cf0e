//! Whether a certificate proves that an output is a least image of an input, whatever program wrote the two:
//! from four texts and a choice of entity data types.
#![tactic(auto)]

mod fault;
mod input;
pub mod laws;
mod output;
pub mod proof;
pub mod sources;
mod tables;
pub mod verify;
