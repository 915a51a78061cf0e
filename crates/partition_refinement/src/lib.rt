//! Partition refinement of places that refer to each other, and standard numbers for the resulting
//! classes.
//!
//! Each round splits the places of a class that refer, at some position, to different classes. A
//! round takes time by the references to the classes that the round before made, and not by all
//! references. The part with the first place of a class keeps the number of the class. New numbers
//! are given by round, then by first place.
#![tactic(auto)]

mod birth_keys;
mod first_places;
mod history;
pub mod number_laws;
pub mod numbering;
pub mod refinement;
pub mod round_laws;
