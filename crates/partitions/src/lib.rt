//! Partitions of places into classes. Classes are split by keys of places, in time by the number of
//! these keys instead of the number of places.
#![tactic(auto)]

mod classes_by_number;
mod exchange;
pub mod groups;
pub mod pairs;
pub mod parts;
mod runs;
mod splits_by_key;
