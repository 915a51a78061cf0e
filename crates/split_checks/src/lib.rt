//! Whether the splits of a table of classes have their grounds. Some places share a class at a
//! round, and shapes and references don't distinguish them then. A split without grounds separates
//! two such places at the next round. The check takes time by the number of places, references and
//! classes times at most the square of its logarithm, whatever the table.
#![tactic(auto)]

pub mod births;
pub mod grounds;
mod group_walk;
mod members;
mod moves;
mod undone_births;
