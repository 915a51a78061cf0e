//! Graphs on dense numbers: reachability, cycles, topological orders and tables computed along
//! them. Also forests that report in constant time whether one vertex is under another, and
//! references by the names of their ends.
//!
//! A graph of n vertices is a list of n rows. Row `a` lists the targets of the edges from `a`, in
//! any order and possibly with repeats. Nothing recurses along edges, so a chain of any length
//! costs no stack.
#![tactic(auto)]

pub mod closures;
pub mod cycles;
pub mod edge_tables;
pub mod forest;
pub mod laws;
pub mod marks;
mod order_building;
pub mod orders;
mod parents;
pub mod ranking;
pub mod referrers;
pub mod rows;
mod search;
mod spans;
