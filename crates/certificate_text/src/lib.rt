//! The text of certificates, version 2, and its reader and writer.
//!
//! A certificate holds two tables of partition refinement. Its lines, each ended by a line feed,
//! are `STEPCERT 2`, `table 1`, the lines of the first table, `table 2`, the lines of the second,
//! `end`. The lines of a table are
//!
//! - `rounds 2`: its last round, below 2^32;
//! - one line for each class, from class 0 on, at most 2^32 - 1 of them: `C1` if the class exists
//!   from round 0 on, `C3=C1@2` if it was split off class 1 in round 2. The parent has a smaller
//!   number and began before that round, and that round isn't after the last one;
//! - one line for each member, in order: `#17=C3` for the instance with this name, below 2^64, and
//!   its class at the last round, which must have a line.
//!
//! Numbers are decimal, without leading zeros. So two tables have one text, and a text holds at
//! most one pair of tables. This crate doesn't check which members there must be, and whether each
//! split has a ground.
#![tactic(auto)]

pub mod fault;
pub mod laws;
mod lines;
mod numbers;
pub mod read;
mod reader;
pub mod write;
