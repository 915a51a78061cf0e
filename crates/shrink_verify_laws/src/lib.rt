//! Laws that relate what a merge writes to what a verification of it returns.
#![tactic(auto)]

pub mod laws;
