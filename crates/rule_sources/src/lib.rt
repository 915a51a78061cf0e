//! Where instances of each form have the values of their attributes (ISO 10303-11, 12.7.3).
#![tactic(auto)]

pub mod sources;
