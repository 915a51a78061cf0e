//! The instances that violate uniqueness rules, and those that violate the bounds of inverse
//! attributes (ISO 10303-11, 9.2.1.3 and 9.2.2.1).
#![tactic(auto)]

pub mod inverses;
mod key_lookup;
mod parts;
mod positions;
pub mod repeats;
pub mod uniques;
