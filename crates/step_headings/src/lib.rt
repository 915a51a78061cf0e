//! Headings of data sections (ISO 10303-21, 11.1), compared between two exchange structures.
#![tactic(auto)]

pub mod headings;
