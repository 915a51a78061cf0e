//! The attributes that an entity declares itself, the explicit attributes that its instances have,
//! and the entity that declares each of them (ISO 10303-11, 9.2.1, 9.2.3.3 and 9.2.3.4;
//! ISO 10303-21, 11.2.5).
#![tactic(auto)]

pub mod attributes;
pub mod origins;
pub mod own_attributes;
pub mod places;
pub mod supertype_lines;
pub mod supertypes;
