//! The tables from which the rules of a schema are collected.

use schema_attribute_references::schema_facts::Known;
use schema_explicit_attributes::attributes::Place;

/// The tables of a schema whose names are resolved.
#[derive(Clone, Copy)]
pub struct Sources<'a, 't, 'r> {
    pub known: Known<'a, 't, 'r>,
    /// By declaration, the supertype chain of each entity.
    pub lines: &'r [Vec<u32>],
    /// The explicit attributes, in the order of the text.
    pub places: &'r [Place<'a, 't>],
    /// By declaration, the numbers of the explicit attributes that an entity declares itself.
    pub own: &'r [Vec<u32>],
    /// The numbers of the explicit attributes, sorted by the names of their entities, then by their
    /// own.
    pub ordered: &'r [u32],
}
