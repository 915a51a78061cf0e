//! The tables about the entities of a schema.

use schema_explicit_attributes::attributes::Place;
use schema_names::names::Names;
use schema_redeclarations::uses::Uses;

/// What the entities of a schema require of their instances, by number.
#[derive(Clone, Copy)]
pub struct Knowledge<'a, 't, 'r> {
    pub names: &'r Names<'a, 't>,
    /// For each declaration that is an entity, the numbers of its proper supertypes.
    pub above: &'r [Vec<u32>],
    /// The explicit attributes of the schema, in the order of the text.
    pub attributes: &'r [Place<'a, 't>],
    /// For each declaration that is an entity, the numbers of its explicit attributes, including
    /// the inherited ones.
    pub places: &'r [Vec<u32>],
    /// For each declaration that is an entity, the numbers of the explicit attributes that it
    /// declares itself.
    pub own: &'r [Vec<u32>],
    pub uses: &'r Uses,
    /// For each ONEOF that is checked, in the order of the text, the numbers of its operands.
    pub one_ofs: &'r [Vec<u32>],
}
