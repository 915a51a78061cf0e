//! The scope of an expression.

use schema_attribute_references::schema_facts::Known;
use schema_data_types::items::Items;
use schema_data_types::values::Atom;
use step_literals::literal::Word;

/// A variable of a QUERY, with its possible values (ISO 10303-11, 12.6.7).
#[derive(Drop)]
pub struct Variable<'a> {
    pub name: Word<'a>,
    pub may: Vec<Atom>,
}

/// The scope of an expression.
#[derive(Clone, Copy)]
pub struct Scope<'a, 't, 'r, 'v> {
    pub known: Known<'a, 't, 'r>,
    pub items: &'r Items<'a>,
    /// The possible values of SELF.
    pub own: &'r [Atom],
    /// The variables of the enclosing QUERYs, innermost last.
    pub variables: &'v [Variable<'a>],
}
