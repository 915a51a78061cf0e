//! The tables from which the unchecked parts are collected.

use crate::judgement::Judgement;
use schema_attribute_references::schema_facts::Known;
use schema_data_types::items::Items;
use schema_data_types::shapes::Shape;

/// The tables of a schema whose names are resolved.
#[derive(Clone, Copy)]
pub struct Findings<'a, 't, 'r> {
    pub known: Known<'a, 't, 'r>,
    pub items: &'r Items<'a>,
    /// By declaration, the supertype chain of each entity.
    pub lines: &'r [Vec<u32>],
    /// The shapes of data types, by number.
    pub shapes: &'r [Shape],
    /// The judgements of derived attributes, by number.
    pub judged: &'r [Judgement],
    /// The ranks of derived attributes, by number.
    pub ranks: &'r [Option<u32>],
}
