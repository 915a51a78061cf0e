//! A population, and what expressions need to know of its schema.

use population_inverses::extents::Extents;
use rule_names::tables::SettingTables;
use rule_sources::sources::FormSources;
use schema_derived_attributes::formula::Formulas;

/// A population with everything that an expression can look up in it and in its schema.
#[derive(Drop)]
pub struct Setting<'s, 't, 'r, 'a, 'e, 'p> {
    pub extents: &'p Extents<'s, 't, 'r, 'a, 'e>,
    pub tables: &'p SettingTables<'r, 's>,
    /// Where instances of each form have the values of their attributes.
    pub forms: &'p FormSources<'s>,
    pub formulas: &'p Formulas<'s, 't>,
}
