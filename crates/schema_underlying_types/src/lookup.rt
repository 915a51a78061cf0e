//! Looking up the requirements of data types.

ghost use Rattle.std.specs.Prelude.{◌≡◌, IfSome};
ghost use Rattle.std.specs.Option.{option_map};
ghost use Rattle.std.specs.List.Sorted.{IsNonDecreasing};
ghost use Rattle.graphs.specs.Graphs.{graph_of, has, next};
ghost use Rattle.express_syntax.specs.ExpressionViews.{capitals};
ghost use Rattle.schema_semantics.specs.Names.{Name};
ghost use Rattle.schema_names.specs.Numbers.{HasNumber};
ghost use Rattle.schema_names.specs.Schemas.{the_schema};
ghost use Rattle.conformance.specs.Bases.{Domain, IsDomain, select, base};
ghost use Rattle.conformance.specs.ParameterFits.{inner};
ghost use Rattle.schema_underlying_types.specs.BaseViews.{type_at, base_seen};
ghost use Rattle.schema_underlying_types.specs.BaseEntries.{is_entity_at};
ghost use Rattle.schema_underlying_types.specs.Tables.{AreBases, NamesKnownType, IsNumberedBase};

use crate::base::Base;
use crate::base_entries::entry;
use crate::bases::BaseTypes;
use express_syntax::tree::Declaration;
use schema_names::names::Names;
use step_literals::literal::Word;

/// The names of a schema, and the requirements of its data types on values.
#[derive(Clone, Copy)]
pub struct Bases<'a, 't, 'r> {
    pub names: &'r Names<'a, 't>,
    pub table: &'r BaseTypes,
}

/// Returns the row with this number, if any, otherwise an empty one.
fn row_at(rows: &[Vec<u32>], number: u32) -> &[u32]
    ensures { result.now ≡ next (graph_of rows.now) number }
{
    match rows.get(number as usize) {
        Some(row) => row,
        None => &[],
    }
}

/// Whether `number` is in `row`, which is sorted.
fn contains(row: &[u32], number: u32) -> bool
    requires { IsNonDecreasing row.now }
    ensures { result ≡ has row.now number }
{
    row.binary_search(&number).is_ok()
}

/// Whether the declaration `number` is an entity.
fn is_entity(names: &Names<'_, '_>, number: u32) -> bool
    ensures { result ≡ is_entity_at (the_schema names.now) number }
{
    match names.at(number) {
        Some(Declaration::Entity(_)) => true,
        Some(Declaration::Type(_)) | Some(Declaration::Skipped(_)) => false,
        None => false,
    }
}

impl<'a, 't, 'r> Bases<'a, 't, 'r> {
    /// Returns the base of the data type `number`, or INTEGER if there is none.
    pub fn of_number(&self, number: u32) -> Base
        requires bases { AreBases self.now }
        ensures says { NamesKnownType (the_schema self.now.names.now)
            (type_at (the_schema self.now.names.now) number)
            → (d : Domain) → IsDomain (the_schema self.now.names.now) d
            → base_seen (the_schema self.now.names.now) result
            ≡ base d (type_at (the_schema self.now.names.now) number) }
        ensures numbered { IsNumberedBase (the_schema self.now.names.now) result }
    {
        entry(&self.table.by_number, number)
    }

    /// Returns the base of the item `name` of the SELECT `number`, if `name` is a defined type
    /// among its items, those of nested SELECTs included. A typed parameter with this name has to
    /// be of that base.
    pub fn item(&self, number: u32, name: Word<'_>) -> Option<Base>
        requires bases { AreBases self.now }
        ensures numbered { IfSome result (IsNumberedBase (the_schema self.now.names.now)) }
        ensures says { (d : Domain) → IsDomain (the_schema self.now.names.now) d
            → (m : Name) → HasNumber (the_schema self.now.names.now) m number
            → option_map (base_seen (the_schema self.now.names.now)) result
            ≡ inner (the_schema self.now.names.now) d (select m) (capitals name.entry) }
    {
        match self.names.find(name) {
            Some(item) => {
                if self.takes(number, item) && !is_entity(self.names, item) {
                    Some(entry(&self.table.by_declaration, item))
                } else {
                    None
                }
            }
            None => None,
        }
    }

    /// Whether `entity` is an item of the SELECT `number`, those of nested SELECTs included.
    pub fn takes(&self, number: u32, entity: u32) -> bool
        requires bases { AreBases self.now }
        ensures { (d : Domain) → IsDomain (the_schema self.now.names.now) d
            → (m : Name) (n : Name) → HasNumber (the_schema self.now.names.now) m number
            → HasNumber (the_schema self.now.names.now) n entity
            → result ≡ d.is_item m n }
    {
        contains(row_at(&self.table.items, number), entity)
    }
}
