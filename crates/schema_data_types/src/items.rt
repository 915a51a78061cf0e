//! Enumeration items by name.

ghost use Rattle.std.specs.Prelude.{◌≡◌, ◌<◌, ◌||◌, ◌↔◌, length, is_some, IfOk, OnOk, IsTrue};
ghost use Rattle.std.specs.List.{list_any};
ghost use Rattle.indexmap.specs.IndexMap.{get};
ghost use Rattle.graphs.specs.Graphs.{graph_of};
ghost use Rattle.step_literals.specs.declared.literal.Word.{Word as WordRead};
ghost use Rattle.express_syntax.specs.ExpressionViews.{capitals};
ghost use Rattle.express_syntax.specs.Views.{names_of, underlying_of, declaration_of};
ghost use Rattle.schema_semantics.specs.Faults.{IsResolved, enumerated_items as of_underlying};
ghost use Rattle.schema_semantics.specs.Sets.{IsItemOf};
ghost use Rattle.schema_names.specs.Words.{same_word};
ghost use Rattle.schema_names.specs.Schemas.{the_schema};
ghost use Rattle.schema_data_types.specs.steps.Values.{AreTables};
ghost use Rattle.schema_data_types.specs.Items.{AreItems, has_item};
ghost use Rattle.schema_data_types.specs.steps.Enumerated.{
  includes,
  items_in,
  has_item_at,
  has_item_within,
};

use crate::values::{Tables, is_over_select};
use express_syntax::tree::{Declaration, Underlying};
use indexmap::IndexMap;
use schema_names::names::Names;
use std::alloc::{AllocError, Global};
use std::hash::RandomState;
use step_literals::literal::Word;

/// A set of names. The hash keys are random, so no schema can be crafted to collide.
type Known<'a> = IndexMap<Word<'a>, (), RandomState>;

/// The names of the items of a schema's enumerations.
#[derive(Drop)]
pub struct Items<'a> {
    items: Known<'a>,
}

/// Returns the items of an enumeration. Empty for other types.
fn items_behind<'d, 'a>(underlying: &'d Underlying<'a>) -> &'d [Word<'a>]
    ensures { names_of result.now ≡ of_underlying (underlying_of underlying.now) }
{
    match underlying {
        Underlying::Enumeration(items) => items,
        Underlying::Select(_) | Underlying::DataType(_) => &[],
    }
}

/// Returns the items of a declared enumeration. Empty for other declarations.
fn items_of<'d, 'a>(declaration: &'d Declaration<'a>) -> &'d [Word<'a>]
    ensures { names_of result.now ≡ items_in (declaration_of declaration.now) }
{
    match declaration {
        Declaration::Type(declared) => items_behind(&declared.underlying),
        _ => &[],
    }
}

/// Adds a name.
fn add_name<'a>(known: &mut Known<'a>, name: Word<'a>) -> Result<(), AllocError>
    ensures { OnOk result ((w : WordRead) → is_some (get same_word known.new w)
        ≡ (is_some (get same_word known.old w) || same_word name.entry w)) }
{
    known.insert(name, ())?;
    Ok(())
}

/// Adds `names`.
fn add_names<'a>(known: &mut Known<'a>, names: &[Word<'a>]) -> Result<(), AllocError>
    ensures { OnOk result ((w : WordRead) → is_some (get same_word known.new w)
        ≡ (is_some (get same_word known.old w) || includes (names_of names.now) (capitals w))) }
{
    for name in names {
        add_name(known, *name)?;
    }
    Ok(())
}

impl<'a> Items<'a> {
    /// Returns the items of all enumerations of a schema whose names are resolved.
    pub fn of(
        alloc: Global,
        keys: RandomState,
        names: &Names<'a, '_>,
    ) -> Result<Items<'a>, AllocError>
        requires resolved { IsResolved (the_schema names.now) }
        ensures { IfOk result (AreItems (the_schema names.now)) }
    {
        let mut items = IndexMap::with_hasher(alloc, keys);
        for declaration in names.declarations() {
            add_names(&mut items, items_of(declaration))?;
        }
        Ok(Items { items })
    }

    /// Whether an enumeration has an item of this name.
    pub fn has(&self, name: Word<'_>) -> bool
        ensures { result ≡ has_item self.now name.entry }
    {
        self.items.get(&name).is_some()
    }
}

/// Whether `name` is among `names`.
fn includes(names: &[Word<'_>], name: Word<'_>) -> bool
    ensures { result ≡ includes (names_of names.now) (capitals name.entry) }
{
    names.iter().any(|each| *each == name)
}

/// Whether the declaration with this number is an enumeration with an item `name`.
fn has_item_at(tables: &Tables<'_, '_, '_>, part: u32, name: Word<'_>) -> bool
    ensures { result ≡ has_item_at (the_schema tables.now.names.now) (capitals name.entry) part }
{
    match tables.names.at(part) {
        Some(declaration) => includes(items_of(declaration), name),
        None => false,
    }
}

/// Whether one of `parts` is an enumeration with an item `name`.
fn any_has_item(tables: &Tables<'_, '_, '_>, parts: &[u32], name: Word<'_>) -> bool
    ensures { result ≡ list_any (has_item_at (the_schema tables.now.names.now)
        (capitals name.entry)) parts.now }
{
    for part in parts {
        if has_item_at(tables, *part, name) {
            return true;
        }
    }
    false
}

/// Whether a defined type, or one that it is made of, is an enumeration with an item `name`.
fn has_item_within(tables: &Tables<'_, '_, '_>, part: u32, name: Word<'_>) -> bool
    requires { part < length tables.now.parts.now.giving.items }
    ensures { result ≡ has_item_within (the_schema tables.now.names.now)
        (graph_of tables.now.parts.now.giving.items) (capitals name.entry) part }
{
    any_has_item(tables, &tables.parts.giving[part as usize], name)
}

/// Whether `defined` is an enumeration with an item `name`, directly or through the names of other
/// defined types.
///
/// Takes time proportional to the count of the enumeration's items.
pub fn is_item_of(tables: &Tables<'_, '_, '_>, defined: Word<'_>, name: Word<'_>) -> bool
    requires tables { AreTables tables.now }
    ensures { IsTrue result
        ↔ IsItemOf (the_schema tables.now.names.now) (capitals defined.entry)
        (capitals name.entry) }
{
    match tables.names.find(defined) {
        Some(part) => !is_over_select(tables, part) && has_item_within(tables, part, name),
        None => false,
    }
}
