//! The possible values of data types.

ghost use Rattle.std.specs.Prelude.{
  ◌≡◌,
  ℕ,
  ◌+◌,
  ◌++◌,
  [],
  ◌<◌,
  ◌^◌,
  true,
  Some,
  length,
  slice_get,
  ◌↔◌,
  OnOk,
};
ghost use Rattle.std.specs.List.{cons_option};
ghost use Rattle.graphs.specs.Graphs.{graph_of, has, next};
ghost use Rattle.express_syntax.specs.Schemas.{DataType as DataTypeTree, named};
ghost use Rattle.express_syntax.specs.Views.{declaration_of, underlying_of};
ghost use Rattle.schema_semantics.specs.Names.{Name, StandsFor};
ghost use Rattle.schema_semantics.specs.Shapes.{IsOf, IsOverSelect};
ghost use Rattle.schema_names.specs.Numbers.{number_of, HasNumber};
ghost use Rattle.schema_names.specs.Schemas.{the_schema};
ghost use Rattle.schema_data_types.specs.NumberedTypes.{all_data_types};
ghost use Rattle.schema_data_types.specs.steps.Values.{AddsAll, AreTables};
ghost use Rattle.schema_data_types.specs.steps.Leaves.{leaf_atom, LeafGives, Gives, OneGives};
ghost use Rattle.schema_data_types.specs.steps.Selects.{is_select};

use crate::forms::{DataTypes, Form};
use crate::value_givers::Parts;
use express_syntax::tree::{Declaration, Underlying};
use schema_names::names::Names;
use std::alloc::AllocError;

/// The sorts of values that are neither aggregates nor instances.
#[derive(Clone, Copy, Debug, PartialEq, Eq)]
pub enum Sort {
    Number,
    Logical,
    String,
    Binary,
    /// An item of an enumeration.
    Item,
}

/// A kind of possible values.
#[derive(Clone, Copy, Debug, PartialEq, Eq)]
pub enum Atom {
    /// A value of a sort, and whether it is of a SELECT.
    Value(Sort, bool),
    /// An aggregate of elements of the data type of this number, and whether it is of a SELECT.
    Aggregate(u32, bool),
    /// An instance of the entity with this number, or of a subtype.
    Instance(u32),
}

/// The tables of a schema's data types.
#[derive(Clone, Copy)]
pub struct Tables<'a, 't, 'r> {
    pub names: &'r Names<'a, 't>,
    pub data_types: &'r DataTypes,
    /// By declaration, the declarations from which its values come.
    pub parts: &'r Parts,
}

/// Returns the atom of an unnamed data type, from its form and its number. `None` for a name.
fn leaf(form: Form, number: u32, is_of_select: bool) -> Option<Atom>
    requires { number + 1 < 2 ^ 32 }
    ensures { result ≡ leaf_atom form number is_of_select }
{
    match form {
        Form::Number => Some(Atom::Value(Sort::Number, is_of_select)),
        Form::Logical => Some(Atom::Value(Sort::Logical, is_of_select)),
        Form::String => Some(Atom::Value(Sort::String, is_of_select)),
        Form::Binary => Some(Atom::Value(Sort::Binary, is_of_select)),
        Form::Array | Form::List | Form::Collection => {
            Some(Atom::Aggregate(number + 1, is_of_select))
        }
        Form::Named(_) => None,
    }
}

/// Adds `atom`, if any.
fn add_some(atoms: &mut Vec<Atom>, atom: Option<Atom>) -> Result<(), AllocError>
    ensures { OnOk result (atoms.new.items ≡ atoms.old.items ++ cons_option atom []) }
{
    if let Some(atom) = atom {
        atoms.push(atom)?;
    }
    Ok(())
}

/// Adds the atom of an unnamed data type. Adds nothing for a name.
fn add_leaf(
    tables: &Tables<'_, '_, '_>,
    number: u32,
    is_of_select: bool,
    atoms: &mut Vec<Atom>,
) -> Result<(), AllocError>
    requires tables { AreTables tables.now }
    requires within { number < length tables.now.data_types.now.forms.items }
    ensures { (k : DataTypeTree)
        → slice_get (all_data_types (the_schema tables.now.names.now)) number ≡ Some k
        → OnOk result (AddsAll (the_schema tables.now.names.now) atoms.old.items
        (LeafGives (the_schema tables.now.names.now) k is_of_select) atoms.new.items) }
{
    let form = tables.data_types.forms[number as usize];
    add_some(atoms, leaf(form, number, is_of_select))
}

/// Whether `declaration` is a SELECT.
pub(crate) fn is_select(declaration: &Declaration<'_>) -> bool
    ensures { result ≡ is_select (declaration_of declaration.now) }
{
    match declaration {
        Declaration::Type(declared) => matches!(declared.underlying, Underlying::Select(_)),
        _ => false,
    }
}

/// Whether the type with this number is a SELECT, directly or through the names of other defined
/// types.
pub fn is_over_select(tables: &Tables<'_, '_, '_>, part: u32) -> bool
    requires tables { AreTables tables.now }
    requires named { (n : Name) × HasNumber (the_schema tables.now.names.now) n part }
    ensures { (n : Name) → HasNumber (the_schema tables.now.names.now) n part
        → (result ≡ true) ↔ IsOverSelect (the_schema tables.now.names.now) (named n) }
{
    tables.parts.selects[part as usize].contains(&0)
}

/// Returns the number of the data type after the `=` of a defined type, if any.
fn underlying_number(data_types: &DataTypes, part: u32) -> Option<u32>
    ensures { result ≡ slice_get (next (graph_of data_types.now.rows.items) part) 0 }
{
    match data_types.rows.get(part as usize) {
        Some(row) => row.first().copied(),
        None => None,
    }
}

/// Adds the atoms that a defined type gives by itself.
fn add_underlying<'a>(
    tables: &Tables<'a, '_, '_>,
    part: u32,
    underlying: &Underlying<'a>,
    is_of_select: bool,
    atoms: &mut Vec<Atom>,
) -> Result<(), AllocError>
    requires tables { AreTables tables.now }
    requires within { (n : Name) × HasNumber (the_schema tables.now.names.now) n part
        × StandsFor (the_schema tables.now.names.now) n (underlying_of underlying.now) }
    ensures { (n : Name) → HasNumber (the_schema tables.now.names.now) n part
        → OnOk result (AddsAll (the_schema tables.now.names.now) atoms.old.items
        (Gives (the_schema tables.now.names.now) n is_of_select) atoms.new.items) }
{
    match underlying {
        Underlying::Enumeration(_) => {
            atoms.push(Atom::Value(Sort::Item, is_of_select))?;
            Ok(())
        }
        Underlying::Select(_) => Ok(()),
        Underlying::DataType(_) => match underlying_number(tables.data_types, part) {
            Some(number) => add_leaf(tables, number, is_of_select, atoms),
            None => Ok(()),
        },
    }
}

/// Adds the atoms that an entity or a defined type gives by itself.
fn add_part(
    tables: &Tables<'_, '_, '_>,
    part: u32,
    is_of_select: bool,
    atoms: &mut Vec<Atom>,
) -> Result<(), AllocError>
    requires tables { AreTables tables.now }
    requires named { (n : Name) × HasNumber (the_schema tables.now.names.now) n part }
    ensures { (n : Name) → HasNumber (the_schema tables.now.names.now) n part
        → OnOk result (AddsAll (the_schema tables.now.names.now) atoms.old.items
        (Gives (the_schema tables.now.names.now) n is_of_select) atoms.new.items) }
{
    match tables.names.declaration(part) {
        Declaration::Entity(_) => {
            atoms.push(Atom::Instance(part))?;
            Ok(())
        }
        Declaration::Type(declared) => {
            add_underlying(tables, part, &declared.underlying, is_of_select, atoms)
        }
        Declaration::Skipped(_) => Ok(()),
    }
}

/// Adds the atoms that each of the declarations in `row` gives by itself.
fn add_parts(
    tables: &Tables<'_, '_, '_>,
    row: &[u32],
    is_of_select: bool,
    atoms: &mut Vec<Atom>,
) -> Result<(), AllocError>
    requires tables { AreTables tables.now }
    requires named { (j : ℕ) → has row.now j ≡ true
        → (n : Name) × HasNumber (the_schema tables.now.names.now) n j }
    ensures { OnOk result (AddsAll (the_schema tables.now.names.now) atoms.old.items
        (OneGives (the_schema tables.now.names.now) row.now is_of_select) atoms.new.items) }
{
    for part in row {
        add_part(tables, *part, is_of_select, atoms)?;
    }
    Ok(())
}

/// Adds the atoms of an entity or a defined type.
pub fn add_named(
    tables: &Tables<'_, '_, '_>,
    part: u32,
    atoms: &mut Vec<Atom>,
) -> Result<(), AllocError>
    requires tables { AreTables tables.now }
    requires named { (n : Name) × HasNumber (the_schema tables.now.names.now) n part }
    ensures { (n : Name) → HasNumber (the_schema tables.now.names.now) n part
        → OnOk result (AddsAll (the_schema tables.now.names.now) atoms.old.items
        (IsOf (the_schema tables.now.names.now) (named n)) atoms.new.items) }
{
    let is_of_select = is_over_select(tables, part);
    add_parts(
        tables,
        &tables.parts.giving[part as usize],
        is_of_select,
        atoms,
    )
}

/// Adds the atoms of the declaration `meant`, if any.
fn add_meant(
    tables: &Tables<'_, '_, '_>,
    meant: Option<u32>,
    atoms: &mut Vec<Atom>,
) -> Result<(), AllocError>
    requires tables { AreTables tables.now }
    requires meant { (n : Name) × (number_of (the_schema tables.now.names.now) n ≡ meant) }
    ensures { (n : Name) → number_of (the_schema tables.now.names.now) n ≡ meant
        → OnOk result (AddsAll (the_schema tables.now.names.now) atoms.old.items
        (IsOf (the_schema tables.now.names.now) (named n)) atoms.new.items) }
{
    match meant {
        Some(part) => add_named(tables, part, atoms),
        None => Ok(()),
    }
}

/// Adds the atoms of the data type `number`, with SELECTs replaced by their items
/// (ISO 10303-11, 8.4.2).
///
/// Takes time proportional to the count of declarations that give values by themselves and to which
/// the data type refers.
pub fn add_values(
    tables: &Tables<'_, '_, '_>,
    number: u32,
    atoms: &mut Vec<Atom>,
) -> Result<(), AllocError>
    requires tables { AreTables tables.now }
    requires within { number < length (all_data_types (the_schema tables.now.names.now)) }
    ensures { (k : DataTypeTree)
        → slice_get (all_data_types (the_schema tables.now.names.now)) number ≡ Some k
        → OnOk result (AddsAll (the_schema tables.now.names.now) atoms.old.items
        (IsOf (the_schema tables.now.names.now) k) atoms.new.items) }
{
    match tables.data_types.forms[number as usize] {
        Form::Named(meant) => add_meant(tables, meant, atoms),
        _ => add_leaf(tables, number, false, atoms),
    }
}
