//! Properties of sets of atoms.

ghost use Rattle.std.specs.Prelude.{◌≡◌, ◌↔◌, IsTrue, length};
ghost use Rattle.std.specs.List.{list_any};
ghost use Rattle.schema_semantics.specs.Reasons.{HasBareValue, MayBeDeep, MayBeUnordered};
ghost use Rattle.schema_names.specs.Schemas.{the_schema};
ghost use Rattle.schema_data_types.specs.steps.Values.{AreTables, Holds};
ghost use Rattle.schema_expression_analysis.specs.steps.Questions.{
  is_numbered,
  is_deep_atom,
  is_bare_atom,
  is_unordered_atom,
};

use schema_data_types::values::{Atom, Sort, Tables};
use schema_names::names::Names;

/// Whether `number` is that of a type or an entity.
fn is_numbered(names: &Names<'_, '_>, number: u32) -> bool
    ensures { result ≡ is_numbered (the_schema names.now) number }
{
    if number as usize >= names.len() {
        return false;
    }
    match names.name(number) {
        Some(name) => names.find(name) == Some(number),
        None => false,
    }
}

/// Whether `atom` is an instance or an aggregate.
fn is_deep_atom(tables: &Tables<'_, '_, '_>, atom: Atom) -> bool
    ensures { result ≡ is_deep_atom (the_schema tables.now.names.now)
        (length tables.now.data_types.now.forms.items) atom }
{
    match atom {
        Atom::Value(_, _) => false,
        Atom::Aggregate(number, _) => (number as usize) < tables.data_types.forms.len(),
        Atom::Instance(number) => is_numbered(tables.names, number),
    }
}

/// Whether one of the atoms is an instance or an aggregate.
fn any_deep(tables: &Tables<'_, '_, '_>, atoms: &[Atom]) -> bool
    ensures { result ≡ list_any (is_deep_atom (the_schema tables.now.names.now)
        (length tables.now.data_types.now.forms.items)) atoms.now }
{
    for atom in atoms {
        if is_deep_atom(tables, *atom) {
            return true;
        }
    }
    false
}

/// Whether one of the atoms is an instance or an aggregate.
pub(crate) fn is_deep(tables: &Tables<'_, '_, '_>, atoms: &[Atom]) -> bool
    requires tables { AreTables tables.now }
    ensures { IsTrue result ↔ MayBeDeep (Holds (the_schema tables.now.names.now) atoms.now) }
{
    any_deep(tables, atoms)
}

/// Whether `atom` is a value that isn't of a SELECT.
fn is_bare_atom(tables: &Tables<'_, '_, '_>, atom: Atom) -> bool
    ensures { result ≡ is_bare_atom (length tables.now.data_types.now.forms.items) atom }
{
    match atom {
        Atom::Value(_, is_of_select) => !is_of_select,
        Atom::Aggregate(number, is_of_select) => {
            !is_of_select && (number as usize) < tables.data_types.forms.len()
        }
        Atom::Instance(_) => false,
    }
}

/// Whether one of the atoms is a value that isn't of a SELECT.
fn any_bare(tables: &Tables<'_, '_, '_>, atoms: &[Atom]) -> bool
    ensures { result ≡ list_any (is_bare_atom (length tables.now.data_types.now.forms.items))
        atoms.now }
{
    for atom in atoms {
        if is_bare_atom(tables, *atom) {
            return true;
        }
    }
    false
}

/// Whether one of the atoms is a value that isn't of a SELECT.
pub(crate) fn has_bare_value(tables: &Tables<'_, '_, '_>, atoms: &[Atom]) -> bool
    requires tables { AreTables tables.now }
    ensures { IsTrue result ↔ HasBareValue (Holds (the_schema tables.now.names.now) atoms.now) }
{
    any_bare(tables, atoms)
}

/// Whether `atom` is a string, a binary or an enumeration item.
fn is_unordered_atom(atom: Atom) -> bool
    ensures { result ≡ is_unordered_atom atom }
{
    match atom {
        Atom::Value(Sort::String | Sort::Binary | Sort::Item, _) => true,
        _ => false,
    }
}

/// Whether one of the atoms is a string, a binary or an enumeration item.
pub(crate) fn is_unordered(tables: &Tables<'_, '_, '_>, atoms: &[Atom]) -> bool
    ensures { IsTrue result ↔ MayBeUnordered (Holds (the_schema tables.now.names.now) atoms.now) }
{
    atoms.iter().any(|atom| is_unordered_atom(*atom))
}
