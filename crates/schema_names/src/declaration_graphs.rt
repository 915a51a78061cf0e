//! Graphs on the numbers of declarations: the supertypes of entities, and the parts of defined
//! types.

ghost use Rattle.std.specs.Prelude.{◌≡◌, [], ◌++◌, filter_map, IfOk, OnOk};
ghost use Rattle.std.specs.List.{cons_option};
ghost use Rattle.graphs.specs.Graphs.{graph_of};
ghost use Rattle.express_syntax.specs.Views.{
  names_of,
  underlying_of,
  data_type_of,
  declaration_of as declaration_seen,
};
ghost use Rattle.express_syntax.specs.Schemas.{data_type as of_data_type};
ghost use Rattle.schema_names.specs.Numbers.{number_of};
ghost use Rattle.schema_names.specs.Edges.{IsGraphOf, supertypes_in, parts_in, parts_of};
ghost use Rattle.schema_names.specs.steps.Relations.{named_in};
ghost use Rattle.schema_names.specs.Schemas.{the_schema};

use crate::names::Names;
use express_syntax::tree::{DataType, Declaration, Underlying};
use std::alloc::{AllocError, Global};
use std::slice;
use step_literals::literal::Word;

/// What the edges of a graph mean.
#[derive(Clone, Copy)]
enum Relation {
    /// From an entity to the names in its SUBTYPE OF.
    Supertypes,
    /// From a defined type to the name after its `=`, or to the items of its SELECT.
    Parts,
}

/// Returns the names in SUBTYPE OF. Empty for anything that isn't an entity.
fn supertypes<'d, 'a>(declaration: &'d Declaration<'a>) -> &'d [Word<'a>]
    ensures { names_of result.now ≡ supertypes_in (declaration_seen declaration.now) }
{
    match declaration {
        Declaration::Entity(entity) => entity.supertypes(),
        _ => &[],
    }
}

/// Returns the name of a named data type. Empty for other data types, aggregates included.
fn part<'d, 'a>(data_type: &'d DataType<'a>) -> &'d [Word<'a>]
    ensures { names_of result.now ≡ parts_of (of_data_type (data_type_of data_type.now)) }
{
    match data_type {
        DataType::Named(word) => slice::from_ref(word),
        DataType::Integer | DataType::Number | DataType::Boolean | DataType::Logical => &[],
        DataType::Real(_) | DataType::String(_) | DataType::Binary(_) => &[],
        DataType::Array { .. } | DataType::List { .. } => &[],
        DataType::Bag { .. } | DataType::Set { .. } => &[],
    }
}

/// Returns the name after the `=` of a defined type, or the items of its SELECT.
fn parts_behind<'d, 'a>(underlying: &'d Underlying<'a>) -> &'d [Word<'a>]
    ensures { names_of result.now ≡ parts_of (underlying_of underlying.now) }
{
    match underlying {
        Underlying::Enumeration(_) => &[],
        Underlying::Select(items) => items,
        Underlying::DataType(data_type) => part(data_type),
    }
}

/// Returns the parts of a defined type. Empty for other declarations.
fn parts<'d, 'a>(declaration: &'d Declaration<'a>) -> &'d [Word<'a>]
    ensures { names_of result.now ≡ parts_in (declaration_seen declaration.now) }
{
    match declaration {
        Declaration::Type(declared) => parts_behind(&declared.underlying),
        _ => &[],
    }
}

/// Returns the names to which `declaration` has edges.
fn named_in<'d, 'a>(relation: Relation, declaration: &'d Declaration<'a>) -> &'d [Word<'a>]
    ensures { names_of result.now ≡ named_in relation (declaration_seen declaration.now) }
{
    match relation {
        Relation::Supertypes => supertypes(declaration),
        Relation::Parts => parts(declaration),
    }
}

/// Adds `number`, if any.
fn add_number(row: &mut Vec<u32>, number: Option<u32>) -> Result<(), AllocError>
    ensures { OnOk result (row.new.items ≡ row.old.items ++ cons_option number []) }
{
    if let Some(number) = number {
        row.push(number)?;
    }
    Ok(())
}

/// Returns the numbers of the declared names among `words`, in order.
fn numbers_of<'a>(
    alloc: Global,
    names: &Names<'a, '_>,
    words: &[Word<'a>],
) -> Result<Vec<u32>, AllocError>
    ensures { IfOk result (λ row. row.items
        ≡ filter_map (number_of (the_schema names.now)) (names_of words.now)) }
{
    let mut row = Vec::new(alloc);
    for word in words {
        add_number(&mut row, names.find(*word))?;
    }
    Ok(row)
}

/// Returns the edges from each declaration to the declarations that it names in `relation`.
fn graph(
    alloc: Global,
    names: &Names<'_, '_>,
    relation: Relation,
) -> Result<Vec<Vec<u32>>, AllocError>
    ensures { IfOk result (λ rows.
        IsGraphOf (the_schema names.now) (named_in relation) (graph_of rows.items)) }
{
    let mut rows = Vec::new(alloc);
    for declaration in names.declarations() {
        let row = numbers_of(alloc, names, named_in(relation, declaration))?;
        rows.push(row)?;
    }
    Ok(rows)
}

/// Returns the graph of SUBTYPE OF: the edges of an entity go to its supertypes
/// (ISO 10303-11, 9.2.3).
///
/// Takes time proportional to the count of names in SUBTYPE OF.
pub fn supertype_graph(alloc: Global, names: &Names<'_, '_>) -> Result<Vec<Vec<u32>>, AllocError>
    ensures { IfOk result (λ rows.
        IsGraphOf (the_schema names.now) supertypes_in (graph_of rows.items)) }
{
    graph(alloc, names, Relation::Supertypes)
}

/// Returns the graph of the parts of defined types: the edges of a type go to the name after its
/// `=`, or to the items of its SELECT (ISO 10303-11, 8.3.2 and 8.4.2).
///
/// Takes time proportional to the count of these names.
pub fn part_graph(alloc: Global, names: &Names<'_, '_>) -> Result<Vec<Vec<u32>>, AllocError>
    ensures { IfOk result (λ rows.
        IsGraphOf (the_schema names.now) parts_in (graph_of rows.items)) }
{
    graph(alloc, names, Relation::Parts)
}
