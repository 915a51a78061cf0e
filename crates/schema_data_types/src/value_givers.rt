//! The declarations from which the values of an entity or a defined type come.
//!
//! A declaration *gives values by itself* if it is an entity, an enumeration, or a defined type
//! whose underlying type is a data type without a name.

ghost use Rattle.std.specs.Prelude.{◌≡◌, ℕ, length, IfOk};
ghost use Rattle.graphs.specs.Graphs.{graph_of, next};
ghost use Rattle.express_syntax.specs.Views.{
  data_type_of,
  underlying_of,
  declaration_of as declaration_seen,
};
ghost use Rattle.schema_semantics.specs.Faults.{IsResolved};
ghost use Rattle.schema_names.specs.Edges.{IsGraphOf, parts_in};
ghost use Rattle.schema_names.specs.Schemas.{the_schema};
ghost use Rattle.schema_data_types.specs.steps.Selects.{is_select_at};
ghost use Rattle.schema_data_types.specs.steps.Giving.{is_leaf, gives_by, gives_in, gives_at, one_if, own_row};
ghost use Rattle.schema_data_types.specs.steps.Gathering.{IsGathered};
ghost use Rattle.schema_data_types.specs.steps.Values.{AreParts};

use crate::edge_tables::gathered;
use crate::values::is_select;
use express_syntax::tree::{DataType, Declaration, Underlying};
use schema_names::names::Names;
use std::alloc::{AllocError, Global};

/// By declaration, what an entity or a defined type refers to through names and SELECTs.
#[derive(Drop)]
pub struct Parts {
    /// The numbers of those that give values by themselves, including the declaration itself.
    pub giving: Vec<Vec<u32>>,
    /// 0 if the declaration is a SELECT or refers to one; otherwise empty.
    pub selects: Vec<Vec<u32>>,
}

/// What is collected.
#[derive(Clone, Copy)]
enum Wanted {
    /// The numbers of the declarations that give values by themselves.
    Giving,
    /// 0 for each SELECT.
    Selects,
}

/// Whether `data_type` isn't a name.
fn is_leaf(data_type: &DataType<'_>) -> bool
    ensures { result ≡ is_leaf (data_type_of data_type.now) }
{
    match data_type {
        DataType::Named(_) => false,
        DataType::Integer | DataType::Number | DataType::Boolean | DataType::Logical => true,
        DataType::Real(_) | DataType::String(_) | DataType::Binary(_) => true,
        DataType::Array { .. } | DataType::List { .. } => true,
        DataType::Bag { .. } | DataType::Set { .. } => true,
    }
}

/// Whether a defined type with this underlying type gives values by itself.
fn gives_by(underlying: &Underlying<'_>) -> bool
    ensures { result ≡ gives_by (underlying_of underlying.now) }
{
    match underlying {
        Underlying::Enumeration(_) => true,
        Underlying::Select(_) => false,
        Underlying::DataType(data_type) => is_leaf(data_type),
    }
}

/// Whether `declaration` gives values by itself.
fn gives(declaration: &Declaration<'_>) -> bool
    ensures { result ≡ gives_in (declaration_seen declaration.now) }
{
    match declaration {
        Declaration::Entity(_) => true,
        Declaration::Type(declared) => gives_by(&declared.underlying),
        Declaration::Skipped(_) => false,
    }
}

/// Whether the declaration with this number gives values by itself.
fn gives_at(names: &Names<'_, '_>, number: u32) -> bool
    ensures { result ≡ gives_at (the_schema names.now) number }
{
    match names.at(number) {
        Some(declaration) => gives(declaration),
        None => false,
    }
}

/// Whether the declaration with this number is a SELECT.
fn is_select_at(names: &Names<'_, '_>, number: u32) -> bool
    ensures { result ≡ is_select_at (the_schema names.now) number }
{
    match names.at(number) {
        Some(declaration) => is_select(declaration),
        None => false,
    }
}

/// Returns a row of `number`, or an empty row if `is_there` is false.
fn one_if(alloc: Global, is_there: bool, number: u32) -> Result<Vec<u32>, AllocError>
    ensures { IfOk result (λ row. row.items ≡ one_if is_there number) }
{
    let mut row = Vec::new(alloc);
    if is_there {
        row.push(number)?;
    }
    Ok(row)
}

/// Returns the row of the declaration `number` alone.
fn own_row(
    alloc: Global,
    names: &Names<'_, '_>,
    wanted: Wanted,
    number: u32,
) -> Result<Vec<u32>, AllocError>
    ensures { IfOk result (λ row. row.items ≡ own_row wanted (the_schema names.now) number) }
{
    match wanted {
        Wanted::Giving => one_if(alloc, gives_at(names, number), number),
        Wanted::Selects => one_if(alloc, is_select_at(names, number), 0),
    }
}

/// Returns the row of each declaration alone.
fn own_rows(
    alloc: Global,
    names: &Names<'_, '_>,
    wanted: Wanted,
) -> Result<Vec<Vec<u32>>, AllocError>
    ensures length { IfOk result (λ t. length t.items
        ≡ length names.now.schema.now.declarations.items) }
    ensures rows { IfOk result (λ t. (i : ℕ) → next (graph_of t.items) i
        ≡ own_row wanted (the_schema names.now) i) }
{
    let mut rows = Vec::new(alloc);
    for i in 0..names.declarations().len() {
        let row = own_row(alloc, names, wanted, i as u32)?;
        rows.push(row)?;
    }
    Ok(rows)
}

/// Returns the rows of each declaration and of all that it refers to.
fn gathered_rows(
    alloc: Global,
    names: &Names<'_, '_>,
    edges: &[Vec<u32>],
    wanted: Wanted,
) -> Result<Vec<Vec<u32>>, AllocError>
    requires resolved { IsResolved (the_schema names.now) }
    requires graph { IsGraphOf (the_schema names.now) parts_in (graph_of edges.now) }
    ensures { IfOk result (λ t. IsGathered (graph_of edges.now)
        (own_row wanted (the_schema names.now)) (graph_of t.items)) }
{
    let own = own_rows(alloc, names, wanted)?;
    gathered(alloc, edges, &own, edges.len())
}

/// Returns the parts of a schema whose names are resolved. `edges` is the graph of what its defined
/// types are made of.
///
/// Takes time proportional to the count of declarations, and of the parts that each type takes over
/// from those that it is made of.
pub fn parts_of(
    alloc: Global,
    names: &Names<'_, '_>,
    edges: &[Vec<u32>],
) -> Result<Parts, AllocError>
    requires resolved { IsResolved (the_schema names.now) }
    requires graph { IsGraphOf (the_schema names.now) parts_in (graph_of edges.now) }
    ensures { IfOk result (AreParts (the_schema names.now)) }
{
    let giving = gathered_rows(alloc, names, edges, Wanted::Giving)?;
    let selects = gathered_rows(alloc, names, edges, Wanted::Selects)?;
    Ok(Parts { giving, selects })
}
