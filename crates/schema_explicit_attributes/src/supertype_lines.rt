//! The supertype chain of each entity: itself, then the chains of its supertypes in turn.

ghost use Rattle.std.specs.Prelude.{◌≡◌, ℕ, ◌<◌, [], ◌∷◌, All, map, length, IfOk, OnOk};
ghost use Rattle.std.specs.List.{concat};
ghost use Rattle.graphs.specs.Graphs.{IsGraph, StaysBelow, next, graph_of};
ghost use Rattle.graphs.specs.Orders.{IsOrder, Solves};
ghost use Rattle.graphs.specs.Rounds.{AreMarks};
ghost use Rattle.schema_semantics.specs.Faults.{IsResolved};
ghost use Rattle.schema_names.specs.Edges.{IsGraphOf, supertypes_in};
ghost use Rattle.schema_names.specs.Schemas.{the_schema};
ghost use Rattle.schema_explicit_attributes.specs.SupertypeLines.{line_from, HaveLines};

use graphs::orders::order;
use graphs::rows::{add_new, empty_rows, unmark};
use schema_names::names::Names;
use std::alloc::{AllocError, Global};
use std::slice;

/// Returns the chain of the vertex `first` from the chains of the vertices `after`. All marks are
/// cleared.
fn line(
    alloc: Global,
    table: &[Vec<u32>],
    marks: &mut [bool],
    first: u32,
    after: &[u32],
) -> Result<Vec<u32>, AllocError>
    requires after { All (λ b. b < length table.now) after.now }
    requires table { StaysBelow (length marks.old) (graph_of table.now) }
    requires first { first < length marks.old }
    requires clean { AreMarks marks.old [] }
    ensures line { IfOk result (λ row. row.items
        ≡ line_from first (map (next (graph_of table.now)) after.now)) }
    ensures clean { OnOk result (AreMarks marks.new []) }
    ensures length { length marks.new ≡ length marks.old }
{
    let mut found = Vec::new(alloc);
    add_new(&mut found, marks, slice::from_ref(&first))?;
    for b in after {
        add_new(&mut found, marks, &table[*b as usize])?;
    }
    unmark(marks, &found);
    Ok(found)
}

/// Returns the chains of all vertices in `order`. `marks` has one cleared mark for each vertex.
fn lines_along(
    alloc: Global,
    edges: &[Vec<u32>],
    order: &[u32],
    marks: &mut [bool],
) -> Result<Vec<Vec<u32>>, AllocError>
    requires graph { IsGraph (graph_of edges.now) }
    requires order { IsOrder (graph_of edges.now) order.now }
    requires marks { length marks.old ≡ length edges.now }
    requires clean { AreMarks marks.old [] }
    ensures length { IfOk result (λ rows. length rows.items ≡ length edges.now) }
    ensures lines { IfOk result (λ rows. Solves (graph_of edges.now) order.now line_from
        (next (graph_of rows.items))) }
{
    let mut table = empty_rows(alloc, edges.len())?;
    for a in order {
        let row = line(alloc, &table, marks, *a, &edges[*a as usize])?;
        table[*a as usize] = row;
    }
    Ok(table)
}

/// Returns the supertype chain of each entity: its own number, then the chains of its supertypes in
/// turn, each number once (ISO 10303-11, 9.2.3.4).
///
/// The names of the schema are resolved, and `supertypes` is the graph of SUBTYPE OF. Takes time
/// proportional to the count of numbers that entities inherit from the chains of their supertypes.
pub fn lines(
    alloc: Global,
    names: &Names<'_, '_>,
    supertypes: &[Vec<u32>],
) -> Result<Vec<Vec<u32>>, AllocError>
    requires resolved { IsResolved (the_schema names.now) }
    requires graph { IsGraphOf (the_schema names.now) supertypes_in (graph_of supertypes.now) }
    ensures lines { IfOk result (λ rows. HaveLines (the_schema names.now) (graph_of rows.items)) }
    ensures each { IfOk result (λ rows. length rows.items
        ≡ length names.now.schema.now.declarations.items) }
{
    let order = order(alloc, supertypes)?;
    let mut marks = vec![in alloc; false; names.len()]?;
    lines_along(alloc, supertypes, &order, &mut marks)
}
