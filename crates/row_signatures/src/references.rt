//! The references outside bags of more than one value, as edges between positions of rows.

ghost use Rattle.std.specs.Prelude.{
  ◌≡◌,
  ◌<◌,
  ◌≤◌,
  ◌∷◌,
  ◌↔◌,
  [],
  ℕ,
  length,
  slice_get,
  IfOk,
  OnOk,
  Some,
};
ghost use Rattle.std.specs.List.{All, sum_by};
ghost use Rattle.partition_edges.specs.Edges.{AreEdges, HasEdge};
ghost use Rattle.value_equality.specs.Rows.{IsName, names};
ghost use Rattle.step_values.specs.References.{EachReference, EachReferenceOf};
ghost use Rattle.step_values.specs.Shapes.{outside, outside_each};
ghost use Rattle.step_values.specs.steps.Slots.{kind_of, node_value};
ghost use Rattle.step_values.specs.steps.Targets.{target_of, targets_of};
ghost use Rattle.step_values.specs.Values.{bag};
ghost use Rattle.row_signatures.specs.steps.ComputedReferences.{AddsEdges, leads_on};
ghost use Rattle.row_signatures.specs.steps.References.{Refers};

use partition_edges::edges::Edge;
use std::alloc::{AllocError, Global};
use step_values::cell::Cell;
use step_values::slot::{Kind, Node, Slot, Slots};
use value_equality::plain::Plain;

/// Returns the references that are in no bag of more than one value. Each is one edge, from the
/// position of the row that refers to the position of the row that is named. `position` counts from
/// 0 within the row, in the order of its values.
///
/// The memory is proportional to the number of all references, including those in bags.
pub fn references<'a>(alloc: Global, input: &Plain<'a>) -> Result<Vec<Edge>, AllocError>
    ensures edges { IfOk result (λ edges. AreEdges (length input.now) edges.items) }
    ensures references { IfOk result (λ edges. (x i t : ℕ) → HasEdge edges.items x i t
        ↔ Refers input.now x i t) }
    ensures count { IfOk result (λ edges. length edges.items
        ≡ sum_by (λ r. length (outside_each r.values)) input.now) }
    ensures targets { IfOk result (λ edges.
        All (λ edge. edge.target < length input.now) edges.items) }
{
    let mut edges = Vec::with_capacity(alloc, reference_count(input.cells()))?;
    for place in 0..input.len() {
        let first = edges.len();
        let row = input.row(place);
        push_each(&mut edges, input, place as u32, first, &row.values)?;
    }
    Ok(edges)
}

/// Returns the number of references among these cells, including those in bags.
fn reference_count<'a>(cells: &[Cell<'a>]) -> usize
    ensures { result ≡ length (targets_of cells.now) }
{
    let mut count = 0;
    for place in 0..cells.len() {
        count += references_at(&cells[place]);
    }
    count
}

/// Returns the number of references that a cell is: 0 or 1.
fn references_at<'a>(cell: &Cell<'a>) -> usize
    ensures exact { result ≡ length (target_of cell.now) }
    ensures one { result ≤ 1 }
{
    match cell {
        Cell::Reference { .. } => 1,
        _ => 0,
    }
}

/// Returns the position of the row with this name: `told`, if the row there has the name.
fn place_of<'a>(input: &Plain<'a>, name: u64, told: u32) -> u32
    requires { IsName input.now name }
    ensures { slice_get (names input.now) result ≡ Some name }
{
    // The contract of `len` says that positions have numbers of 32 bits.
    let rows = input.len();
    if (told as usize) < rows && input.name(told as usize) == name {
        return told;
    }
    match input.find(name) {
        None => 0,
        Some(place) => place as u32,
    }
}

/// Adds the edge from row `source` to the row with this name, which is mostly `row`. The edges of
/// `source` begin at index `first`.
fn push_edge<'a>(
    edges: &mut Vec<Edge>,
    input: &Plain<'a>,
    source: u32,
    first: usize,
    name: u64,
    row: u32,
) -> Result<(), AllocError>
    requires named { IsName input.now name }
    requires first { first ≤ length edges.old.items }
    ensures { OnOk result (AddsEdges input.now source first (name ∷ []) edges.old.items
        edges.new.items) }
{
    let position = (edges.len() - first) as u64;
    let target = place_of(input, name, row);
    edges.push(Edge {
        position,
        source,
        target,
    })?;
    Ok(())
}

/// Whether a value is a reference, or can contain references.
fn leads_on(value: &Slot<'_, '_>) -> bool
    ensures { result ≡ leads_on (kind_of value.now) }
{
    matches!(
        value.kind(),
        Kind::Reference | Kind::Typed | Kind::List | Kind::Bag
    )
}

/// Adds the edges of a value, in order. Most values contain no reference, which their kind already
/// shows. The depth of the recursion is that of the value, which the reader of texts limits.
#[cycle(edges)]
fn push_edges<'a>(
    edges: &mut Vec<Edge>,
    input: &Plain<'a>,
    source: u32,
    first: usize,
    value: &Slot<'_, 'a>,
) -> Result<(), AllocError>
    requires named { EachReference (IsName input.now) value.now }
    requires first { first ≤ length edges.old.items }
    ensures { OnOk result (AddsEdges input.now source first (outside value.now) edges.old.items
        edges.new.items) }
{
    if !leads_on(value) {
        return Ok(());
    }
    push_node_edges(edges, input, source, first, &value.node())
}

/// Adds the edges of a value with this outermost part, in order.
#[cycle(edges)]
fn push_node_edges<'a>(
    edges: &mut Vec<Edge>,
    input: &Plain<'a>,
    source: u32,
    first: usize,
    node: &Node<'_, 'a>,
) -> Result<(), AllocError>
    requires named { EachReference (IsName input.now) (node_value node.now) }
    requires first { first ≤ length edges.old.items }
    ensures { OnOk result (AddsEdges input.now source first (outside (node_value node.now))
        edges.old.items edges.new.items) }
{
    match node {
        Node::Reference(name, row) => push_edge(edges, input, source, first, *name, *row),
        Node::Typed(_, inner) => push_edges(edges, input, source, first, inner),
        Node::Sequence(values) => push_each(edges, input, source, first, values),
        Node::Bag(values) => push_bag(edges, input, source, first, values),
        _ => Ok(()),
    }
}

/// Adds the edges of a bag: none if it has more than one value.
#[cycle(edges)]
fn push_bag<'a>(
    edges: &mut Vec<Edge>,
    input: &Plain<'a>,
    source: u32,
    first: usize,
    values: &Slots<'_, 'a>,
) -> Result<(), AllocError>
    requires named { EachReferenceOf (IsName input.now) values.now }
    requires first { first ≤ length edges.old.items }
    ensures { OnOk result (AddsEdges input.now source first (outside (bag values.now))
        edges.old.items edges.new.items) }
{
    if values.is_crowd() {
        return Ok(());
    }
    push_each(edges, input, source, first, values)
}

/// Adds the edges of some values, in order.
#[cycle(edges)]
fn push_each<'a>(
    edges: &mut Vec<Edge>,
    input: &Plain<'a>,
    source: u32,
    first: usize,
    values: &Slots<'_, 'a>,
) -> Result<(), AllocError>
    requires named { EachReferenceOf (IsName input.now) values.now }
    requires first { first ≤ length edges.old.items }
    ensures { OnOk result (AddsEdges input.now source first (outside_each values.now)
        edges.old.items edges.new.items) }
{
    for i in 0..values.len() {
        push_edges(edges, input, source, first, &values.at(i))?;
    }
    Ok(())
}
