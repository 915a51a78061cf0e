//! Topological orders, built one vertex at a time: a vertex is added once the targets of all its
//! edges are in the order.
ghost use Rattle.std.specs.Prelude.{
  ◌≡◌,
  ℕ,
  ◌<◌,
  ◌≤◌,
  ◌^◌,
  true,
  false,
  [],
  ◌∷◌,
  ◌++◌,
  length,
  get_or,
  set,
  All,
  OnOk,
  IfOk,
};
ghost use Rattle.graphs.specs.Graphs.{has, IsGraph, graph_of};
ghost use Rattle.graphs.specs.Rounds.{AreMarkedUpTo, AreMarks, Awaits};
ghost use Rattle.graphs.specs.Closures.{IsReversal};
ghost use Rattle.graphs.specs.Orders.{IsTopologicalOrder};
ghost use Rattle.graphs.specs.steps.Placings.{IsPlacing, Extends};

use std::alloc::{AllocError, Global};

/// Returns the first index in `row`, at `from` or later, whose vertex isn't marked. If there is
/// none, the result is at least the length of `row`.
fn first_unmarked(row: &[u32], marks: &[bool], from: usize) -> usize
    requires within { All (λ y. y < length marks.now) row.now }
    requires before { AreMarkedUpTo marks.now row.now from }
    ensures passed { AreMarkedUpTo marks.now row.now result }
    ensures unmarked { result < length row.now
        → get_or marks.now (get_or row.now result 0) false ≡ false }
{
    let mut at = from;
    while at < row.len() {
        if !marks[row[at] as usize] {
            return at;
        }
        at += 1;
    }
    at
}

/// Appends a vertex to the order, and marks it.
fn put(order: &mut Vec<u32>, marks: &mut [bool], vertex: u32) -> Result<(), AllocError>
    requires { vertex < length marks.old }
    ensures order { OnOk result (order.new.items ≡ order.old.items ++ vertex ∷ []) }
    ensures marks { OnOk result (marks.new ≡ set marks.old vertex true) }
    ensures length { length marks.new ≡ length marks.old }
{
    order.push(vertex)?;
    marks[vertex as usize] = true;
    Ok(())
}

/// Appends `vertex` to the order if it isn't there yet and the targets of all its edges are.
fn look(
    edges: &[Vec<u32>],
    order: &mut Vec<u32>,
    marks: &mut [bool],
    passed: &mut [usize],
    vertex: u32,
) -> Result<(), AllocError>
    requires graph { IsGraph (graph_of edges.now) }
    requires vertex { vertex < length edges.now }
    requires marks { length marks.old ≡ length edges.now }
    requires passed { length passed.old ≡ length edges.now }
    requires placing { IsPlacing (graph_of edges.now) order.old.items marks.old passed.old }
    ensures placing { OnOk result (IsPlacing
        (graph_of edges.now) order.new.items marks.new passed.new) }
    ensures extends { OnOk result (Extends order.old.items order.new.items) }
    ensures awaits { OnOk result ((n : ℕ) → Awaits (graph_of edges.now) order.new.items n vertex) }
    ensures marks { length marks.new ≡ length marks.old }
    ensures passed { length passed.new ≡ length passed.old }
{
    if marks[vertex as usize] {
        return Ok(());
    }
    let row = &edges[vertex as usize];
    let at = first_unmarked(row, marks, passed[vertex as usize]);
    passed[vertex as usize] = at;
    if at < row.len() {
        return Ok(());
    }
    put(order, marks, vertex)?;
    Ok(())
}

/// Tries to append each of these vertices in turn.
fn look_at_each(
    edges: &[Vec<u32>],
    order: &mut Vec<u32>,
    marks: &mut [bool],
    passed: &mut [usize],
    vertices: &[u32],
) -> Result<(), AllocError>
    requires graph { IsGraph (graph_of edges.now) }
    requires within { All (λ a. a < length edges.now) vertices.now }
    requires marks { length marks.old ≡ length edges.now }
    requires passed { length passed.old ≡ length edges.now }
    requires placing { IsPlacing (graph_of edges.now) order.old.items marks.old passed.old }
    ensures placing { OnOk result (IsPlacing
        (graph_of edges.now) order.new.items marks.new passed.new) }
    ensures extends { OnOk result (Extends order.old.items order.new.items) }
    ensures awaits { OnOk result ((a : ℕ) → has vertices.now a ≡ true → (n : ℕ)
        → n ≤ length order.old.items → Awaits (graph_of edges.now) order.new.items n a) }
    ensures marks { length marks.new ≡ length marks.old }
    ensures passed { length passed.new ≡ length passed.old }
{
    for vertex in vertices {
        look(edges, order, marks, passed, *vertex)?;
    }
    Ok(())
}

/// Tries to append each vertex of the graph once.
fn look_at_all(
    edges: &[Vec<u32>],
    order: &mut Vec<u32>,
    marks: &mut [bool],
    passed: &mut [usize],
) -> Result<(), AllocError>
    requires few { length edges.now < 2 ^ 32 }
    requires graph { IsGraph (graph_of edges.now) }
    requires marks { length marks.old ≡ length edges.now }
    requires passed { length passed.old ≡ length edges.now }
    requires placing { IsPlacing (graph_of edges.now) order.old.items marks.old passed.old }
    ensures placing { OnOk result (IsPlacing
        (graph_of edges.now) order.new.items marks.new passed.new) }
    ensures awaits { OnOk result ((a : ℕ) → a < length edges.now
        → Awaits (graph_of edges.now) order.new.items 0 a) }
    ensures marks { length marks.new ≡ length marks.old }
    ensures passed { length passed.new ≡ length passed.old }
{
    for vertex in 0..edges.len() {
        look(edges, order, marks, passed, vertex as u32)?;
    }
    Ok(())
}

/// Returns a topological order. For each vertex of the order in turn, it tries the vertices that
/// have an edge to that vertex again.
pub(crate) fn place_all(
    alloc: Global,
    edges: &[Vec<u32>],
    before: &[Vec<u32>],
    marks: &mut [bool],
    passed: &mut [usize],
) -> Result<Vec<u32>, AllocError>
    requires few { length edges.now < 2 ^ 32 }
    requires graph { IsGraph (graph_of edges.now) }
    requires before { IsReversal (graph_of edges.now) (graph_of before.now) }
    requires marks { length marks.old ≡ length edges.now }
    requires passed { length passed.old ≡ length edges.now }
    requires clean { AreMarks marks.old [] }
    requires none { (a : ℕ) → a < length passed.old → get_or passed.old a 0 ≡ 0 }
    ensures { IfOk result (λ v. IsTopologicalOrder (graph_of edges.now) v.items) }
{
    let mut order = Vec::new(alloc);
    look_at_all(edges, &mut order, marks, passed)?;
    let mut at: usize = 0;
    while at < order.len() {
        let vertex = order[at] as usize;
        look_at_each(edges, &mut order, marks, passed, &before[vertex])?;
        at += 1;
    }
    Ok(order)
}
