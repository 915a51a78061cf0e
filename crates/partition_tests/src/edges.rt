//! References that are tested before they are used to find classes.

ghost use Rattle.std.specs.Prelude.{◌≡◌, ◌<◌, IfSome, true, length};
ghost use Rattle.std.specs.List.Sorted.{IsPermutation};
ghost use Rattle.partition_edges.specs.Edges.{AreEdges};
ghost use Rattle.partition_tests.specs.steps.Order.{GoesOn, IsBehind, IsBetween};

use partition_edges::edges::{Edge, Edges};
use std::alloc::Global;

/// Whether `edge` has a later source than `other`, or the same source and a later position.
fn is_behind(edge: Edge, other: Edge) -> bool
    ensures { result ≡ true → IsBehind edge other }
{
    edge.source > other.source || edge.source == other.source && edge.position > other.position
}

/// Whether a reference is between places below `size`.
fn is_between(edge: Edge, size: u32) -> bool
    ensures { result ≡ true → IsBetween size edge }
{
    edge.source < size && edge.target < size
}

/// Whether the reference at index `i` is between places below `size`, and comes after the one
/// before it.
fn goes_on(edges: &[Edge], i: usize, size: u32) -> bool
    requires { i < length edges.now }
    ensures { result ≡ true → GoesOn size edges.now i }
{
    is_between(edges[i], size) && (i == 0 || is_behind(edges[i], edges[i - 1]))
}

/// Whether these are references between places below `size`, in order.
fn are_edges(edges: &[Edge], size: u32) -> bool
    ensures { result ≡ true → AreEdges size edges.now }
{
    for i in 0..edges.len() {
        if !goes_on(edges, i, size) {
            return false;
        }
    }
    true
}

/// Returns a copy of these references; `None` if memory runs out.
fn copied(alloc: Global, edges: &[Edge]) -> Option<Vec<Edge>>
    ensures { IfSome result (λ copy. copy.items ≡ edges.now) }
{
    match edges.to_vec(alloc) {
        Ok(copy) => Some(copy),
        Err(_) => None,
    }
}

/// Returns the references between places below `size`; `None` if they aren't in order, or if memory
/// runs out.
pub(crate) fn indexed(alloc: Global, edges: &[Edge], size: u32) -> Option<Edges>
    ensures edges { IfSome result (AreEdges size) }
    ensures same { IfSome result (IsPermutation edges.entry.now) }
{
    let edges = copied(alloc, edges)?;
    if !are_edges(&edges, size) {
        return None;
    }
    match Edges::of(alloc, size, edges) {
        Ok(indexed) => Some(indexed),
        Err(_) => None,
    }
}
