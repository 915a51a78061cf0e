//! References between places, found by their targets.

ghost use Rattle.std.specs.Prelude.{◌+◌, ◌<◌, IfOk};
ghost use Rattle.std.specs.List.{All};
ghost use Rattle.std.specs.List.Sorted.{IsPermutation};
ghost use Rattle.partition_edges.specs.Edges.{AreInto};
ghost use Rattle.partition_edges.specs.steps.Index.{AreByTarget, AreStarts, IsStart};

use std::alloc::{AllocError, Global};
use std::marker::Model;

/// A reference: the place that refers, the position at which it refers, and the place that it
/// refers to. A position may be any number. At each position, a place refers to at most one place.
#[derive(Clone, Copy, Debug, PartialEq, Eq)]
pub struct Edge {
    pub position: u64,
    pub source: u32,
    pub target: u32,
}

/// References in the order of their targets, with an index by target.
#[derive(Drop)]
pub struct Edges {
    edges: Vec<Edge>,
    /// By place, the index at which the references to it begin. The last entry is where all
    /// references end.
    starts: Vec<usize>,
}

impl Model for Edges {
    ghost use Rattle.std.specs.Prelude.{List};
    ghost use Rattle.partition_edges.specs.declared.edges.Edge.{Edge};
    ghost use Rattle.partition_edges.specs.steps.Index.{AreStarts};

    ghost Value = { List Edge };

    ghost view = { λ x. x.edges.items };

    ghost invariant = { λ x. AreStarts x.edges.items x.starts.items };
}

impl Edges {
    /// Returns an index of these references, whose targets are below `size`. It may hold them in
    /// another order.
    ///
    /// It takes time by their number times its logarithm, and by `size`.
    pub fn of(alloc: Global, size: u32, edges: Vec<Edge>) -> Result<Edges, AllocError>
        requires { All (λ edge. edge.target < size) edges.items }
        ensures { IfOk result (λ x. IsPermutation edges.items x) }
    {
        let mut edges = edges;
        edges.sort_unstable_by_key(|edge| edge.target);
        let starts = starts_of(alloc, size, &edges)?;
        Ok(Edges { edges, starts })
    }

    /// Returns the references to a place, in unspecified order. They are adjacent, so there is
    /// nothing to search.
    pub fn find(&self, target: u32) -> &[Edge]
        ensures { AreInto self.now target result.now }
    {
        let at = target as usize;
        if at + 1 >= self.starts.len() {
            return &[];
        }
        let first = self.starts[at];
        let end = self.starts[at + 1];
        &self.edges[first..end]
    }
}

/// Returns the index at which the references to each place begin, and then the index at which all
/// end.
fn starts_of(alloc: Global, size: u32, edges: &[Edge]) -> Result<Vec<usize>, AllocError>
    requires sorted { AreByTarget edges.now }
    requires inside { All (λ edge. edge.target < size) edges.now }
    ensures { IfOk result (λ starts. AreStarts edges.now starts.items) }
{
    let mut starts = Vec::with_capacity(alloc, size as usize + 1)?;
    let mut at = 0;
    for target in 0..size {
        starts.push(at)?;
        at = end_from(edges, at, target);
    }
    starts.push(at)?;
    Ok(starts)
}

/// Returns the index at which the references to `target` end, if they begin at `first`.
fn end_from(edges: &[Edge], first: usize, target: u32) -> usize
    requires sorted { AreByTarget edges.now }
    requires begin { IsStart edges.now target first }
    ensures { IsStart edges.now (target + 1) result }
{
    let mut at = first;
    while at < edges.len() && edges[at].target == target {
        at += 1;
    }
    at
}
