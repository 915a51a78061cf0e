//! Topological orders.
ghost use Rattle.std.specs.Prelude.{◌≡◌, ℕ, ◌<◌, ◌^◌, length, IfOk};
ghost use Rattle.graphs.specs.Graphs.{IsGraph, graph_of};
ghost use Rattle.graphs.specs.Orders.{IsTopologicalOrder};

use crate::closures::reversal;
use crate::order_building::place_all;
use std::alloc::{AllocError, Global};

/// Returns the vertices that reach no cycle, each after the targets of its edges.
///
/// A missing vertex lies on a cycle or reaches one, so in an acyclic graph no vertex is missing. It
/// takes time for each vertex and edge once.
pub fn order(alloc: Global, edges: &[Vec<u32>]) -> Result<Vec<u32>, AllocError>
    requires graph { IsGraph (graph_of edges.now) }
    requires few { length edges.now < 2 ^ 32 }
    ensures { IfOk result (λ v. IsTopologicalOrder (graph_of edges.now) v.items) }
{
    let before = reversal(alloc, edges)?;
    let mut marks = vec![in alloc; false; edges.len()]?;
    let mut passed = vec![in alloc; 0; edges.len()]?;
    place_all(alloc, edges, &before, &mut marks, &mut passed)
}
