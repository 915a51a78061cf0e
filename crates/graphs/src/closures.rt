//! Transitive closures and reversed edges.
ghost use Rattle.std.specs.Prelude.{◌<◌, ◌^◌, length, IfOk};
ghost use Rattle.graphs.specs.Graphs.{IsGraph, graph_of};
ghost use Rattle.graphs.specs.Closures.{IsClosure, IsReversal};

use crate::rows::{add_to_rows, empty_rows};
use crate::search::reached;
use std::alloc::{AllocError, Global};

/// Returns for each vertex the vertices that it reaches by one or more edges, each vertex once. The
/// graph may have cycles.
///
/// It takes time for the edges of all vertices reached from each vertex, and memory for the result.
pub fn closure(alloc: Global, edges: &[Vec<u32>]) -> Result<Vec<Vec<u32>>, AllocError>
    requires graph { IsGraph (graph_of edges.now) }
    requires few { length edges.now < 2 ^ 32 }
    ensures { IfOk result (λ t. IsClosure (graph_of edges.now) (graph_of t.items)) }
{
    let mut marks = vec![in alloc; false; edges.len()]?;
    let mut rows = Vec::new(alloc);
    for from in 0..edges.len() {
        let row = reached(alloc, edges, &mut marks, from as u32)?;
        rows.push(row)?;
    }
    Ok(rows)
}

/// Returns the graph with every edge reversed: row `b` lists the vertices that have an edge to `b`.
pub fn reversal(alloc: Global, edges: &[Vec<u32>]) -> Result<Vec<Vec<u32>>, AllocError>
    requires graph { IsGraph (graph_of edges.now) }
    requires few { length edges.now < 2 ^ 32 }
    ensures { IfOk result (λ t. IsReversal (graph_of edges.now) (graph_of t.items)) }
{
    let mut rows = empty_rows(alloc, edges.len())?;
    for from in 0..edges.len() {
        add_to_rows(&mut rows, &edges[from], from as u32)?;
    }
    Ok(rows)
}
