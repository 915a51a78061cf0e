//! Collecting along the edges of an acyclic graph.

ghost use Rattle.std.specs.Prelude.{◌≡◌, ◌<◌, ◌^◌, length, IfOk};
ghost use Rattle.graphs.specs.Graphs.{graph_of, next, IsGraph, StaysBelow, IsAcyclic};
ghost use Rattle.schema_data_types.specs.steps.Gathering.{IsGathered};

use graphs::edge_tables::tables;
use graphs::orders::order;
use std::alloc::{AllocError, Global};

/// Returns for each vertex of an acyclic graph the numbers of its own list, and of the lists of all
/// vertices that it reaches, each once.
///
/// The lists have numbers below `count`. Takes time proportional to the count of vertices, plus,
/// for each edge, the length of the resulting row of its end.
pub fn gathered(
    alloc: Global,
    edges: &[Vec<u32>],
    own: &[Vec<u32>],
    count: usize,
) -> Result<Vec<Vec<u32>>, AllocError>
    requires graph { IsGraph (graph_of edges.now) }
    requires acyclic { IsAcyclic (graph_of edges.now) }
    requires few { length edges.now < 2 ^ 32 }
    requires own { length own.now ≡ length edges.now }
    requires below { StaysBelow count (graph_of own.now) }
    ensures { IfOk result (λ t. IsGathered (graph_of edges.now) (next (graph_of own.now))
        (graph_of t.items)) }
{
    let order = order(alloc, edges)?;
    tables(alloc, edges, &order, own, count)
}
