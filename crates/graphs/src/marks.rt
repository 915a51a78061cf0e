//! Marks that spread from vertices to all vertices under them.

ghost use Rattle.std.specs.Prelude.{◌≡◌, ◌<◌, ◌^◌, ◌||◌, length, IfOk};
ghost use Rattle.graphs.specs.Graphs.{graph_of};
ghost use Rattle.graphs.specs.Orders.{IsOrder};
ghost use Rattle.graphs.specs.steps.Forests.{IsForest};
ghost use Rattle.graphs.specs.steps.Marking.{AreSpread, GoDown};

use crate::orders::order;
use crate::parents::parent;
use std::alloc::{AllocError, Global};

fn either(first: bool, second: bool) -> bool
    ensures { result ≡ (first || second) }
{
    first || second
}

/// Spreads marks along an order, parents first.
fn spread_along(
    alloc: Global,
    edges: &[Vec<u32>],
    order: &[u32],
    marked: &[bool],
) -> Result<Vec<bool>, AllocError>
    requires forest { IsForest (graph_of edges.now) }
    requires few { length edges.now < 2 ^ 32 }
    requires marked { length marked.now ≡ length edges.now }
    requires order { IsOrder (graph_of edges.now) order.now }
    ensures { IfOk result (λ v. GoDown (graph_of edges.now) order.now marked.now v.items) }
{
    let mut marks = vec![in alloc; false; edges.len() + 1]?;
    for vertex in order {
        let above = marks[parent(edges, *vertex)];
        marks[*vertex as usize] = either(marked[*vertex as usize], above);
    }
    Ok(marks)
}

/// Returns by vertex whether it is marked or under a marked one. It takes time for each vertex
/// once.
pub fn spread(alloc: Global, edges: &[Vec<u32>], marked: &[bool]) -> Result<Vec<bool>, AllocError>
    requires forest { IsForest (graph_of edges.now) }
    requires few { length edges.now < 2 ^ 32 }
    requires marked { length marked.now ≡ length edges.now }
    ensures { IfOk result (λ v. AreSpread (graph_of edges.now) marked.now v.items) }
{
    let order = order(alloc, edges)?;
    spread_along(alloc, edges, &order, marked)
}
