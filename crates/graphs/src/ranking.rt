//! Ranks: the lengths of the longest chains of edges.
ghost use Rattle.std.specs.Prelude.{◌≡◌, ℕ, ◌+◌, ◌<◌, ◌^◌, map, length, get_or, IfOk, All, max};
ghost use Rattle.graphs.specs.Graphs.{IsGraph, graph_of};
ghost use Rattle.graphs.specs.Orders.{IsOrder, IsElsewhere, above, AreRanks};

use std::alloc::{AllocError, Global};

fn greater(a: u32, b: u32) -> u32
    ensures { result ≡ max a b }
{
    if a < b { b } else { a }
}

/// Returns one more than the greatest rank of the vertices in `after`, or 0 if there are none.
fn rank_above(ranks: &[u32], after: &[u32]) -> u32
    requires within { All (λ b. b < length ranks.now) after.now }
    requires room { All (λ r. r + 1 < 2 ^ 32) ranks.now }
    ensures { result ≡ above (map (λ b. get_or ranks.now b 0) after.now) }
{
    let mut rank: u32 = 0;
    for b in after {
        let other = ranks[*b as usize];
        rank = greater(other + 1, rank);
    }
    rank
}

/// Returns the rank of each vertex: for a vertex of `order` the number of edges in the longest
/// chain from it, otherwise 0.
pub fn ranks(alloc: Global, edges: &[Vec<u32>], order: &[u32]) -> Result<Vec<u32>, AllocError>
    requires graph { IsGraph (graph_of edges.now) }
    requires order { IsOrder (graph_of edges.now) order.now }
    requires few { length order.now < 2 ^ 32 }
    ensures length { IfOk result (λ t. length t.items ≡ length edges.now) }
    ensures ranks { IfOk result (λ t. AreRanks (graph_of edges.now) order.now t.items) }
    ensures others { IfOk result (λ t. IsElsewhere order.now 0 (λ a. get_or t.items a 0)) }
{
    let mut ranks = vec![in alloc; 0; edges.len()]?;
    for a in order {
        let rank = rank_above(&ranks, &edges[*a as usize]);
        ranks[*a as usize] = rank;
    }
    Ok(ranks)
}
