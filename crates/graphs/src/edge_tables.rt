//! Lists that are collected along the edges of a graph.
ghost use Rattle.std.specs.Prelude.{◌≡◌, ℕ, ◌<◌, ◌++◌, [], All, map, length, IfOk, OnOk};
ghost use Rattle.std.specs.List.{concat};
ghost use Rattle.graphs.specs.Graphs.{IsGraph, StaysBelow, next, graph_of};
ghost use Rattle.graphs.specs.Orders.{IsOrder, IsElsewhere, AreJoined};
ghost use Rattle.graphs.specs.Rounds.{added, AreMarks};

use crate::rows::{add_new, empty_rows, unmark};
use std::alloc::{AllocError, Global};

/// Returns the list of one vertex: the lists of the vertices in `after` in turn, then `own`,
/// without repeats. All marks are cleared afterwards.
fn gather(
    alloc: Global,
    table: &[Vec<u32>],
    marks: &mut [bool],
    after: &[u32],
    own: &[u32],
) -> Result<Vec<u32>, AllocError>
    requires after { All (λ b. b < length table.now) after.now }
    requires table { StaysBelow (length marks.old) (graph_of table.now) }
    requires own { All (λ y. y < length marks.old) own.now }
    requires clean { AreMarks marks.old [] }
    ensures joined { IfOk result (λ v. v.items
        ≡ added [] (concat (map (next (graph_of table.now)) after.now) ++ own.now)) }
    ensures clean { OnOk result (AreMarks marks.new []) }
    ensures length { length marks.new ≡ length marks.old }
{
    let mut found = Vec::new(alloc);
    for b in after {
        add_new(&mut found, marks, &table[*b as usize])?;
    }
    add_new(&mut found, marks, own)?;
    unmark(marks, &found);
    found.shrink_to_fit();
    Ok(found)
}

/// Returns the lists of all vertices. It uses `marks` as working space and clears all of them
/// afterwards.
fn gather_all(
    alloc: Global,
    edges: &[Vec<u32>],
    order: &[u32],
    own: &[Vec<u32>],
    marks: &mut [bool],
) -> Result<Vec<Vec<u32>>, AllocError>
    requires graph { IsGraph (graph_of edges.now) }
    requires order { IsOrder (graph_of edges.now) order.now }
    requires own { length own.now ≡ length edges.now }
    requires below { StaysBelow (length marks.old) (graph_of own.now) }
    requires clean { AreMarks marks.old [] }
    ensures length { IfOk result (λ t. length t.items ≡ length edges.now) }
    ensures joined { IfOk result (λ t. AreJoined (graph_of edges.now) order.now (graph_of own.now)
        (graph_of t.items)) }
    ensures others { IfOk result (λ t. IsElsewhere order.now [] (next (graph_of t.items))) }
{
    let mut table = empty_rows(alloc, edges.len())?;
    for a in order {
        let row = gather(alloc, &table, marks, &edges[*a as usize], &own[*a as usize])?;
        table[*a as usize] = row;
    }
    Ok(table)
}

/// Returns for each vertex of `order` the lists of its edges' targets in turn, then its own list,
/// without repeats. A vertex that isn't in `order` has an empty list.
///
/// The numbers in `own` must be below `count`. It takes time for everything that is joined: for
/// each edge, the length of its target's list.
pub fn tables(
    alloc: Global,
    edges: &[Vec<u32>],
    order: &[u32],
    own: &[Vec<u32>],
    count: usize,
) -> Result<Vec<Vec<u32>>, AllocError>
    requires graph { IsGraph (graph_of edges.now) }
    requires order { IsOrder (graph_of edges.now) order.now }
    requires own { length own.now ≡ length edges.now }
    requires below { StaysBelow count (graph_of own.now) }
    ensures length { IfOk result (λ t. length t.items ≡ length edges.now) }
    ensures joined { IfOk result (λ t. AreJoined (graph_of edges.now) order.now (graph_of own.now)
        (graph_of t.items)) }
    ensures others { IfOk result (λ t. IsElsewhere order.now [] (next (graph_of t.items))) }
{
    let mut marks = vec![in alloc; false; count]?;
    gather_all(alloc, edges, order, own, &mut marks)
}
