//! The search from one vertex.
ghost use Rattle.std.specs.Prelude.{◌≡◌, ℕ, ◌<◌, true, [], length, IfOk, OnOk, eqb, ◌↔◌};
ghost use Rattle.std.specs.List.{IsDistinct};
ghost use Rattle.graphs.specs.Graphs.{has, IsGraph, Reaches, graph_of};
ghost use Rattle.graphs.specs.Rounds.{AreMarks};

use crate::rows::{add_new, unmark};
use std::alloc::{AllocError, Global};

/// Returns the vertices that `from` reaches, each once. All marks are cleared afterwards.
pub(crate) fn reached(
    alloc: Global,
    edges: &[Vec<u32>],
    marks: &mut [bool],
    from: u32,
) -> Result<Vec<u32>, AllocError>
    requires graph { IsGraph (graph_of edges.now) }
    requires from { from < length edges.now }
    requires length { length marks.old ≡ length edges.now }
    requires clean { AreMarks marks.old [] }
    ensures reached { IfOk result (λ v. (b : ℕ)
        → has v.items b ≡ true ↔ Reaches (graph_of edges.now) from b) }
    ensures once { IfOk result (λ v. IsDistinct eqb v.items) }
    ensures clean { OnOk result (AreMarks marks.new []) }
    ensures length { length marks.new ≡ length marks.old }
{
    let mut found = Vec::new(alloc);
    add_new(&mut found, marks, &edges[from as usize])?;
    let mut at: usize = 0;
    while at < found.len() {
        let x = found[at] as usize;
        add_new(&mut found, marks, &edges[x])?;
        at += 1;
    }
    unmark(marks, &found);
    found.shrink_to_fit();
    Ok(found)
}
