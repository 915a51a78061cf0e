//! Classes that are found and numbered.

ghost use Rattle.std.specs.Prelude.{◌≡◌, ◌<◌, length};
ghost use Rattle.partition_edges.specs.Edges.{AreEdges, ReferAlike};

use crate::edges::indexed;
use crate::positions::refer_alike;
use partition_edges::edges::{Edge, Edges};
use partition_edges::round_zero::start;
use partition_refinement::number_laws::refined_are_counted;
use partition_refinement::numbering::{Numbering, number};
use partition_refinement::refinement::refine;
use std::alloc::Global;

/// The outcome of a refinement.
#[derive(Drop)]
pub(crate) struct Found {
    /// The number of classes after each round.
    pub(crate) counts: Vec<u32>,
    /// The number of places and references that were examined.
    pub(crate) signed: u64,
    pub(crate) numbering: Numbering,
}

/// Returns the classes of places with these kinds, shapes and references; `None` if memory runs
/// out.
fn numbered(alloc: Global, kinds: &[u32], shapes: &[u32], edges: &Edges) -> Option<Found>
    requires few { length kinds.now < 4294967296 }
    requires each { length shapes.now ≡ length kinds.now }
    requires edges { AreEdges (length kinds.now) edges.now }
    requires alike { ReferAlike edges.now shapes.now }
{
    let mut parts = start(alloc, kinds).ok()?;
    let rounds = refine(alloc, &mut parts, edges, shapes).ok()?;
    refined_are_counted();
    let numbering = number(alloc, parts, &rounds.counts).ok()?;
    Some(Found {
        counts: rounds.counts,
        signed: rounds.signed,
        numbering,
    })
}

/// Returns the classes of places with these kinds, shapes and references. Returns `None` if the
/// references aren't in order, the shapes aren't as many as the kinds, places of one shape refer at
/// different positions, or memory runs out.
pub(crate) fn find(alloc: Global, kinds: &[u32], shapes: &[u32], edges: &[Edge]) -> Option<Found> {
    let size = u32::try_from(kinds.len()).ok()?;
    if shapes.len() != kinds.len() || !refer_alike(edges, shapes) {
        return None;
    }
    let edges = indexed(alloc, edges, size)?;
    numbered(alloc, kinds, shapes, &edges)
}
