//! Forests, represented by the spans of their vertices.

ghost use Rattle.std.specs.Prelude.{◌≡◌, ◌<◌, ◌^◌, length, IfOk};
ghost use Rattle.graphs.specs.Graphs.{graph_of};
ghost use Rattle.graphs.specs.steps.Forests.{IsForest};
ghost use Rattle.graphs.specs.steps.Telling.{is_under, Tells};

use crate::orders::order;
use crate::spans::{firsts_of, sizes_of};
use std::alloc::{AllocError, Global};

/// An index of a forest that reports which vertex is under which.
///
/// The vertices are in a row, each after its parent, so that the vertices under a vertex directly
/// follow it. A vertex is under another one if it is in the other's span.
#[derive(Drop)]
pub struct Forest {
    /// By vertex, its position in the row.
    firsts: Vec<usize>,
    /// By vertex, the number of vertices in its span, itself included.
    sizes: Vec<usize>,
}

impl Forest {
    /// Returns the index of the forest with these edges. It takes time for each vertex once.
    pub fn of(alloc: Global, edges: &[Vec<u32>]) -> Result<Forest, AllocError>
        requires forest { IsForest (graph_of edges.now) }
        requires few { length edges.now < 2 ^ 32 }
        ensures { IfOk result (Tells (graph_of edges.now)) }
    {
        let order = order(alloc, edges)?;
        let spans = sizes_of(alloc, edges, &order)?;
        let firsts = firsts_of(alloc, edges, &order, &spans)?;
        Ok(Forest {
            firsts,
            sizes: spans.sizes,
        })
    }

    /// Whether `vertex` is `other`, or edges lead from `vertex` to `other`. If either isn't a
    /// vertex, the result means nothing. It takes constant time.
    pub fn is_under(&self, vertex: u32, other: u32) -> bool
        ensures { result ≡ is_under self.now vertex other }
    {
        let Some(at) = self.firsts.get(vertex as usize) else {
            return false;
        };
        let Some(first) = self.firsts.get(other as usize) else {
            return false;
        };
        let Some(size) = self.sizes.get(other as usize) else {
            return false;
        };
        if *at < *first {
            return false;
        }
        *at - *first < *size
    }
}
