//! Spans: the vertices of a forest in a row, in which the vertices under a vertex directly follow
//! it.

ghost use Rattle.std.specs.Prelude.{◌≡◌, ◌<◌, ◌+◌, ◌^◌, [], get_or, length, set, IfOk};
ghost use Rattle.graphs.specs.Graphs.{graph_of};
ghost use Rattle.graphs.specs.Orders.{IsOrder};
ghost use Rattle.graphs.specs.steps.Forests.{IsForest, IsComplete};
ghost use Rattle.graphs.specs.steps.Spans.{Sized, ArePlaced};

use crate::parents::parent;
use std::alloc::{AllocError, Global};

/// The lengths of spans, and where they begin.
#[derive(Drop)]
pub(crate) struct Sizes {
    /// By vertex, where its span begins, relative to the span of its parent.
    pub starts: Vec<usize>,
    /// By vertex, the number of vertices in its span, itself included. The last entry is the number
    /// of all vertices, plus one.
    pub sizes: Vec<usize>,
}

impl Sizes {
    /// Appends the span of a vertex to what the span of its parent holds so far.
    fn put_under(&mut self, vertex: usize, parent: usize)
        requires vertex { vertex < length self.old.starts.items }
        requires size { vertex < length self.old.sizes.items }
        requires parent { parent < length self.old.sizes.items }
        requires room { get_or self.old.sizes.items parent 0
            + get_or self.old.sizes.items vertex 0 < 2 ^ 64 }
        ensures starts { self.new.starts.items
            ≡ set self.old.starts.items vertex (get_or self.old.sizes.items parent 0) }
        ensures sizes { self.new.sizes.items ≡ set self.old.sizes.items parent
            (get_or self.old.sizes.items parent 0 + get_or self.old.sizes.items vertex 0) }
    {
        let before = self.sizes[parent];
        self.starts[vertex] = before;
        self.sizes[parent] = before + self.sizes[vertex];
    }
}

/// Returns the sizes of all spans. It goes through the order from the last vertex to the first.
pub(crate) fn sizes_of(
    alloc: Global,
    edges: &[Vec<u32>],
    order: &[u32],
) -> Result<Sizes, AllocError>
    requires forest { IsForest (graph_of edges.now) }
    requires few { length edges.now < 2 ^ 32 }
    requires order { IsOrder (graph_of edges.now) order.now }
    requires complete { IsComplete (graph_of edges.now) order.now }
    ensures { IfOk result (λ s. Sized (graph_of edges.now) [] s.starts.items s.sizes.items) }
{
    let starts = vec![in alloc; 0; edges.len()]?;
    let sizes = vec![in alloc; 1; edges.len() + 1]?;
    let mut spans = Sizes { starts, sizes };
    let mut left = order.len();
    while left > 0 {
        left -= 1;
        let vertex = order[left];
        spans.put_under(vertex as usize, parent(edges, vertex));
    }
    Ok(spans)
}

/// Returns where the span of each vertex begins in the row, parents first.
pub(crate) fn firsts_of(
    alloc: Global,
    edges: &[Vec<u32>],
    order: &[u32],
    spans: &Sizes,
) -> Result<Vec<usize>, AllocError>
    requires forest { IsForest (graph_of edges.now) }
    requires few { length edges.now < 2 ^ 32 }
    requires order { IsOrder (graph_of edges.now) order.now }
    requires sized { Sized (graph_of edges.now) [] spans.now.starts.items spans.now.sizes.items }
    ensures { IfOk result (λ v. ArePlaced (graph_of edges.now) order.now spans.now.starts.items
        spans.now.sizes.items v.items) }
{
    let mut firsts = vec![in alloc; 0; edges.len() + 1]?;
    for vertex in order {
        let above = firsts[parent(edges, *vertex)];
        firsts[*vertex as usize] = above + spans.starts[*vertex as usize];
    }
    Ok(firsts)
}
