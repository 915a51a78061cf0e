//! The parents of vertices in a forest.

ghost use Rattle.std.specs.Prelude.{◌≡◌, ◌<◌, length};
ghost use Rattle.graphs.specs.Graphs.{graph_of};
ghost use Rattle.graphs.specs.steps.Forests.{parent};

/// Returns the target of the first edge from `vertex`. If it has no edge, returns the number of
/// vertices.
pub(crate) fn parent(edges: &[Vec<u32>], vertex: u32) -> usize
    requires { vertex < length edges.now }
    ensures { result ≡ parent (graph_of edges.now) vertex }
{
    match edges[vertex as usize].first() {
        Some(other) => *other as usize,
        None => edges.len(),
    }
}
