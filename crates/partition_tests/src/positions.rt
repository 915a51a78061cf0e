//! Positions of references, which are tested before they are used to find classes.

ghost use Rattle.std.specs.Prelude.{◌≡◌, ◌<◌, ℕ, true, length};
ghost use Rattle.partition_edges.specs.Edges.{HasEdge, ReferAlike};
ghost use Rattle.partition_tests.specs.steps.Order.{AllReferAt};

use partition_edges::edges::Edge;

/// Whether `place` has a reference at `position`.
fn refers_at(edges: &[Edge], place: u32, position: u64) -> bool
    ensures { result ≡ true → (t : ℕ) × HasEdge edges.now place position t }
{
    for i in 0..edges.len() {
        if edges[i].source == place && edges[i].position == position {
            return true;
        }
    }
    false
}

/// Whether all places with the shape of `place` have a reference at `position`.
fn all_refer_at(edges: &[Edge], shapes: &[u32], place: u32, position: u64) -> bool
    requires few { length shapes.now < 4294967296 }
    requires place { place < length shapes.now }
    ensures { result ≡ true → AllReferAt edges.now shapes.now place position }
{
    for z in 0..shapes.len() {
        if shapes[z] == shapes[place as usize] && !refers_at(edges, z as u32, position) {
            return false;
        }
    }
    true
}

/// Whether places of one shape have references at the same positions.
pub(crate) fn refer_alike(edges: &[Edge], shapes: &[u32]) -> bool
    requires few { length shapes.now < 4294967296 }
    ensures { result ≡ true → ReferAlike edges.now shapes.now }
{
    for i in 0..edges.len() {
        let edge = edges[i];
        if edge.source as usize >= shapes.len() {
            return false;
        }
        if !all_refer_at(edges, shapes, edge.source, edge.position) {
            return false;
        }
    }
    true
}
