//! The first vertex on a cycle.
ghost use Rattle.std.specs.Prelude.{
  ◌≡◌,
  ℕ,
  ◌<◌,
  ◌^◌,
  true,
  false,
  [],
  length,
  get_or,
  IfOk,
  OnOk,
  All,
  MatchBool,
};
ghost use Rattle.graphs.specs.Graphs.{IsGraph, IsCyclic, graph_of};
ghost use Rattle.graphs.specs.Closures.{IsFirstCyclic};
ghost use Rattle.graphs.specs.Rounds.{AreMarks};

use crate::orders::order;
use crate::search::reached;
use std::alloc::{AllocError, Global};

/// Returns `count` marks, of which exactly those at `numbers` are set.
fn marks_on(alloc: Global, count: usize, numbers: &[u32]) -> Result<Vec<bool>, AllocError>
    requires { All (λ b. b < count) numbers.now }
    ensures length { IfOk result (λ v. length v.items ≡ count) }
    ensures marks { IfOk result (λ v. AreMarks v.items numbers.now) }
{
    let mut marks = vec![in alloc; false; count]?;
    for number in numbers {
        marks[*number as usize] = true;
    }
    Ok(marks)
}

/// Whether `vertex` lies on a cycle. All marks are cleared afterwards. A placed vertex lies on no
/// cycle, so it isn't searched from.
fn is_cyclic(
    alloc: Global,
    edges: &[Vec<u32>],
    placed: &[bool],
    marks: &mut [bool],
    vertex: u32,
) -> Result<bool, AllocError>
    requires graph { IsGraph (graph_of edges.now) }
    requires vertex { vertex < length edges.now }
    requires placed { length placed.now ≡ length edges.now }
    requires acyclic { get_or placed.now vertex false ≡ true → IsCyclic (graph_of edges.now) vertex
        → ⊥ }
    requires length { length marks.old ≡ length edges.now }
    requires clean { AreMarks marks.old [] }
    ensures cyclic { IfOk result (λ is. MatchBool is (IsCyclic (graph_of edges.now) vertex)
        (IsCyclic (graph_of edges.now) vertex → ⊥)) }
    ensures clean { OnOk result (AreMarks marks.new []) }
    ensures length { length marks.new ≡ length marks.old }
{
    if placed[vertex as usize] {
        return Ok(false);
    }
    let row = reached(alloc, edges, marks, vertex)?;
    Ok(row.contains(&vertex))
}

/// Returns the first vertex on a cycle, if any, by a search from each vertex that isn't placed.
fn search_each(
    alloc: Global,
    edges: &[Vec<u32>],
    placed: &[bool],
    marks: &mut [bool],
) -> Result<Option<u32>, AllocError>
    requires graph { IsGraph (graph_of edges.now) }
    requires few { length edges.now < 2 ^ 32 }
    requires placed { length placed.now ≡ length edges.now }
    requires acyclic { (a : ℕ) → get_or placed.now a false ≡ true → IsCyclic (graph_of edges.now) a
        → ⊥ }
    requires length { length marks.old ≡ length edges.now }
    requires clean { AreMarks marks.old [] }
    ensures { IfOk result (λ a. IsFirstCyclic (graph_of edges.now) a) }
{
    for vertex in 0..edges.len() {
        if is_cyclic(alloc, edges, placed, marks, vertex as u32)? {
            return Ok(Some(vertex as u32));
        }
    }
    Ok(None)
}

/// Returns the first vertex on a cycle, if any.
///
/// In an acyclic graph it takes time for each vertex and edge once. Otherwise it also takes time
/// for a search from each vertex that reaches a cycle, up to the first vertex that lies on one.
pub fn first_cyclic(alloc: Global, edges: &[Vec<u32>]) -> Result<Option<u32>, AllocError>
    requires graph { IsGraph (graph_of edges.now) }
    requires few { length edges.now < 2 ^ 32 }
    ensures { IfOk result (λ a. IsFirstCyclic (graph_of edges.now) a) }
{
    let order = order(alloc, edges)?;
    let placed = marks_on(alloc, edges.len(), &order)?;
    let mut marks = vec![in alloc; false; edges.len()]?;
    search_each(alloc, edges, &placed, &mut marks)
}
