//! The check that splits have their grounds.

ghost use Rattle.std.specs.Prelude.{◌≡◌, ◌<◌, ◌↔◌, IfOk, IsTrue, length};
ghost use Rattle.std.specs.List.{All};
ghost use Rattle.partition_edges.specs.Edges.{AreEdges};
ghost use Rattle.split_checks.specs.steps.Births.{AreBirths};
ghost use Rattle.split_checks.specs.steps.Grounds.{HaveGrounds};

use crate::births::Birth;
use crate::group_walk::have_ground;
use crate::moves::moves;
use partition_edges::edges::Edges;
use std::alloc::{AllocError, Global};

/// Whether each split has its ground. It has none if it separates two places at a round that share
/// a class at the round before, have one shape, and refer at each position to equivalent targets.
///
/// The class numbers are below `classes`. Each class is split off at most one other, after round 0,
/// and later than that one was split off itself. `last` has by place its class in the end. At a
/// round, a place is in the nearest class that existed by then, from its last class up the parents.
/// There are fewer than 2^32 places.
///
/// `own` and `shapes` have a number for each place. Two places are equivalent targets at a round if
/// they share a class then and their numbers in `own` are equal. So a place with a unique number is
/// equivalent only to itself. Two places have one shape if their numbers in `shapes` are equal. At
/// each position a place refers to at most one other.
///
/// It takes time by the number of places, references and classes times at most the square of its
/// logarithm, whatever the births.
pub fn have_grounds(
    alloc: Global,
    classes: usize,
    births: Vec<Birth>,
    last: &[u32],
    own: &[u32],
    shapes: &[u32],
    edges: &Edges,
) -> Result<bool, AllocError>
    requires births { AreBirths classes births.items }
    requires known { All (λ c. c < classes) last.now }
    requires few { length last.now < 4294967296 }
    requires own { length own.now ≡ length last.now }
    requires shapes { length shapes.now ≡ length last.now }
    requires edges { AreEdges (length last.now) edges.now }
    ensures { IfOk result (λ b. IsTrue b ↔ HaveGrounds births.items last.now own.now shapes.now
        edges.now) }
{
    let moves = moves(alloc, classes, births, last)?;
    have_ground(alloc, own, shapes, edges, &moves)
}
