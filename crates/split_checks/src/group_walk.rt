//! Groups of places that shapes and references don't distinguish, round by round.

ghost use Rattle.std.specs.Prelude.{◌≡◌, ◌<◌, ◌≤◌, ◌↔◌, ℕ, IfOk, IsTrue, OnOk, length};
ghost use Rattle.std.specs.List.{All};
ghost use Rattle.partitions.specs.Layouts.{count, size, IsLaid, NoneIsChosen};
ghost use Rattle.partitions.specs.Views.{layout};
ghost use Rattle.partition_edges.specs.Edges.{AreEdges};
ghost use Rattle.split_checks.specs.steps.ComputedWalk.{
  IsBegun,
  IsGrouped,
  IsRun,
  IsSettled,
  IsStep,
  IsTried,
  MovesHaveGrounds,
};
ghost use Rattle.split_checks.specs.steps.Moves.{AreFalling, round_at};

use partition_edges::edge_keys::gather;
use partition_edges::edges::Edges;
use partition_edges::round_zero::start;
use partitions::pairs::Pair;
use partitions::parts::Parts;
use std::alloc::{AllocError, Global};

/// Returns the index at which the pairs of `round` begin that end at index `end`. No pair before
/// `end` has an earlier round.
fn run_start(moves: &[Pair], end: usize, round: u32) -> usize
    requires within { end ≤ length moves.now }
    requires falling { AreFalling moves.now }
    requires low { (k : ℕ) → k < end → round ≤ round_at moves.now k }
    ensures { IsRun moves.now round result end }
{
    let mut first = end;
    while first > 0 && moves[first - 1].class == round {
        first -= 1;
    }
    first
}

/// Returns the partition in which places share a class if they have the same number and the same
/// pairs.
fn begin(alloc: Global, numbers: &[u32], run: &[Pair]) -> Result<Parts, AllocError>
    requires few { length numbers.now < 4294967296 }
    requires places { All (λ pair. pair.place < length numbers.now) run.now }
    ensures { IfOk result (λ p. IsBegun numbers.now run.now (layout p)) }
{
    let mut parts = start(alloc, numbers)?;
    parts.part_by_pairs(alloc, run.to_vec(alloc)?)?;
    Ok(parts)
}

/// Returns the number of classes, which is at most the number of places.
fn class_count(parts: &Parts) -> u32
    requires { IsLaid (layout parts.now) }
    ensures { result ≡ count (layout parts.now) }
{
    parts.count() as u32
}

/// Whether these pairs split no group. If they do, the groups are changed.
fn stay_whole(alloc: Global, groups: &mut Parts, pairs: Vec<Pair>) -> Result<bool, AllocError>
    requires laid { IsLaid (layout groups.old) }
    requires settled { NoneIsChosen (layout groups.old) }
    requires places { All (λ pair. pair.place < size (layout groups.old)) pairs.items }
    ensures { IfOk result (λ b. IsTried pairs.items (layout groups.old) (layout groups.new) b) }
{
    let before = groups.count();
    groups.part_by_pairs(alloc, pairs)?;
    Ok(groups.count() == before)
}

/// Splits groups by the references to the labels from `low` on.
fn part_groups(
    alloc: Global,
    labels: &Parts,
    groups: &mut Parts,
    edges: &Edges,
    low: u32,
) -> Result<(), AllocError>
    requires laid { IsLaid (layout labels.now) }
    requires settled { IsSettled (size (layout labels.now)) (layout groups.old) }
    requires edges { AreEdges (size (layout labels.now)) edges.now }
    requires known { low ≤ count (layout labels.now) }
    ensures { OnOk result (IsGrouped edges.now low (layout labels.now) (layout groups.old)
        (layout groups.new)) }
{
    let high = class_count(labels);
    let pairs = gather(alloc, labels, groups, edges, low, high)?;
    groups.part_by_pairs(alloc, pairs)
}

/// Whether the pairs of a round split no group. If so, it splits the labels by these pairs, and the
/// groups by the new labels.
fn step(
    alloc: Global,
    labels: &mut Parts,
    groups: &mut Parts,
    edges: &Edges,
    run: &[Pair],
) -> Result<bool, AllocError>
    requires labels { IsSettled (size (layout groups.old)) (layout labels.old) }
    requires groups { IsSettled (size (layout groups.old)) (layout groups.old) }
    requires edges { AreEdges (size (layout groups.old)) edges.now }
    requires places { All (λ pair. pair.place < size (layout groups.old)) run.now }
    ensures { IfOk result (λ b. IsStep edges.now run.now (layout labels.old) (layout labels.new)
        (layout groups.old) (layout groups.new) b) }
{
    if !stay_whole(alloc, groups, run.to_vec(alloc)?)? {
        return Ok(false);
    }
    let low = class_count(labels);
    labels.part_by_pairs(alloc, run.to_vec(alloc)?)?;
    part_groups(alloc, labels, groups, edges, low)?;
    Ok(true)
}

/// Whether no round splits places that aren't distinguished. Such places start in one class, have
/// one shape, and refer to equivalent targets. These have equal numbers in `own`, and were moved
/// together up to the round before.
pub(crate) fn have_ground(
    alloc: Global,
    own: &[u32],
    shapes: &[u32],
    edges: &Edges,
    moves: &[Pair],
) -> Result<bool, AllocError>
    requires few { length own.now < 4294967296 }
    requires shapes { length shapes.now ≡ length own.now }
    requires edges { AreEdges (length own.now) edges.now }
    requires falling { AreFalling moves.now }
    requires places { All (λ pair. pair.place < length own.now) moves.now }
    ensures { IfOk result (λ b. IsTrue b ↔ MovesHaveGrounds moves.now own.now shapes.now
        edges.now) }
{
    let mut end = run_start(moves, moves.len(), 0);
    let mut labels = begin(alloc, own, &moves[end..moves.len()])?;
    let mut groups = begin(alloc, shapes, &moves[end..moves.len()])?;
    part_groups(alloc, &labels, &mut groups, edges, 0)?;
    while end > 0 {
        let first = run_start(moves, end, moves[end - 1].class);
        if !step(alloc, &mut labels, &mut groups, edges, &moves[first..end])? {
            return Ok(false);
        }
        end = first;
    }
    Ok(true)
}
