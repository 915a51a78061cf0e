//! Rounds of refinement.

ghost use Rattle.std.specs.Prelude.{◌≡◌, ◌<◌, ◌≤◌, OnOk, IfOk, length};
ghost use Rattle.partitions.specs.Layouts.{IsLaid, size, count, NoneIsChosen};
ghost use Rattle.partitions.specs.Views.{layout};
ghost use Rattle.partition_edges.specs.Edges.{AreEdges, ReferAlike};
ghost use Rattle.partition_refinement.specs.Rounds.{IsRefined};
ghost use Rattle.partition_refinement.specs.steps.Turns.{IsFirstRound, IsRound};

use partition_edges::edge_keys::{gather, is_alone};
use partition_edges::edges::Edges;
use partitions::parts::Parts;
use std::alloc::{AllocError, Global};

/// The numbers that describe the rounds of a refinement.
#[derive(Drop)]
pub struct Rounds {
    /// The number of classes after each round, beginning with round 0. The last entry is the final
    /// number of classes.
    pub counts: Vec<u32>,
    /// A measure of the work done, at most 2^64 - 1: one for each place that shares its class of
    /// round 0, and one for each key of a place that a round after the first collected. The
    /// contract doesn't state it.
    pub signed: u64,
}

/// Refines a round 0 until a round splits nothing. Places of one shape must refer at the same
/// positions.
///
/// A round keeps two places in one class exactly if they were in one and refer, at each position,
/// to places that were in one. The first round also splits places of different shapes.
///
/// `Rounds::counts` and `Parts` determine every round. A class whose number is below the count of a
/// round existed after it. Any later class was split off its parent.
///
/// It takes time by the number of references, times the logarithms of the numbers of places and of
/// references. If memory runs out, the partition must not be used any more.
pub fn refine(
    alloc: Global,
    parts: &mut Parts,
    edges: &Edges,
    shapes: &[u32],
) -> Result<Rounds, AllocError>
    requires laid { IsLaid (layout parts.old) }
    requires settled { NoneIsChosen (layout parts.old) }
    requires edges { AreEdges (size (layout parts.old)) edges.now }
    requires each { length shapes.now ≡ size (layout parts.old) }
    requires alike { ReferAlike edges.now shapes.now }
    ensures { IfOk result (λ rounds.
        IsRefined edges.now shapes.now (layout parts.old) (layout parts.new) rounds.counts.items) }
{
    let mut counts = Vec::new(alloc);
    let mut signed = shared_places(parts);
    let mut high = class_count(parts);
    counts.push(high)?;
    first_round(alloc, parts, edges, shapes)?;
    while high < class_count(parts) {
        let low = high;
        high = class_count(parts);
        counts.push(high)?;
        signed = signed.saturating_add(next_round(alloc, parts, edges, low)?);
    }
    Ok(Rounds { counts, signed })
}

/// Returns the number of places that share their class with another place.
fn shared_places(parts: &Parts) -> u64
    requires { IsLaid (layout parts.now) }
    ensures { result ≤ size (layout parts.now) }
{
    let mut shared = 0;
    for place in 0..parts.len() {
        if !is_alone(parts, place) {
            shared += 1;
        }
    }
    shared
}

/// Returns the number of classes, which is at most the number of places.
fn class_count(parts: &Parts) -> u32
    requires { IsLaid (layout parts.now) }
    ensures { result ≡ count (layout parts.now) }
{
    parts.count() as u32
}

/// The first round: splits by all shapes, and by all references except those to class 0. Those
/// aren't needed: places of one shape that refer to other classes at the same positions also refer
/// to class 0 at the same positions.
fn first_round(
    alloc: Global,
    parts: &mut Parts,
    edges: &Edges,
    shapes: &[u32],
) -> Result<(), AllocError>
    requires laid { IsLaid (layout parts.old) }
    requires settled { NoneIsChosen (layout parts.old) }
    requires edges { AreEdges (size (layout parts.old)) edges.now }
    requires each { length shapes.now ≡ size (layout parts.old) }
    requires alike { ReferAlike edges.now shapes.now }
    ensures { OnOk result (IsFirstRound edges.now shapes.now (layout parts.old)
        (layout parts.new)) }
{
    let high = class_count(parts);
    let pairs = gather(alloc, parts, parts, edges, high.min(1), high)?;
    parts.part_by_numbers(alloc, shapes)?;
    parts.part_by_pairs(alloc, pairs)
}

/// A later round: splits only by references to the classes from `low` on, which the round before
/// made. Returns the number of keys that it collected.
fn next_round(alloc: Global, parts: &mut Parts, edges: &Edges, low: u32) -> Result<u64, AllocError>
    requires laid { IsLaid (layout parts.old) }
    requires settled { NoneIsChosen (layout parts.old) }
    requires edges { AreEdges (size (layout parts.old)) edges.now }
    requires known { low ≤ count (layout parts.old) }
    ensures { OnOk result (IsRound edges.now low (layout parts.old) (layout parts.new)) }
{
    let high = class_count(parts);
    let pairs = gather(alloc, parts, parts, edges, low, high)?;
    let gathered = pairs.len() as u64;
    parts.part_by_pairs(alloc, pairs)?;
    Ok(gathered)
}
