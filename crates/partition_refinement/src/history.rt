//! The rounds at which places became the first of their class, from the last round back to the first.

ghost use Rattle.std.specs.Prelude.{ℕ, ◌≡◌, ◌<◌, ◌≤◌, ◌+◌, OnOk, length};
ghost use Rattle.partitions.specs.Layouts.{IsLaid, count};
ghost use Rattle.partitions.specs.Refinements.{ArePlaces};
ghost use Rattle.partitions.specs.Views.{layout};
ghost use Rattle.partition_refinement.specs.Births.{AreCounts};
ghost use Rattle.partition_refinement.specs.Firsts.{AreParted, IsFirstOf};
ghost use Rattle.partition_refinement.specs.steps.Working.{AreBorn, AreFirstPlaces, AreWritten, IsBack, IsUndone};

use crate::first_places::{born, climb};
use partitions::parts::Parts;
use std::alloc::{AllocError, Global};

/// Writes `round` at each of these places.
fn mark(rounds: &mut Vec<u32>, places: &[u32], round: u32)
    requires { ArePlaces (length rounds.old.items) places.now }
    ensures { AreWritten (λ _ v. v ≡ round) rounds.old.items rounds.new.items places.now
        (length places.now) }
{
    for place in places {
        rounds[*place as usize] = round;
    }
}

/// Writes at each place in `born` the first place of the class that it was in when there were `low`
/// classes. The places in `born` became the first of a class while the number of classes grew from
/// `low` to `high`.
fn trace(
    before: &mut Vec<u32>,
    parts: &Parts,
    first_places: &[u32],
    born: &[u32],
    low: u32,
    high: u32,
)
    requires laid { IsLaid (layout parts.now) }
    requires order { low ≤ high }
    requires known { high ≤ count (layout parts.now) }
    requires parted { AreParted (layout parts.now) low }
    requires length { length first_places.now ≡ count (layout parts.now) }
    requires first_places { AreFirstPlaces (layout parts.now) low first_places.now }
    requires born { AreBorn (layout parts.now) low high born.now }
    requires places { ArePlaces (length before.old.items) born.now }
    ensures { AreWritten (IsFirstOf (layout parts.now) low) before.old.items before.new.items
        born.now (length born.now) }
{
    for i in 0..born.len() {
        let parent = parts.parent(high - 1 - i as u32);
        let class = climb(parts, parent, low);
        before[born[i] as usize] = first_places[class as usize];
    }
}

/// Goes back from round `round` + 1 to round `round`.
fn undo_round(
    alloc: Global,
    parts: &Parts,
    counts: &[u32],
    round: u32,
    first_places: &mut Vec<u32>,
    rounds: &mut Vec<u32>,
    before: &mut Vec<u32>,
) -> Result<(), AllocError>
    requires laid { IsLaid (layout parts.now) }
    requires counts { AreCounts (layout parts.now) counts.now }
    requires round { round + 1 < length counts.now }
    requires back { IsBack (layout parts.now) counts.now
        (round + 1) first_places.old.items rounds.old.items before.old.items }
    ensures { OnOk result
        (IsBack (layout parts.now) counts.now round first_places.new.items rounds.new.items
        before.new.items) }
{
    let low = counts[round as usize];
    let high = counts[round as usize + 1];
    let born = born(alloc, parts, first_places, low, high)?;
    mark(rounds, &born, round + 1);
    trace(before, parts, first_places, &born, low, high);
    Ok(())
}

/// Goes back from the last round to round 0.
pub(crate) fn undo_rounds(
    alloc: Global,
    parts: &Parts,
    counts: &[u32],
    first_places: &mut Vec<u32>,
    rounds: &mut Vec<u32>,
    before: &mut Vec<u32>,
) -> Result<(), AllocError>
    requires laid { IsLaid (layout parts.now) }
    requires counts { AreCounts (layout parts.now) counts.now }
    requires back { (last : ℕ) → last + 1 ≡ length counts.now
        → IsBack (layout parts.now) counts.now last first_places.old.items rounds.old.items
        before.old.items }
    ensures { OnOk result (IsUndone (layout parts.now) counts.now rounds.new.items
        before.new.items) }
{
    let mut round = counts.len() as u32 - 1;
    while round > 0 {
        round -= 1;
        undo_round(alloc, parts, counts, round, first_places, rounds, before)?;
    }
    mark(rounds, &first_places[..counts[0] as usize], 0);
    Ok(())
}
