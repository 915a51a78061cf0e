//! The places that each split moves.

ghost use Rattle.std.specs.Prelude.{◌≡◌, ◌<◌, ◌++◌, ℕ, [], IfOk, OnOk, length};
ghost use Rattle.std.specs.List.{All};
ghost use Rattle.std.specs.List.Sorted.{IsNonDecreasingBy};
ghost use Rattle.split_checks.specs.steps.Births.{AreBirths};
ghost use Rattle.split_checks.specs.steps.ComputedMembers.{Hold};
ghost use Rattle.split_checks.specs.steps.ComputedUndoing.{AreUndone, Starts, pairs_of};
ghost use Rattle.split_checks.specs.steps.Moves.{AreMoves};

use crate::births::Birth;
use crate::members::members_of;
use crate::undone_births::undo;
use partitions::pairs::Pair;
use std::alloc::{AllocError, Global};

/// Undoes all births, from the last round back. They must be in the order of their rounds.
fn undo_all(
    alloc: Global,
    births: Vec<Birth>,
    lists: &mut Vec<Vec<u32>>,
    moves: &mut Vec<Pair>,
) -> Result<(), AllocError>
    requires births { AreBirths (length lists.old.items) births.items }
    requires sorted { IsNonDecreasingBy (λ b. b.round) births.items }
    requires none { moves.old.items ≡ [] }
    ensures { OnOk result ((n : ℕ) (start : ℕ → ℕ) → Hold lists.old.items n start
        → AreUndone births.items n start lists.new.items moves.new.items) }
{
    let mut births = births;
    while let Some(birth) = births.pop() {
        let number = births.len() as u64;
        undo(alloc, lists, moves, birth, number)?;
    }
    Ok(())
}

/// Adds the pairs of round 0: all places with their classes.
fn push_starts(moves: &mut Vec<Pair>, lists: &[Vec<u32>]) -> Result<(), AllocError>
    ensures { OnOk result (Starts lists.now moves.old.items moves.new.items) }
{
    for class in 0..lists.len() {
        push_start(moves, class as u64, &lists[class])?;
    }
    Ok(())
}

/// Adds the pairs of the places of one class at round 0.
fn push_start(moves: &mut Vec<Pair>, class: u64, places: &[u32]) -> Result<(), AllocError>
    ensures { OnOk result (moves.new.items ≡ moves.old.items ++ pairs_of 0 class places.now) }
{
    for place in places {
        moves.push(Pair {
            position: class,
            class: 0,
            place: *place,
        })?;
    }
    Ok(())
}

/// Returns the places that each split moves, later rounds first, and then all places with their
/// classes at round 0. Of a class and the one that it is split off, the places of the smaller one
/// move.
///
/// It takes time by the number of places times its logarithm, by `classes`, and by the number of
/// births times its logarithm.
pub(crate) fn moves(
    alloc: Global,
    classes: usize,
    births: Vec<Birth>,
    last: &[u32],
) -> Result<Vec<Pair>, AllocError>
    requires births { AreBirths classes births.items }
    requires few { length last.now < 4294967296 }
    requires known { All (λ c. c < classes) last.now }
    ensures { IfOk result (λ v. AreMoves births.items last.now v.items) }
{
    let mut births = births;
    births.sort_unstable_by_key(|birth| birth.round);
    let mut lists = members_of(alloc, classes, last)?;
    let mut moves = Vec::new(alloc);
    undo_all(alloc, births, &mut lists, &mut moves)?;
    push_starts(&mut moves, &lists)?;
    Ok(moves)
}
