//! Births that are undone one by one.

ghost use Rattle.std.specs.Prelude.{◌≡◌, ◌≢◌, ◌<◌, ◌++◌, IfOk, OnOk, length};
ghost use Rattle.split_checks.specs.steps.ComputedUndoing.{AreMerged, Undoes, pairs_of};

use crate::births::Birth;
use partitions::pairs::Pair;
use std::alloc::{AllocError, Global};
use std::mem;

/// Appends the places of `from` to `into`, and adds a pair for each of them. Returns the joined
/// list.
fn poured(
    from: &[u32],
    into: Vec<u32>,
    moves: &mut Vec<Pair>,
    round: u32,
    number: u64,
) -> Result<Vec<u32>, AllocError>
    ensures all { IfOk result (λ v. v.items ≡ into.items ++ from.now) }
    ensures noted { IfOk result (λ _. moves.new.items ≡ moves.old.items
        ++ pairs_of round number from.now) }
{
    let mut into = into;
    for place in from {
        into.push(*place)?;
        moves.push(Pair {
            position: number,
            class: round,
            place: *place,
        })?;
    }
    Ok(into)
}

/// Returns the places of both lists. It moves the shorter list to the other one, and adds a pair
/// for each moved place.
fn merged(
    one: Vec<u32>,
    other: Vec<u32>,
    moves: &mut Vec<Pair>,
    round: u32,
    number: u64,
) -> Result<Vec<u32>, AllocError>
    ensures { IfOk result (λ v. AreMerged one.items other.items v.items round number
        moves.old.items moves.new.items) }
{
    if one.len() <= other.len() {
        poured(&one, other, moves, round, number)
    } else {
        poured(&other, one, moves, round, number)
    }
}

/// Joins the places of a class with those of the class that it was split off. It adds a pair for
/// each place that moves.
pub(crate) fn undo(
    alloc: Global,
    lists: &mut Vec<Vec<u32>>,
    moves: &mut Vec<Pair>,
    birth: Birth,
    number: u64,
) -> Result<(), AllocError>
    requires class { birth.class < length lists.old.items }
    requires parent { birth.parent < length lists.old.items }
    requires apart { birth.class ≢ birth.parent }
    ensures { OnOk result (Undoes birth number lists.old.items lists.new.items moves.old.items
        moves.new.items) }
{
    let class = mem::replace(&mut lists[birth.class], Vec::new(alloc));
    let parent = mem::replace(&mut lists[birth.parent as usize], Vec::new(alloc));
    let both = merged(class, parent, moves, birth.round, number)?;
    lists[birth.parent as usize] = both;
    Ok(())
}
