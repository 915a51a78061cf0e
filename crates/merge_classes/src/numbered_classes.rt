//! The classes of positions by rounds, and their numbers.

ghost use Rattle.std.specs.Prelude.{◌≡◌, ℕ, Bool, IfOk, length};
ghost use Rattle.partitions.specs.Layouts.{IsLaid, NoneIsChosen, size};
ghost use Rattle.partitions.specs.Views.{layout};
ghost use Rattle.value_equality.specs.Maps.{is_pinned};
ghost use Rattle.row_signatures.specs.steps.Signatures.{AreSignatures};
ghost use Rattle.merge_classes.specs.steps.ComputedRounds.{IsByKinds, IsByValues, IsFound, IsParted};

use partition_edges::round_zero::start;
use partition_refinement::number_laws::refined_are_counted;
use partition_refinement::numbering::{Numbering, number};
use partition_refinement::refinement::{Rounds, refine};
use partitions::parts::Parts;
use row_signatures::kinds::kinds;
use row_signatures::signatures::Signatures;
use std::alloc::{AllocError, Global};
use std::collections::BTreeSet;
use std::hash::RandomState;
use value_equality::plain::Plain;

/// The classes of a population's positions, by their standard numbers.
#[derive(Drop)]
pub(crate) struct Found {
    /// The last round.
    pub(crate) last: u32,
    pub(crate) numbering: Numbering,
    /// The measure of work of the refinement.
    pub(crate) signed: u64,
}

/// The classes of a population's positions after the last round.
#[derive(Drop)]
struct Parted {
    parts: Parts,
    rounds: Rounds,
}

/// Computes the classes of a population's positions, with these names pinned, from its signatures.
pub(crate) fn find<'a>(
    alloc: Global,
    keys: RandomState,
    input: &Plain<'a>,
    pinned: &BTreeSet<u64>,
    signatures: &Signatures,
) -> Result<Found, AllocError>
    requires { AreSignatures input.now (is_pinned pinned.now) signatures.now }
    ensures { IfOk result (λ f. IsFound input.now
        (is_pinned pinned.now) f.last f.numbering.firsts.items
        f.numbering.origins.items f.numbering.members.items) }
{
    let parted = part(alloc, keys, input, pinned, signatures)?;
    numbered(alloc, input, parted)
}

/// Computes the classes of a population's positions, with these names pinned, from its signatures.
/// The signatures are freed before classes are numbered.
pub(crate) fn find_last<'a>(
    alloc: Global,
    keys: RandomState,
    input: &Plain<'a>,
    pinned: &BTreeSet<u64>,
    signatures: Signatures,
) -> Result<Found, AllocError>
    requires { AreSignatures input.now (is_pinned pinned.now) signatures }
    ensures { IfOk result (λ f. IsFound input.now
        (is_pinned pinned.now) f.last f.numbering.firsts.items
        f.numbering.origins.items f.numbering.members.items) }
{
    let parted = part(alloc, keys, input, pinned, &signatures)?;
    drop(signatures);
    numbered(alloc, input, parted)
}

/// Refines the classes of a population's positions, with these names pinned, round by round.
fn part<'a>(
    alloc: Global,
    keys: RandomState,
    input: &Plain<'a>,
    pinned: &BTreeSet<u64>,
    signatures: &Signatures,
) -> Result<Parted, AllocError>
    requires { AreSignatures input.now (is_pinned pinned.now) signatures.now }
    ensures { IfOk result (λ q. IsParted input.now (is_pinned pinned.now) (layout q.parts)
        q.rounds.counts.items) }
{
    let mut parts = by_kinds(alloc, keys, input, pinned)?;
    let rounds = by_values(alloc, input, &mut parts, signatures)?;
    Ok(Parted { parts, rounds })
}

/// Returns the classes of a population's positions by their standard numbers.
fn numbered<'a>(alloc: Global, input: &Plain<'a>, parted: Parted) -> Result<Found, AllocError>
    requires { (pinned : ℕ → Bool) × IsParted input.now pinned (layout parted.parts)
        parted.rounds.counts.items }
    ensures { (pinned : ℕ → Bool)
        → IsParted input.now pinned (layout parted.parts) parted.rounds.counts.items
        → IfOk result (λ f. IsFound input.now pinned f.last f.numbering.firsts.items
        f.numbering.origins.items f.numbering.members.items) }
{
    // The contract of `len` says that names are distinct.
    let _rows = input.len();
    refined_are_counted();
    let Parted { parts, rounds } = parted;
    let numbering = number(alloc, parts, &rounds.counts)?;
    Ok(Found {
        last: rounds.counts.len() as u32 - 1,
        numbering,
        signed: rounds.signed,
    })
}

/// Returns the classes of round 0: two positions share a class exactly if their rows are alike.
fn by_kinds<'a>(
    alloc: Global,
    keys: RandomState,
    input: &Plain<'a>,
    pinned: &BTreeSet<u64>,
) -> Result<Parts, AllocError>
    ensures { IfOk result (λ p. IsByKinds input.now (is_pinned pinned.now) (layout p)) }
{
    // The contract of `len` says that there are fewer than 2^32.
    let _rows = input.len();
    let kinds = kinds(alloc, keys, input, pinned)?;
    start(alloc, &kinds)
}

/// Runs the rounds after round 0, until one splits no class.
fn by_values<'a>(
    alloc: Global,
    input: &Plain<'a>,
    parts: &mut Parts,
    signatures: &Signatures,
) -> Result<Rounds, AllocError>
    requires signatures { (pinned : ℕ → Bool) × AreSignatures input.now pinned signatures.now }
    requires laid { IsLaid (layout parts.old) }
    requires settled { NoneIsChosen (layout parts.old) }
    requires each { size (layout parts.old) ≡ length input.now }
    ensures { (pinned : ℕ → Bool) → AreSignatures input.now pinned signatures.now
        → IfOk result (λ rounds.
        IsByValues input.now pinned (layout parts.old) (layout parts.new) rounds.counts.items) }
{
    // The contract of `len` is about the rows of the signatures.
    let _rows = input.len();
    refine(alloc, parts, &signatures.edges, &signatures.shapes)
}
