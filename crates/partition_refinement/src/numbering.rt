//! The standard numbers of classes.

ghost use Rattle.std.specs.Prelude.{ℕ, ◌≡◌, ◌<◌, ◌/◌, IfOk, length, map, slice_index};
ghost use Rattle.partitions.specs.Layouts.{Layout, IsLaid, class_in, count, size};
ghost use Rattle.partitions.specs.Views.{layout};
ghost use Rattle.partition_refinement.specs.Births.{AreCounts};
ghost use Rattle.partition_refinement.specs.Numbers.{IsNumbering};
ghost use Rattle.partition_refinement.specs.steps.Origins.{origin_of, place_in};
ghost use Rattle.partition_refinement.specs.steps.Working.{IsTraced};

use crate::birth_keys::{births, numbers, place_of, round_of};
use crate::first_places::{filled, first_places};
use crate::history::undo_rounds;
use partitions::parts::Parts;
use std::alloc::{AllocError, Global};

/// The origin of a class.
#[derive(Clone, Copy, Debug, PartialEq, Eq)]
pub enum Origin {
    /// The class was there from round 0 on.
    Start,
    /// The class was split off the class numbered `parent`, at round `round`, which is at least 1.
    /// Its own number is greater than `parent`.
    Split { parent: u32, round: u32 },
}

/// The classes of all rounds by their standard numbers, which count from 0: by the round at which a
/// class began, then by its first place. If a class is split, the part with its first place keeps
/// its number.
#[derive(Drop)]
pub struct Numbering {
    /// By number, the first place of the class, which is unchanged from round to round.
    pub firsts: Vec<u32>,
    /// By number, the origin of the class.
    pub origins: Vec<Origin>,
    /// By place, the number of its class after the last round.
    pub members: Vec<u32>,
}

/// When each place became the first of a class, and which class it was in before.
#[derive(Drop)]
struct History {
    /// By place, the round at which it became the first of a class; the number of rounds if it
    /// never did.
    rounds: Vec<u32>,
    /// By place, the first place of the class that it was in before it became the first of its own.
    before: Vec<u32>,
    /// By place, the first place of its class after the last round.
    heads: Vec<u32>,
}

/// Returns the standard numbers of the classes of a refinement, and consumes the partition.
/// `counts` has the number of classes after each round, beginning with round 0, as `refine` returns
/// it.
///
/// It takes time by the number of places times its logarithm.
pub fn number(alloc: Global, parts: Parts, counts: &[u32]) -> Result<Numbering, AllocError>
    requires laid { IsLaid (layout parts) }
    requires counts { AreCounts (layout parts) counts.now }
    ensures { IfOk result
        (λ n. IsNumbering (layout parts) counts.now n.firsts.items n.origins.items
        n.members.items) }
{
    let size = parts.len();
    let history = history_of(alloc, parts, counts)?;
    in_order(
        alloc,
        size,
        counts,
        &history.rounds,
        &history.before,
        &history.heads,
    )
}

/// Goes back over the rounds of a refinement, from the last to the first.
fn history_of(alloc: Global, parts: Parts, counts: &[u32]) -> Result<History, AllocError>
    requires laid { IsLaid (layout parts) }
    requires counts { AreCounts (layout parts) counts.now }
    ensures { IfOk result (λ h. IsTraced (layout parts) counts.now h.rounds.items h.before.items
        h.heads.items
        (size (layout parts))) }
{
    let size = parts.len();
    let mut first_places = first_places(alloc, &parts)?;
    let heads = heads(alloc, &parts, &first_places)?;
    let mut rounds = filled(alloc, size as usize, counts.len() as u32)?;
    let mut before = filled(alloc, size as usize, 0)?;
    undo_rounds(
        alloc,
        &parts,
        counts,
        &mut first_places,
        &mut rounds,
        &mut before,
    )?;
    Ok(History {
        rounds,
        before,
        heads,
    })
}

/// Returns by place the first place of its class.
fn heads(alloc: Global, parts: &Parts, first_places: &[u32]) -> Result<Vec<u32>, AllocError>
    requires laid { IsLaid (layout parts.now) }
    requires length { length first_places.now ≡ count (layout parts.now) }
    ensures length { IfOk result (λ v. length v.items ≡ size (layout parts.now)) }
    ensures each { IfOk result (λ v. (x : ℕ) → x < size (layout parts.now)
        → slice_index v.items x ≡ slice_index first_places.now (class_in (layout parts.now) x)) }
{
    let mut heads = Vec::new(alloc);
    for place in 0..parts.len() {
        heads.push(first_places[parts.class(place) as usize])?;
    }
    Ok(heads)
}

/// Numbers the births of classes in their order.
fn in_order(
    alloc: Global,
    size: u32,
    counts: &[u32],
    rounds: &[u32],
    before: &[u32],
    heads: &[u32],
) -> Result<Numbering, AllocError>
    requires { (p : Layout) × IsTraced p counts.now rounds.now before.now heads.now size }
    ensures { (p : Layout) → IsTraced p counts.now rounds.now before.now heads.now size
        → IfOk result
        (λ n. IsNumbering p counts.now n.firsts.items n.origins.items n.members.items) }
{
    let births = births(alloc, rounds, counts.len() as u32)?;
    let numbers = numbers(alloc, &births, size)?;
    Ok(Numbering {
        firsts: firsts(alloc, &births)?,
        origins: origins(alloc, &births, &numbers, before)?,
        members: members(alloc, heads, &numbers)?,
    })
}

/// Returns the places of births.
fn firsts(alloc: Global, births: &[u64]) -> Result<Vec<u32>, AllocError>
    ensures { IfOk result (λ v. v.items ≡ map place_in births.now) }
{
    let mut firsts = Vec::with_capacity(alloc, births.len())?;
    for birth in births {
        firsts.push(place_of(*birth))?;
    }
    Ok(firsts)
}

/// Returns the origins of the classes of these births.
fn origins(
    alloc: Global,
    births: &[u64],
    numbers: &[u32],
    before: &[u32],
) -> Result<Vec<Origin>, AllocError>
    requires places { (c : ℕ) → c < length births.now
        → place_in (slice_index births.now c) < length before.now }
    requires before { (c : ℕ) → c < length births.now → 0 < slice_index births.now c / 4294967296
        → slice_index before.now (place_in (slice_index births.now c)) < length numbers.now }
    ensures { IfOk result (λ v. v.items ≡ map (origin_of numbers.now before.now) births.now) }
{
    let mut origins = Vec::with_capacity(alloc, births.len())?;
    for birth in births {
        origins.push(origin_of(*birth, numbers, before))?;
    }
    Ok(origins)
}

/// Returns the origin of the class of a birth. `before` has by place the first place of the class
/// that it was split off.
fn origin_of(birth: u64, numbers: &[u32], before: &[u32]) -> Origin
    requires place { place_in birth < length before.now }
    requires before { 0 < birth / 4294967296
        → slice_index before.now (place_in birth) < length numbers.now }
    ensures { result ≡ origin_of numbers.now before.now birth }
{
    let round = round_of(birth);
    if round == 0 {
        return Origin::Start;
    }
    let parent = numbers[before[place_of(birth) as usize] as usize];
    Origin::Split { parent, round }
}

/// Returns by place the number of its class.
fn members(alloc: Global, heads: &[u32], numbers: &[u32]) -> Result<Vec<u32>, AllocError>
    requires { (x : ℕ) → x < length heads.now → slice_index heads.now x < length numbers.now }
    ensures { IfOk result (λ v. v.items ≡ map (slice_index numbers.now) heads.now) }
{
    let mut members = Vec::with_capacity(alloc, heads.len())?;
    for head in heads {
        members.push(numbers[*head as usize])?;
    }
    Ok(members)
}
