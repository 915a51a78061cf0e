//! Partition refinement that compares all pairs of rows in every round.

ghost use Rattle.std.specs.Prelude.{◌≡◌, ◌<◌, IfOk, OnOk, length};

use certificate_checks::classes::Classes;
use std::alloc::{AllocError, Global};
use std::collections::BTreeSet;
use step_values::labels::Labels;
use step_values::slot::Slots;
use step_values::value_agreement::same_each;
use value_equality::plain::Plain;
use value_equality::row::is_one_kind;
use value_equality::table::{Origin, Table};

/// Whether two rows are the same, or free and of one kind.
fn are_alike(input: &Plain<'static>, pinned: &BTreeSet<u64>, place: usize, earlier: usize) -> bool
    requires place { place < length input.now }
    requires earlier { earlier < length input.now }
{
    let row = input.row(place);
    let other = input.row(earlier);
    !pinned.contains(&row.name) && !pinned.contains(&other.name) && is_one_kind(&row, &other)
}

/// Returns the first row before `place` that is alike, if any.
fn first_alike(input: &Plain<'static>, pinned: &BTreeSet<u64>, place: usize) -> Option<usize>
    requires { place < length input.now }
{
    for earlier in 0..place {
        if are_alike(input, pinned, place, earlier) {
            return Some(earlier);
        }
    }
    None
}

/// Whether two rows share a class, and their values agree by classes.
fn agree(
    alloc: Global,
    classes: &Classes<'static, '_>,
    place: usize,
    earlier: usize,
) -> Result<bool, AllocError>
    requires place { place < length classes.now.input.now }
    requires earlier { earlier < length classes.now.input.now }
{
    if classes.classes[place] != classes.classes[earlier] {
        return Ok(false);
    }
    let row = classes.input.row(place);
    let other = classes.input.row(earlier);
    same_by(alloc, classes, &row.values, &other.values)
}

/// Whether two lists of values agree, with these labels in place of references.
fn same_by<'p, 'a, 'q, 'b, F: Labels>(
    alloc: Global,
    labels: &F,
    vs: &Slots<'p, 'a>,
    ws: &Slots<'q, 'b>,
) -> Result<bool, AllocError> {
    same_each(alloc, labels, labels, vs, ws)
}

/// Returns the first row before `place` that shares its class and agrees with it, if any, and whether
/// `place` is the first row of its class.
fn first_agreeing(
    alloc: Global,
    classes: &Classes<'static, '_>,
    place: usize,
) -> Result<(Option<usize>, bool), AllocError>
    requires { place < length classes.now.input.now }
{
    let mut is_first = true;
    for earlier in 0..place {
        if classes.classes[earlier] == classes.classes[place] {
            is_first = false;
        }
        if agree(alloc, classes, place, earlier)? {
            return Ok((Some(earlier), is_first));
        }
    }
    Ok((None, is_first))
}

/// Adds a class, and returns its number.
fn add_class(origins: &mut Vec<Origin>, origin: Origin) -> Result<u32, AllocError> {
    let number = u32::try_from(origins.len()).unwrap_or(u32::MAX);
    origins.push(origin)?;
    Ok(number)
}

/// Returns round 0: the classes of rows that are alike.
fn start(
    alloc: Global,
    input: &Plain<'static>,
    pinned: &BTreeSet<u64>,
    origins: &mut Vec<Origin>,
) -> Result<Vec<u32>, AllocError>
    ensures { IfOk result (λ v. length v.items ≡ length input.now) }
{
    let mut classes: Vec<u32> = Vec::new(alloc);
    for place in 0..input.len() {
        let class = match first_alike(input, pinned, place) {
            Some(earlier) => classes.get(earlier).copied().unwrap_or(0),
            None => add_class(origins, Origin::Start)?,
        };
        classes.push(class)?;
    }
    Ok(classes)
}

/// Returns the class of a row in the next round.
fn next_class(
    alloc: Global,
    classes: &Classes<'static, '_>,
    next: &[u32],
    origins: &mut Vec<Origin>,
    round: u32,
    place: usize,
) -> Result<u32, AllocError>
    requires { place < length classes.now.input.now }
{
    let class = classes.classes[place];
    match first_agreeing(alloc, classes, place)? {
        (Some(earlier), _) => Ok(next.get(earlier).copied().unwrap_or(0)),
        (None, true) => Ok(class),
        (None, false) => add_class(
            origins,
            Origin::Split {
                parent: class,
                round,
            },
        ),
    }
}

/// Returns the next round: the rows of a class that agree with its first row keep its number.
fn next_round(
    alloc: Global,
    classes: &Classes<'static, '_>,
    origins: &mut Vec<Origin>,
    round: u32,
) -> Result<Vec<u32>, AllocError>
    ensures { IfOk result (λ v. length v.items ≡ length classes.now.input.now) }
{
    let mut next: Vec<u32> = Vec::new(alloc);
    for place in 0..classes.input.len() {
        let class = next_class(alloc, classes, &next, origins, round, place)?;
        next.push(class)?;
    }
    Ok(next)
}

/// Runs the rounds after round 0, until one splits nothing. Returns the number of rounds before
/// that one.
fn rounds(
    alloc: Global,
    classes: &mut Classes<'static, '_>,
    origins: &mut Vec<Origin>,
) -> Result<u32, AllocError> {
    for round in 0..u32::MAX {
        let before = origins.len();
        let next = next_round(alloc, classes, origins, round + 1)?;
        if origins.len() == before {
            return Ok(round);
        }
        classes.classes = next;
    }
    Ok(u32::MAX)
}

/// Returns each name with its class.
fn members_of(
    alloc: Global,
    classes: &Classes<'static, '_>,
) -> Result<Vec<(u64, u32)>, AllocError> {
    let mut members = Vec::new(alloc);
    for place in 0..classes.input.len() {
        members.push((classes.input.name(place), classes.classes[place]))?;
    }
    Ok(members)
}

/// Returns the table of a population, by comparing all pairs of rows in every round.
pub(crate) fn refined(
    alloc: Global,
    input: &Plain<'static>,
    pinned: &BTreeSet<u64>,
) -> Result<Table, AllocError> {
    let mut origins = Vec::new(alloc);
    let start = start(alloc, input, pinned, &mut origins)?;
    let mut classes = Classes {
        input,
        pinned,
        classes: start,
    };
    let rounds = rounds(alloc, &mut classes, &mut origins)?;
    let members = members_of(alloc, &classes)?;
    Ok(Table {
        rounds,
        classes: origins,
        members,
    })
}
