//! Tables of classes judged against small populations, and outputs merged by them.

use crate::populations::{Row, Rows, Sketch, Words, Written, population};
use certificate_checks::ancestors::ancestors;
use certificate_checks::members::names_match;
use certificate_checks::quotient::is_merged;
use certificate_checks::stable_rounds::is_stable;
use certificate_checks::table_form::is_well_formed;
use std::alloc::{AllocError, Global};
use std::collections::BTreeSet;
use std::hash::RandomState;
use value_equality::plain::Plain;
use value_equality::table::{Origin, Table};

type Origins = &'static [Origin];

type Members = &'static [(u64, u32)];

/// The judgement on a table, a population and an output: the first fault, or `Merged`.
#[derive(Clone, Copy, PartialEq, Eq)]
enum Judgement {
    NotWellFormed,
    OtherNames,
    NotStable,
    NotMerged,
    Merged,
}

/// What is tested, a population, its pinned names, the classes and members of a table of two
/// rounds, an output, and the expected judgement.
type Case = (
    &'static str,
    Rows,
    &'static [u64],
    Origins,
    Members,
    Rows,
    Judgement,
);

const POINT: Words = &[b"POINT"];

const PLACEMENT: Words = &[b"PLACEMENT"];

const BUNDLE: Words = &[b"BUNDLE"];

const ONE: Row<'static> = (1, 0, POINT, &[Sketch::Number(b"1.")]);

/// A point equal to `ONE`, spelled differently.
const SAME: Row<'static> = (2, 0, POINT, &[Sketch::Number(b"1.0E0")]);

const OTHER: Row<'static> = (2, 0, POINT, &[Sketch::Number(b"2.")]);

/// The value of `ONE` in another section, and under another type.
const ELSEWHERE: Row<'static> = (2, 1, POINT, &[Sketch::Number(b"1.")]);

const OTHERWISE: Row<'static> = (2, 0, BUNDLE, &[Sketch::Number(b"1.")]);

const AT_1: Row<'static> = (3, 0, PLACEMENT, &[Sketch::Reference(1)]);

const AT_2: Row<'static> = (4, 0, PLACEMENT, &[Sketch::Reference(2)]);

/// Two equal points, and a placement at each.
const EQUAL: Rows = &[ONE, SAME, AT_1, AT_2];

/// Two different points, and a placement at each.
const DIFFERENT: Rows = &[ONE, OTHER, AT_1, AT_2];

const IN_TWO_SECTIONS: Rows = &[ONE, ELSEWHERE, AT_1, AT_2];

const OF_TWO_TYPES: Rows = &[ONE, OTHERWISE, AT_1, AT_2];

/// The first point and the first placement, in another order and spelling.
const MERGED: Rows = &[AT_1, (1, 0, POINT, &[Sketch::Number(b"1.0")])];

const WITHOUT_A_POINT: Rows = &[(3, 0, PLACEMENT, &[Sketch::Reference(3)])];

const WITHOUT_A_PLACEMENT: Rows = &[ONE];

/// The second point and the second placement.
const SECONDS: Rows = &[SAME, AT_2];

/// Two bags of one point.
const BAGS: Rows = &[
    ONE,
    (3, 0, BUNDLE, &[Sketch::Reference(1), Sketch::Bag(1)]),
    (4, 0, BUNDLE, &[Sketch::Reference(1), Sketch::Bag(1)]),
];

const ONE_BAG: Rows = &[ONE, (3, 0, BUNDLE, &[Sketch::Reference(1), Sketch::Bag(1)])];

const START: Origin = Origin::Start;

const FROM_0_AT_1: Origin = Origin::Split {
    parent: 0,
    round: 1,
};

const FROM_1_AT_1: Origin = Origin::Split {
    parent: 1,
    round: 1,
};

const FROM_1_AT_2: Origin = Origin::Split {
    parent: 1,
    round: 2,
};

const FROM_1_AT_3: Origin = Origin::Split {
    parent: 1,
    round: 3,
};

const TWO: Origins = &[START, START];

const FOUR: Origins = &[START, START, FROM_0_AT_1, FROM_1_AT_2];

const PAIRS: Members = &[(1, 0), (2, 0), (3, 1), (4, 1)];

const APART: Members = &[(1, 0), (2, 2), (3, 1), (4, 3)];

const CASES: &'static [Case] = &[
    (
        "equal rows",
        EQUAL,
        &[],
        TWO,
        PAIRS,
        MERGED,
        Judgement::Merged,
    ),
    (
        "none merged",
        DIFFERENT,
        &[],
        FOUR,
        APART,
        DIFFERENT,
        Judgement::Merged,
    ),
    (
        "parted though equal",
        EQUAL,
        &[1],
        FOUR,
        APART,
        EQUAL,
        Judgement::Merged,
    ),
    (
        "bags",
        BAGS,
        &[1],
        TWO,
        &[(1, 0), (3, 1), (4, 1)],
        ONE_BAG,
        Judgement::Merged,
    ),
    ("no rows", &[], &[], &[], &[], &[], Judgement::Merged),
    (
        "all rows kept",
        EQUAL,
        &[],
        TWO,
        PAIRS,
        EQUAL,
        Judgement::NotMerged,
    ),
    (
        "a row left out",
        EQUAL,
        &[],
        TWO,
        PAIRS,
        WITHOUT_A_PLACEMENT,
        Judgement::NotMerged,
    ),
    (
        "a point left out",
        EQUAL,
        &[],
        TWO,
        PAIRS,
        WITHOUT_A_POINT,
        Judgement::NotMerged,
    ),
    (
        "the second of each",
        EQUAL,
        &[],
        TWO,
        PAIRS,
        SECONDS,
        Judgement::NotMerged,
    ),
    (
        "other values",
        DIFFERENT,
        &[],
        TWO,
        PAIRS,
        MERGED,
        Judgement::NotStable,
    ),
    (
        "two sections",
        IN_TWO_SECTIONS,
        &[],
        TWO,
        PAIRS,
        MERGED,
        Judgement::NotStable,
    ),
    (
        "two types",
        OF_TWO_TYPES,
        &[],
        TWO,
        PAIRS,
        MERGED,
        Judgement::NotStable,
    ),
    (
        "the first one pinned",
        EQUAL,
        &[1],
        TWO,
        PAIRS,
        MERGED,
        Judgement::NotStable,
    ),
    (
        "the second one pinned",
        EQUAL,
        &[2],
        TWO,
        PAIRS,
        MERGED,
        Judgement::NotStable,
    ),
    (
        "a member left out",
        EQUAL,
        &[],
        TWO,
        &[(1, 0), (2, 0), (3, 1)],
        MERGED,
        Judgement::OtherNames,
    ),
    (
        "a member too many",
        MERGED,
        &[],
        TWO,
        &[(3, 1), (1, 0), (2, 0)],
        MERGED,
        Judgement::OtherNames,
    ),
    (
        "another order",
        MERGED,
        &[],
        TWO,
        &[(1, 0), (3, 1)],
        MERGED,
        Judgement::OtherNames,
    ),
    (
        "no such class",
        EQUAL,
        &[],
        &[START],
        PAIRS,
        MERGED,
        Judgement::NotWellFormed,
    ),
    (
        "its own parent",
        EQUAL,
        &[],
        &[START, FROM_1_AT_1],
        PAIRS,
        MERGED,
        Judgement::NotWellFormed,
    ),
    (
        "the parent as late",
        EQUAL,
        &[],
        &[START, FROM_0_AT_1, FROM_1_AT_1],
        PAIRS,
        MERGED,
        Judgement::NotWellFormed,
    ),
    (
        "a round too late",
        EQUAL,
        &[],
        &[START, START, FROM_1_AT_3],
        PAIRS,
        MERGED,
        Judgement::NotWellFormed,
    ),
];

/// Returns the first fault, or `Merged` if there is none.
fn judge(
    alloc: Global,
    input: &Plain<'static>,
    pinned: &BTreeSet<u64>,
    table: &Table,
    output: &Plain<'static>,
) -> Result<Judgement, AllocError> {
    if !is_well_formed(table) {
        return Ok(Judgement::NotWellFormed);
    }
    if !names_match(input, table) {
        return Ok(Judgement::OtherNames);
    }
    if !is_stable(alloc, input, pinned, table)? {
        return Ok(Judgement::NotStable);
    }
    if !is_merged(alloc, input, table, output)? {
        return Ok(Judgement::NotMerged);
    }
    Ok(Judgement::Merged)
}

/// Returns a table of two rounds.
fn table_of(alloc: Global, classes: &[Origin], members: &[(u64, u32)]) -> Option<Table> {
    let mut table = Table {
        rounds: 2,
        classes: Vec::new(alloc),
        members: Vec::new(alloc),
    };
    let is_whole = table.classes.extend_from_slice(classes).is_ok()
        && table.members.extend_from_slice(members).is_ok();
    if is_whole { Some(table) } else { None }
}

pub(crate) fn names_of(alloc: Global, names: &[u64]) -> Option<BTreeSet<u64>> {
    let mut set = BTreeSet::new(alloc);
    for name in names {
        if set.insert(*name).is_err() {
            return None;
        }
    }
    Some(set)
}

/// Whether these populations have the expected judgement.
fn is_found_of(
    alloc: Global,
    case: &Case,
    input: &Plain<'static>,
    output: &Plain<'static>,
) -> bool {
    let Some(table) = table_of(alloc, case.3, case.4) else {
        return false;
    };
    let Some(pinned) = names_of(alloc, case.2) else {
        return false;
    };
    judge(alloc, input, &pinned, &table, output) == Ok(case.6)
}

fn is_found_from(alloc: Global, keys: RandomState, case: &Case, input: &Plain<'static>) -> bool {
    match population(alloc, keys, Written::Rows(case.5)) {
        Ok(output) => is_found_of(alloc, case, input, &output),
        Err(_) => false,
    }
}

fn is_right(alloc: Global, keys: RandomState, case: &Case) -> bool {
    match population(alloc, keys, Written::Rows(case.1)) {
        Ok(input) => is_found_from(alloc, keys, case, &input),
        Err(_) => false,
    }
}

/// Returns what is tested by the first wrong case, if any.
pub(crate) fn wrong_case(alloc: Global, keys: RandomState) -> Option<&'static str> {
    for case in CASES {
        if !is_right(alloc, keys, case) {
            return Some(case.0);
        }
    }
    None
}

/// Whether the classes have these ancestors at a round.
fn has_ancestors(alloc: Global, table: &Table, round: u32, wanted: &[usize]) -> bool {
    if !is_well_formed(table) {
        return false;
    }
    match ancestors(alloc, table, round) {
        Ok(found) => found.as_slice() == wanted,
        Err(_) => false,
    }
}

/// Returns what is tested if the ancestors of classes are wrong.
pub(crate) fn wrong_ancestor(alloc: Global) -> Option<&'static str> {
    let Some(table) = table_of(alloc, FOUR, APART) else {
        return Some("a table");
    };
    if !has_ancestors(alloc, &table, 0, &[0, 1, 0, 1]) {
        return Some("ancestors at round 0");
    }
    if has_ancestors(alloc, &table, 1, &[0, 1, 2, 1]) {
        None
    } else {
        Some("ancestors at round 1")
    }
}
