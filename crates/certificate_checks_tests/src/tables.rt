//! Tables, judged.

use crate::populations::{Row, Rows, Sketch, names_of, population};
use certificate_checks::fault::TableFault;
use certificate_checks::judge::judge;
use certificate_checks::table_form::is_well_formed;
use std::alloc::Global;
use std::collections::BTreeSet;
use std::hash::RandomState;
use value_equality::plain::Plain;
use value_equality::table::{Origin, Table};

/// What is tested, a population, its pinned names, the rounds, classes and members of a table, and
/// the expected judgement.
type Case = (
    &'static str,
    Rows,
    &'static [u64],
    u32,
    &'static [Origin],
    &'static [(u64, u32)],
    Result<(), TableFault>,
);

const ONE: Row = (1, 0, b"POINT", &[Sketch::Number(b"1.")]);

/// A point equal to `ONE`, spelled differently.
const SAME: Row = (2, 0, b"POINT", &[Sketch::Number(b"1.0E0")]);

const OTHER: Row = (2, 0, b"POINT", &[Sketch::Number(b"2.")]);

const THIRD: Row = (3, 0, b"POINT", &[Sketch::Number(b"2.")]);

const AT_1: Row = (3, 0, b"PLACEMENT", &[Sketch::Reference(1)]);

const AT_2: Row = (4, 0, b"PLACEMENT", &[Sketch::Reference(2)]);

/// Two equal points, and a placement at each.
const EQUAL: Rows = &[ONE, SAME, AT_1, AT_2];

/// Two different points, and a placement at each.
const DIFFERENT: Rows = &[ONE, OTHER, AT_1, AT_2];

/// Two equal points, and a different one.
const POINTS: Rows = &[ONE, SAME, THIRD];

/// Equal values in instances of two types, and in two sections.
const OF_TWO_TYPES: Rows = &[ONE, (2, 0, b"DIRECTION", &[Sketch::Number(b"1.")])];

const IN_TWO_SECTIONS: Rows = &[ONE, (2, 1, b"POINT", &[Sketch::Number(b"1.")])];

/// Different types with different values.
const UNLIKE: Rows = &[ONE, (2, 0, b"DIRECTION", &[Sketch::Number(b"2.")])];

const START: Origin = Origin::Start;

const FROM_0_AT_1: Origin = Origin::Split {
    parent: 0,
    round: 1,
};

const FROM_1_AT_1: Origin = Origin::Split {
    parent: 1,
    round: 1,
};

const FROM_1_AT_2: Origin = Origin::Split {
    parent: 1,
    round: 2,
};

const FROM_2_AT_1: Origin = Origin::Split {
    parent: 2,
    round: 1,
};

const TWO: &'static [Origin] = &[START, START];

/// One class that splits in round 1.
const LATER: &'static [Origin] = &[START, FROM_0_AT_1];

const FOUR: &'static [Origin] = &[START, START, FROM_0_AT_1, FROM_1_AT_2];

const PAIRS: &'static [(u64, u32)] = &[(1, 0), (2, 0), (3, 1), (4, 1)];

const APART: &'static [(u64, u32)] = &[(1, 0), (2, 2), (3, 1), (4, 3)];

const CASES: &'static [Case] = &[
    ("equal rows", EQUAL, &[], 0, TWO, PAIRS, Ok(())),
    (
        "rounds without a split",
        EQUAL,
        &[],
        u32::MAX,
        TWO,
        PAIRS,
        Ok(()),
    ),
    ("rows that differ", DIFFERENT, &[], 2, FOUR, APART, Ok(())),
    ("no rows", &[], &[], 0, &[], &[], Ok(())),
    (
        "one of two equal rows pinned",
        EQUAL,
        &[1],
        1,
        &[START, START, START, FROM_2_AT_1],
        &[(1, 0), (2, 1), (3, 2), (4, 3)],
        Ok(()),
    ),
    (
        "types apart at the start",
        OF_TWO_TYPES,
        &[],
        0,
        TWO,
        &[(1, 0), (2, 1)],
        Ok(()),
    ),
    (
        "types apart by their values",
        UNLIKE,
        &[],
        1,
        LATER,
        &[(1, 0), (2, 1)],
        Ok(()),
    ),
    (
        "a member left out",
        EQUAL,
        &[],
        0,
        TWO,
        &[(1, 0), (2, 0), (3, 1)],
        Err(TableFault::Members),
    ),
    (
        "a member twice",
        EQUAL,
        &[],
        0,
        TWO,
        &[(1, 0), (1, 0), (3, 1), (4, 1)],
        Err(TableFault::Members),
    ),
    (
        "alike, and apart at the start",
        EQUAL,
        &[],
        1,
        &[START, START, START, FROM_2_AT_1],
        &[(1, 0), (2, 1), (3, 2), (4, 3)],
        Err(TableFault::Ground),
    ),
    (
        "equal, and parted later",
        EQUAL,
        &[],
        2,
        FOUR,
        APART,
        Err(TableFault::Ground),
    ),
    (
        "parted a round too early",
        DIFFERENT,
        &[],
        1,
        &[START, START, FROM_0_AT_1, FROM_1_AT_1],
        APART,
        Err(TableFault::Ground),
    ),
    (
        "types parted behind the start",
        OF_TWO_TYPES,
        &[],
        1,
        LATER,
        &[(1, 0), (2, 1)],
        Err(TableFault::Ground),
    ),
    (
        "sections parted behind the start",
        IN_TWO_SECTIONS,
        &[],
        1,
        LATER,
        &[(1, 0), (2, 1)],
        Err(TableFault::Ground),
    ),
    (
        "parted without a ground, and not stable",
        POINTS,
        &[],
        1,
        LATER,
        &[(1, 0), (2, 1), (3, 0)],
        Err(TableFault::Ground),
    ),
    (
        "merged too much",
        DIFFERENT,
        &[],
        0,
        TWO,
        PAIRS,
        Err(TableFault::Stable),
    ),
    (
        "a pinned one merged",
        EQUAL,
        &[1],
        0,
        TWO,
        PAIRS,
        Err(TableFault::Stable),
    ),
    (
        "types merged",
        OF_TWO_TYPES,
        &[],
        0,
        &[START],
        &[(1, 0), (2, 0)],
        Err(TableFault::Stable),
    ),
];

fn table_of(
    alloc: Global,
    rounds: u32,
    classes: &[Origin],
    members: &[(u64, u32)],
) -> Option<Table> {
    let mut table = Table {
        rounds,
        classes: Vec::new(alloc),
        members: Vec::new(alloc),
    };
    let is_whole = table.classes.extend_from_slice(classes).is_ok()
        && table.members.extend_from_slice(members).is_ok();
    if is_whole { Some(table) } else { None }
}

/// Whether this table has the expected judgement.
fn is_found(
    alloc: Global,
    keys: RandomState,
    input: &Plain<'static>,
    pinned: &BTreeSet<u64>,
    table: &Table,
    wanted: Result<(), TableFault>,
) -> bool {
    if !is_well_formed(table) {
        return false;
    }
    judge(alloc, keys, input, pinned, table) == wanted
}

fn is_found_of(alloc: Global, keys: RandomState, case: &Case, input: &Plain<'static>) -> bool {
    let Some(table) = table_of(alloc, case.3, case.4, case.5) else {
        return false;
    };
    let Some(pinned) = names_of(alloc, case.2) else {
        return false;
    };
    is_found(alloc, keys, input, &pinned, &table, case.6)
}

fn is_right(alloc: Global, keys: RandomState, case: &Case) -> bool {
    match population(alloc, keys, case.1) {
        Ok(input) => is_found_of(alloc, keys, case, &input),
        Err(_) => false,
    }
}

/// Returns what is tested by the first wrong case, if any.
pub(crate) fn wrong_case(alloc: Global, keys: RandomState) -> Option<&'static str> {
    for case in CASES {
        if !is_right(alloc, keys, case) {
            return Some(case.0);
        }
    }
    None
}
