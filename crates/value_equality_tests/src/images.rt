//! Which maps are images, on small populations.

use crate::populations::{Row, Rows, Sketch, Words, Written, population};
use std::alloc::Global;
use std::collections::{BTreeMap, BTreeSet};
use std::hash::RandomState;
use step_values::labels::Map;
use value_equality::image::is_image;
use value_equality::plain::Plain;

type Pairs = &'static [(u64, u64)];

/// What is tested, two populations, the pairs of a map, the pinned names, and whether the second
/// population is an image of the first under the map.
type Case = (&'static str, Rows, Rows, Pairs, &'static [u64], bool);

const POINT: Words = &[b"POINT"];

const PLACEMENT: Words = &[b"Placement"];

const BUNDLE: Words = &[b"BUNDLE"];

const ONE: Row<'static> = (1, 0, POINT, &[Sketch::Number(b"1."), Sketch::Sequence(1)]);

/// A point equal to `ONE`, spelled differently.
const SAME: Row<'static> = (
    2,
    0,
    POINT,
    &[Sketch::Number(b"1.0E0"), Sketch::Sequence(1)],
);

const OTHER: Row<'static> = (2, 0, POINT, &[Sketch::Number(b"2."), Sketch::Sequence(1)]);

/// Two equal points, and a placement at each.
const FOUR: Rows = &[
    ONE,
    SAME,
    (3, 0, PLACEMENT, &[Sketch::Reference(1)]),
    (4, 0, PLACEMENT, &[Sketch::Reference(2)]),
];

/// The rows of `FOUR`, merged.
const TWO: Rows = &[ONE, (3, 0, PLACEMENT, &[Sketch::Reference(1)])];

const POINTS: Rows = &[ONE];

const FIRST: Sketch = Sketch::Reference(1);

const SECOND: Sketch = Sketch::Reference(2);

const PAIR: Sketch = Sketch::Bag(2);

/// A bag of two different points, in two orders, and a bag with one of them twice.
const BAG: Rows = &[ONE, OTHER, (3, 0, BUNDLE, &[FIRST, SECOND, PAIR])];

const TURNED_BAG: Rows = &[ONE, OTHER, (3, 0, BUNDLE, &[SECOND, FIRST, PAIR])];

const OTHER_BAG: Rows = &[ONE, OTHER, (3, 0, BUNDLE, &[SECOND, SECOND, PAIR])];

/// A bag of two bags, in two orders, and another bag of bags.
const BAGS: Rows = &[
    ONE,
    OTHER,
    (
        3,
        0,
        BUNDLE,
        &[FIRST, SECOND, PAIR, FIRST, FIRST, PAIR, PAIR],
    ),
];

const TURNED_BAGS: Rows = &[
    ONE,
    OTHER,
    (
        3,
        0,
        BUNDLE,
        &[FIRST, FIRST, PAIR, SECOND, FIRST, PAIR, PAIR],
    ),
];

const OTHER_BAGS: Rows = &[
    ONE,
    OTHER,
    (
        3,
        0,
        BUNDLE,
        &[FIRST, FIRST, PAIR, SECOND, SECOND, PAIR, PAIR],
    ),
];

/// A bag of two equal points, and the bag with the points merged.
const EQUALS: Rows = &[ONE, SAME, (3, 0, BUNDLE, &[FIRST, SECOND, PAIR])];

const MERGED_EQUALS: Rows = &[ONE, (3, 0, BUNDLE, &[FIRST, FIRST, PAIR])];

/// Two types, out of order with a repetition, in order, and in small letters; one type; and two
/// types in another section.
const TYPES: Rows = &[(1, 0, &[b"B", b"A", b"B"], &[Sketch::Unset])];

const SORTED_TYPES: Rows = &[(1, 0, &[b"A", b"B"], &[Sketch::Unset])];

const SMALL_TYPES: Rows = &[(1, 0, &[b"a", b"b", b"a"], &[Sketch::Unset])];

const ONE_TYPE: Rows = &[(1, 0, &[b"B", b"B"], &[Sketch::Unset])];

const OTHER_SECTION: Rows = &[(1, 1, &[b"A", b"B"], &[Sketch::Unset])];

const JOINED_TYPES: Rows = &[(1, 0, &[b"AB"], &[Sketch::Unset])];

const MERGE: &[(u64, u64)] = &[(1, 1), (2, 1), (3, 3), (4, 3)];

const MERGE_3: &[(u64, u64)] = &[(1, 1), (2, 1), (3, 3)];

const ITSELF: &[(u64, u64)] = &[(1, 1), (2, 2), (3, 3), (4, 4)];

const ITSELF_3: &[(u64, u64)] = &[(1, 1), (2, 2), (3, 3)];

const ITSELF_1: &[(u64, u64)] = &[(1, 1)];

const CASES: &'static [Case] = &[
    ("equal rows merged", FOUR, TWO, MERGE, &[], true),
    ("one of them pinned", FOUR, TWO, MERGE, &[1], false),
    ("each to itself", FOUR, FOUR, ITSELF, &[1, 4], true),
    ("a name left out", FOUR, TWO, MERGE_3, &[], false),
    ("no row there", FOUR, POINTS, MERGE, &[], false),
    ("no rows", &[], &[], &[], &[], true),
    ("a bag's order", BAG, TURNED_BAG, ITSELF_3, &[], true),
    ("a bag's members", BAG, OTHER_BAG, ITSELF_3, &[], false),
    ("bags of bags", BAGS, TURNED_BAGS, ITSELF_3, &[], true),
    ("their members", BAGS, OTHER_BAGS, ITSELF_3, &[], false),
    ("members renamed", EQUALS, MERGED_EQUALS, MERGE_3, &[], true),
    ("members kept", EQUALS, EQUALS, MERGE_3, &[], false),
    ("types in order", TYPES, SORTED_TYPES, ITSELF_1, &[], true),
    ("their letters", TYPES, SMALL_TYPES, ITSELF_1, &[1], true),
    ("a type left out", TYPES, ONE_TYPE, ITSELF_1, &[], false),
    (
        "types joined",
        SORTED_TYPES,
        JOINED_TYPES,
        ITSELF_1,
        &[],
        false,
    ),
    (
        "another section",
        SORTED_TYPES,
        OTHER_SECTION,
        ITSELF_1,
        &[],
        false,
    ),
];

/// A question about a map from one population to another, with the expected answer.
#[derive(Clone, Copy)]
pub(crate) struct Asked<'s> {
    pub(crate) from: Written,
    pub(crate) to: Written,
    pub(crate) pairs: &'s [(u64, u64)],
    pub(crate) pinned: &'s [u64],
    pub(crate) is_image: bool,
}

fn add_pairs(map: &mut Map, pairs: &[(u64, u64)]) -> bool {
    for pair in pairs {
        if map.insert(pair.0, pair.1).is_err() {
            return false;
        }
    }
    true
}

fn add_names(set: &mut BTreeSet<u64>, names: &[u64]) -> bool {
    for name in names {
        if set.insert(*name).is_err() {
            return false;
        }
    }
    true
}

/// Whether the expected answer is returned for these populations and this map.
fn is_told_of(
    alloc: Global,
    keys: RandomState,
    from: &Plain<'static>,
    to: &Plain<'static>,
    map: &Map,
    asked: &Asked<'_>,
) -> bool {
    let mut pinned = BTreeSet::new(alloc);
    add_names(&mut pinned, asked.pinned)
        && is_image(alloc, keys, from, to, map, &pinned) == Ok(asked.is_image)
}

fn is_told_between(
    alloc: Global,
    keys: RandomState,
    from: &Plain<'static>,
    to: &Plain<'static>,
    asked: &Asked<'_>,
) -> bool {
    let mut map = BTreeMap::new(alloc);
    add_pairs(&mut map, asked.pairs) && is_told_of(alloc, keys, from, to, &map, asked)
}

fn is_told_from(
    alloc: Global,
    keys: RandomState,
    from: &Plain<'static>,
    asked: &Asked<'_>,
) -> bool {
    match population(alloc, keys, asked.to) {
        Ok(to) => is_told_between(alloc, keys, from, &to, asked),
        Err(_) => false,
    }
}

/// Whether the expected answer is returned.
pub(crate) fn is_told(alloc: Global, keys: RandomState, asked: &Asked<'_>) -> bool {
    match population(alloc, keys, asked.from) {
        Ok(from) => is_told_from(alloc, keys, &from, asked),
        Err(_) => false,
    }
}

fn is_right(alloc: Global, keys: RandomState, case: &Case) -> bool {
    let (_, from, to, pairs, pinned, is_image) = *case;
    let asked = Asked {
        from: Written::Rows(from),
        to: Written::Rows(to),
        pairs,
        pinned,
        is_image,
    };
    is_told(alloc, keys, &asked)
}

/// Returns what is tested by the first wrong case, if any.
pub(crate) fn wrong_case(alloc: Global, keys: RandomState) -> Option<&'static str> {
    for case in CASES {
        if !is_right(alloc, keys, case) {
            return Some(case.0);
        }
    }
    None
}
