//! Classes by rounds, read from a table.

use std::alloc::Global;
use value_equality::table::{Origin, Table};

/// Four classes that split one after another, and one whose parent is itself.
const CLASSES: &'static [Origin] = &[
    Origin::Start,
    Origin::Split {
        parent: 0,
        round: 1,
    },
    Origin::Split {
        parent: 1,
        round: 2,
    },
    Origin::Split {
        parent: 2,
        round: 3,
    },
    Origin::Split {
        parent: 4,
        round: 3,
    },
];

/// Names with their classes at the last round. No class has the number that the last name has.
const MEMBERS: &'static [(u64, u32)] = &[(7, 3), (8, 4), (9, 5)];

/// What is tested, a name, a round, and the class.
const CASES: &'static [(&'static str, u64, u32, Option<u32>)] = &[
    ("the first round", 7, 0, Some(0)),
    ("the second one", 7, 1, Some(1)),
    ("the third one", 7, 2, Some(2)),
    ("the last one", 7, 3, Some(3)),
    ("its own parent, when it is there", 8, 3, Some(4)),
    ("its own parent, before", 8, 2, None),
    ("no class of the number", 9, 3, None),
    ("no member", 1, 3, None),
];

/// Returns what is tested by the first wrong case for a table, if any.
fn wrong_case(table: &Table) -> Option<&'static str> {
    for (what, name, round, class) in CASES {
        if table.class_at(*name, *round) != *class {
            return Some(*what);
        }
    }
    None
}

/// Returns what is tested by the first wrong case, if any.
pub(crate) fn wrong_class(alloc: Global) -> Option<&'static str> {
    let mut table = Table {
        rounds: 3,
        classes: Vec::new(alloc),
        members: Vec::new(alloc),
    };
    let is_whole = table.classes.extend_from_slice(CLASSES).is_ok()
        && table.members.extend_from_slice(MEMBERS).is_ok();
    if is_whole {
        wrong_case(&table)
    } else {
        Some("the table")
    }
}
