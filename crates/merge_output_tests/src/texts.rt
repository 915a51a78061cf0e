//! Small files, and what is written for them according to classes.

use crate::members::{Classes, sent};
use merge_output::fault::RewriteFault;
use std::alloc::Global;
use std::hash::RandomState;
use value_equality::table::Origin;

const FILE: &str = "ISO-10303-21;\n\
    HEADER;\n\
    FILE_DESCRIPTION((''),'2;1');\n\
    FILE_NAME('','',(''),(''),'','','');\n\
    FILE_SCHEMA(('GEO'));\n\
    ENDSEC;\n\
    DATA;\n\
    ENDSEC;\n\
    END-ISO-10303-21;\n";

/// Points of one value, spelled in two ways, and their placements.
const PLACED: &str =
    "DATA;\n#1=POINT((0.,0.));\n#2=POINT((0.0,0.));\n#3=PLACEMENT(#1,$);\n#4=PLACEMENT(#2,$);\n";

/// Points and placements, each value once.
const PLACED_ONCE: &str = "DATA;\n#1=POINT((0.,0.));\n#3=PLACEMENT(#1,$);\n";

/// Classes by kind alone.
const STARTS: &'static [Origin] = &[Origin::Start, Origin::Start, Origin::Start];

/// Points that split in round 1, and their placements in round 2.
const SPLITS: &'static [Origin] = &[
    Origin::Start,
    Origin::Start,
    Origin::Split {
        parent: 0,
        round: 1,
    },
    Origin::Split {
        parent: 1,
        round: 2,
    },
];

const SPLIT_MEMBERS: &'static [u32] = &[0, 2, 1, 3];

/// Two instances of each kind.
const EQUAL: Classes = Classes {
    rounds: 0,
    origins: STARTS,
    each: &[0, 0, 1, 1],
};

/// Points and placements, where only the points split.
const POINTS_PARTED: Classes = Classes {
    rounds: 1,
    origins: SPLITS,
    each: SPLIT_MEMBERS,
};

/// What is tested, the text in place of the file's line DATA, the classes, and the text that is
/// written in its place.
type Text = (&'static str, &'static str, Classes, &'static str);

const TEXTS: &'static [Text] = &[
    ("no instances", "DATA;\n", EQUAL, "DATA;\n"),
    ("points and their placements", PLACED, EQUAL, PLACED_ONCE),
    (
        "the same, parted",
        PLACED,
        Classes {
            rounds: 2,
            origins: SPLITS,
            each: SPLIT_MEMBERS,
        },
        PLACED,
    ),
    (
        "the same, of which the points alone are parted",
        PLACED,
        POINTS_PARTED,
        "DATA;\n#1=POINT((0.,0.));\n#2=POINT((0.0,0.));\n#3=PLACEMENT(#1,$);\n",
    ),
    (
        "the same, before they part",
        PLACED,
        Classes {
            rounds: 0,
            origins: SPLITS,
            each: SPLIT_MEMBERS,
        },
        PLACED_ONCE,
    ),
    (
        "instances without classes",
        PLACED,
        Classes {
            rounds: 0,
            origins: &[],
            each: &[],
        },
        PLACED,
    ),
    (
        "spelling and layout",
        "DATA;\n#02 = point((0.0, /* c */ 0.));\n#01 = point((0.,0.));\n#3 = placement(#01,$);\n#4=placement(#2,$);\n",
        EQUAL,
        "DATA;\n#2=POINT((0.0,0.));\n#3=PLACEMENT(#2,$);\n",
    ),
    (
        "two data sections, of which all of the second goes",
        "DATA('a',('GEO'));\n#1=POINT((0.));\n#4=PLACEMENT(#2,$);\nENDSEC;\nDATA('b',('GEO'));\n#2=POINT((0.));\n#3=PLACEMENT(#1,$);\n",
        Classes {
            rounds: 0,
            origins: STARTS,
            each: &[0, 1, 0, 1],
        },
        "DATA('a',('GEO'));\n#1=POINT((0.));\n#4=PLACEMENT(#1,$);\nENDSEC;\nDATA('b',('GEO'));\n",
    ),
    (
        "references to no instance",
        "DATA;\n#1=A(#9,#2);\n#2=B();\n#3=B();\n#4=C(#3,#18446744073709551615);\n",
        Classes {
            rounds: 0,
            origins: STARTS,
            each: &[0, 1, 1, 2],
        },
        "DATA;\n#1=A(#9,#2);\n#2=B();\n#4=C(#2,#18446744073709551615);\n",
    ),
    (
        "rings, and names that don't rise",
        "DATA;\n#5=A(#7);\n#7=B(#5);\n#2=A(#3);\n#3=B(#2);\n",
        Classes {
            rounds: 0,
            origins: STARTS,
            each: &[0, 1, 0, 1],
        },
        "DATA;\n#5=A(#7);\n#7=B(#5);\n",
    ),
    (
        "references in lists, typed values and external records",
        "DATA;\n#1=A();\n#2=A();\n#3=(B((#2,#1,T(#2)))C('#2',#2));\n#4=D(((#2),(#1)),*,.E.,\"0F\");\n",
        Classes {
            rounds: 0,
            origins: STARTS,
            each: &[0, 0, 1, 2],
        },
        "DATA;\n#1=A();\n#3=(B((#1,#1,T(#1)))C('#2',#1));\n#4=D(((#1),(#1)),*,.E.,\"0F\");\n",
    ),
];

/// Whether these bytes are the file with this text in place of its line DATA.
fn is_file_with(alloc: Global, bytes: &[u8], text: &str) -> bool {
    match FILE.replace(alloc, "DATA;\n", text) {
        Ok(wanted) => wanted.as_bytes() == bytes,
        Err(_) => false,
    }
}

/// Whether the smaller file is the file with this text in place of its line DATA.
fn is_written(
    alloc: Global,
    keys: RandomState,
    file: &str,
    classes: Classes,
    wanted: &str,
) -> bool {
    match sent(alloc, keys, file.as_bytes(), classes, usize::MAX, Ok(())) {
        Some(bytes) => is_file_with(alloc, &bytes, wanted),
        None => false,
    }
}

/// Whether a row is right.
fn is_right(alloc: Global, keys: RandomState, row: &Text) -> bool {
    let (_, text, classes, wanted) = *row;
    match FILE.replace(alloc, "DATA;\n", text) {
        Ok(file) => is_written(alloc, keys, file.as_str(), classes, wanted),
        Err(_) => false,
    }
}

/// Returns what is tested by the first row with another output, if any.
pub(crate) fn wrong_text(alloc: Global, keys: RandomState) -> Option<&'static str> {
    for row in TEXTS {
        if !is_right(alloc, keys, row) {
            return Some(row.0);
        }
    }
    None
}

/// A file of points and their placements.
const WHOLE: &'static [u8] =
    b"ISO-10303-21;\nHEADER;\nFILE_DESCRIPTION((''),'2;1');\nFILE_NAME('','',(''),(''),'','','');\nFILE_SCHEMA(('GEO'));\nENDSEC;\nDATA;\n#1=POINT((0.,0.));\n#2=POINT((0.0,0.));\n#3=PLACEMENT(#1,$);\n#4=PLACEMENT(#2,$);\nENDSEC;\nEND-ISO-10303-21;\n";

/// The smaller file of points and their placements.
const SMALLER: &'static [u8] =
    b"ISO-10303-21;\nHEADER;\nFILE_DESCRIPTION((''),'2;1');\nFILE_NAME('','',(''),(''),'','','');\nFILE_SCHEMA(('GEO'));\nENDSEC;\nDATA;\n#1=POINT((0.,0.));\n#3=PLACEMENT(#1,$);\nENDSEC;\nEND-ISO-10303-21;\n";

/// Whether the smaller file is written, or as much of it as there is room for.
fn is_sent(alloc: Global, keys: RandomState, room: usize) -> bool {
    let wanted = if room < SMALLER.len() {
        Err(RewriteFault::Device {
            written: room as u64,
        })
    } else {
        Ok(())
    };
    match sent(alloc, keys, WHOLE, EQUAL, room, wanted) {
        Some(bytes) => bytes.as_slice() == &SMALLER[..room.min(SMALLER.len())],
        None => false,
    }
}

/// Returns the first room with which something else is written, if any.
pub(crate) fn wrong_room(alloc: Global, keys: RandomState) -> Option<usize> {
    for room in 0..SMALLER.len() + 2 {
        if !is_sent(alloc, keys, room) {
            return Some(room);
        }
    }
    None
}
