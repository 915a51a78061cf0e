//! The report of `check` on a file, or why the file isn't checked.

use super::{FILE, Shelf, add_words, run_in};
use resources::Resources;
use std::hash::RandomState;
use std::test::Fail;

const SCHEMA: &str = "SCHEMA geo;\n\
    ENTITY point; coords : LIST [1:3] OF REAL; END_ENTITY;\n\
    END_SCHEMA;\n";

const NAMELESS: &str = "SCHEMA geo;\nENTITY ;\n";

const UNKNOWN: &str = "SCHEMA geo;\n\
    ENTITY placement; location : ponit; END_ENTITY;\n\
    END_SCHEMA;\n";

const RULED: &str = "SCHEMA geo;\n\
    ENTITY point; coords : LIST [1:3] OF REAL;\n\
    WHERE wr1 : nothing > 0; END_ENTITY;\n\
    END_SCHEMA;\n";

// The paths of the schema and of the file, the content of `S`, the data section of `F`, the status,
// and what is printed on the output and on the error output.
type Row = (
    &'static str,
    &'static str,
    &'static str,
    &'static str,
    u8,
    &'static str,
    &'static str,
);

const ROWS: &'static [Row] = &[
    (
        "S",
        "F",
        SCHEMA,
        "DATA;\n",
        0,
        "instances 0\nunknown 0\nfindings 0\n",
        "",
    ),
    (
        "S",
        "F",
        SCHEMA,
        "DATA;\n#1=POINT((0.));\n",
        0,
        "instances 1\nunknown 0\nfindings 0\n",
        "",
    ),
    (
        "S",
        "F",
        SCHEMA,
        "DATA;\n#1=POINT();\n#2=CIRCLE();\n",
        1,
        "F5 ParameterCount #1 0\nF1 UnknownEntity #2 0\ninstances 2\nunknown 0\nfindings 2\n",
        "",
    ),
    (
        "S",
        "F",
        NAMELESS,
        "DATA;\n",
        2,
        "",
        "schema: S2 Expected at byte 19\n",
    ),
    (
        "S",
        "F",
        UNKNOWN,
        "DATA;\n",
        2,
        "",
        "schema: S3 UnknownName PONIT\n",
    ),
    (
        "S",
        "F",
        "",
        "DATA;\n",
        2,
        "",
        "schema: S2 Expected at byte 0\n",
    ),
    (
        "S",
        "F",
        SCHEMA,
        "DATA;\n#1=();\n",
        2,
        "",
        "file: E6 Expected at byte 129\n",
    ),
    // The schema's fault comes first.
    (
        "S",
        "F",
        UNKNOWN,
        "DATA;\n#1=();\n",
        2,
        "",
        "schema: S3 UnknownName PONIT\n",
    ),
    (
        "S",
        "G",
        UNKNOWN,
        "DATA;\n",
        2,
        "",
        "schema: S3 UnknownName PONIT\n",
    ),
    ("G", "F", SCHEMA, "DATA;\n", 4, "", "device: schema\n"),
    ("S", "G", SCHEMA, "DATA;\n", 4, "", "device: file\n"),
    ("G", "G", SCHEMA, "DATA;\n", 4, "", "device: schema\n"),
    // Unchecked parts come before the counts.
    (
        "S",
        "F",
        RULED,
        "DATA;\n",
        0,
        "unchecked WHERE POINT.WR1 Name\ninstances 0\nunknown 0\nfindings 0\n",
        "",
    ),
];

// A row for an output with room for twelve bytes.
const CUT: &'static [Row] = &[("S", "F", RULED, "DATA;\n", 4, "unchecked WH", "")];

// Whether a row is right, over its schema and this file.
fn is_right_over(
    resources: Resources,
    words: &[String],
    file: &str,
    row: &Row,
    out_room: usize,
) -> bool {
    let (_, _, schema, _, status, out, err) = *row;
    let mut shelf = Shelf {
        alloc: resources.alloc,
        schema: schema.as_bytes(),
        file: file.as_bytes(),
        breaks: false,
    };
    let run = run_in(resources, words, &mut shelf, out_room, usize::MAX);
    run.comes_to(status, out.as_bytes(), err.as_bytes())
}

fn is_right_of(resources: Resources, file: &str, row: &Row, out_room: usize) -> bool {
    let (schema_path, file_path, ..) = *row;
    let mut words = Vec::new(resources.alloc);
    add_words(
        resources.alloc,
        &mut words,
        &["stepmin", "check", schema_path, file_path],
    ) && is_right_over(resources, &words, file, row, out_room)
}

// Whether a row is right if the output has this room.
fn is_right(resources: Resources, row: &Row, out_room: usize) -> bool {
    let (_, _, _, data, ..) = *row;
    match FILE.replace(resources.alloc, "DATA;\n", data) {
        Ok(file) => is_right_of(resources, file.as_str(), row, out_room),
        Err(_) => false,
    }
}

// Returns the number of the first wrong row if the output has this room, if any.
fn wrong_row(resources: Resources, rows: &'static [Row], out_room: usize) -> Option<usize> {
    for i in 0..rows.len() {
        if !is_right(resources, &rows[i], out_room) {
            return Some(i);
        }
    }
    None
}

#[test]
fn a_file_is_checked_or_refused(rt: HostRuntime) -> Result<(), Fail> {
    let resources = Resources {
        alloc: rt.alloc(),
        keys: RandomState::new(&rt)?,
    };
    assert_eq!(rt; wrong_row(resources, ROWS, usize::MAX), None);
    assert_eq!(rt; wrong_row(resources, CUT, 12), None);
    Ok(())
}
