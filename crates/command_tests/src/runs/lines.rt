//! The effect of arguments and devices on a run, and the lines of its faults.

use super::{Ending, FILE, Paper, run};
use command_line::command_words::unread_words;
use commands::command::{refuse, refuse_to_read};
use devices::counted::Counted;
use files::fault::{FileFault, Role, print_line};
use files::read::ReadFault;
use resources::Resources;
use std::alloc::Global;
use std::hash::RandomState;
use std::io;
use std::test::Fail;
use step_structures::fault::{FaultKind, LeftOut};

// What `--help` prints.
const HELP: &str = "Checks STEP files (ISO 10303-21), and makes them smaller\n\n\
    Usage: stepmin <COMMAND>\n\n\
    Commands:\n  \
    plain    Writes the normal text of a STEP file\n  \
    check    Reports where a STEP file breaks its schema\n  \
    shrink   Writes a smaller file, in which equal instances are one, and its certificate\n  \
    verify   Checks the certificate CERT of a smaller file OUT\n  \
    presets  Lists the presets of --merge, and what each has\n  \
    help     Print this message or the help of the given subcommand(s)\n\n\
    Options:\n  \
    -h, --help     Print help\n  \
    -V, --version  Print version\n\n\
    Exit status:\n  \
    0  success\n  \
    1  the file breaks its schema, or --strict refuses the schema\n  \
    2  a text isn't a STEP file, schema or certificate, or the schema lacks a name in NAMES\n  \
    3  the arguments are wrong\n  \
    4  a file or an output can't be read or written\n  \
    5  out of memory\n  \
    6  the certificate doesn't prove OUT\n";

// What `plain --help` prints.
const PLAIN_HELP: &str = "Writes the normal text of a STEP file\n\n\
    Usage: stepmin plain <FILE>\n\n\
    Arguments:\n  \
    <FILE>  The file that is read\n\n\
    Options:\n  \
    -h, --help  Print help\n\n\
    Example:\n  \
    stepmin plain part.stp > plain.stp\n";

// What `check --help` prints.
const CHECK_HELP: &str = "Reports where a STEP file breaks its schema\n\n\
    Usage: stepmin check [OPTIONS] <SCHEMA> <FILE>\n\n\
    Arguments:\n  \
    <SCHEMA>  The schema that it is checked against\n  \
    <FILE>    The file that is read\n\n\
    Options:\n      \
    --schema-alias <NAMES>  Other names by which FILE may call the schema\n  \
    -h, --help                  Print help\n\n\
    Example:\n  \
    stepmin check ap214.exp part.stp\n";

const ALL: usize = usize::MAX;

// The length of the file.
const SENT: usize = 151;

const LOST: &str = "device: file\n";

const PLAIN: &'static [&'static str] = &["stepmin", "plain", "F"];

// The arguments, the file and whether it fails, the room of the outputs, the status, how many bytes
// of the file are written, and what is printed on the error output.
type Row = (
    &'static [&'static str],
    &'static str,
    bool,
    usize,
    usize,
    u8,
    usize,
    &'static str,
);

const ROWS: &'static [Row] = &[
    (PLAIN, FILE, false, ALL, 0, 0, SENT, ""),
    (
        &["other", "plain", "--", "F"],
        FILE,
        false,
        ALL,
        ALL,
        0,
        SENT,
        "",
    ),
    (
        &["stepmin", "plain", "F", "--"],
        FILE,
        false,
        ALL,
        ALL,
        0,
        SENT,
        "",
    ),
    (
        &["stepmin", "plain", "G"],
        FILE,
        false,
        ALL,
        ALL,
        4,
        0,
        LOST,
    ),
    (&["stepmin", "plain", ""], FILE, false, ALL, ALL, 4, 0, LOST),
    (
        &["stepmin", "plain", "-"],
        FILE,
        false,
        ALL,
        ALL,
        4,
        0,
        LOST,
    ),
    (
        &["stepmin", "plain", "help"],
        FILE,
        false,
        ALL,
        ALL,
        4,
        0,
        LOST,
    ),
    (
        &["stepmin", "plain", "--", "--help"],
        FILE,
        false,
        ALL,
        ALL,
        4,
        0,
        LOST,
    ),
    (PLAIN, FILE, true, ALL, ALL, 4, 0, LOST),
    (
        PLAIN,
        "",
        false,
        ALL,
        ALL,
        2,
        0,
        "file: E6 Expected at byte 0\n",
    ),
    (PLAIN, "", false, ALL, 4, 4, 0, "file"),
    (PLAIN, FILE, false, SENT, 0, 0, SENT, ""),
    (
        PLAIN,
        FILE,
        false,
        0,
        ALL,
        4,
        0,
        "device: output after 0 bytes\n",
    ),
    (
        PLAIN,
        FILE,
        false,
        1,
        ALL,
        4,
        1,
        "device: output after 1 bytes\n",
    ),
    (
        PLAIN,
        FILE,
        false,
        119,
        ALL,
        4,
        119,
        "device: output after 119 bytes\n",
    ),
    (
        PLAIN,
        FILE,
        false,
        150,
        ALL,
        4,
        150,
        "device: output after 150 bytes\n",
    ),
];

// Whether a run has the outcome of a row.
fn is_right_run(run: &Ending, row: &Row) -> bool {
    let (_, _, _, _, _, status, sent, line) = *row;
    run.status == status
        && run.out.len() == sent
        && FILE.as_bytes().starts_with(run.out.as_slice())
        && run.err.as_slice() == line.as_bytes()
}

fn is_right(resources: Resources, row: &Row) -> bool {
    let (words, file, breaks, out_room, err_room, ..) = *row;
    match run(resources, words, file, breaks, out_room, err_room) {
        Some(run) => is_right_run(&run, row),
        None => false,
    }
}

// Returns the number of the first row with another outcome, if any.
fn wrong_row(resources: Resources) -> Option<usize> {
    for i in 0..ROWS.len() {
        if !is_right(resources, &ROWS[i]) {
            return Some(i);
        }
    }
    None
}

#[test]
fn a_device_that_fails_is_told(rt: HostRuntime) -> Result<(), Fail> {
    let resources = Resources {
        alloc: rt.alloc(),
        keys: RandomState::new(&rt)?,
    };
    assert_eq!(rt; wrong_row(resources), None);
    Ok(())
}

// Returns what a run with this status prints on its own output, and how much it prints on the other
// one.
fn said_by(status: u8, run: &Ending) -> (&[u8], usize) {
    if status == 0 {
        (run.out.as_slice(), run.err.len())
    } else {
        (run.err.as_slice(), run.out.len())
    }
}

// The arguments, the status, and the text that is printed. Wrong arguments print a text that begins
// so on the error output. A text that is requested is printed on the output, and is exactly this
// one.
type Asked = (&'static [&'static str], u8, &'static str);

const ASKED: &'static [Asked] = &[
    (&["stepmin"], 3, "error: "),
    (&["stepmin", "check", "GEO"], 3, "error: "),
    (&["stepmin", "check", "GEO", "F", "F"], 3, "error: "),
    (
        &["stepmin", "shrink", "GEO", "F", "X", "X"],
        3,
        "error: OUT and CERT are the same\n",
    ),
    (
        &["stepmin", "shrink", "GEO", "F", "GEO", "X"],
        3,
        "error: SCHEMA and OUT are the same\n",
    ),
    (
        &["stepmin", "shrink", "GEO", "F", "X", "GEO"],
        3,
        "error: SCHEMA and CERT are the same\n",
    ),
    (
        &["stepmin", "shrink", "GEO", "F", "X", "F"],
        3,
        "error: FILE and CERT are the same\n",
    ),
    (
        &[
            "stepmin",
            "verify",
            "GEO",
            "F",
            "X",
            "Y",
            "--merge",
            "POINT,,NODE",
        ],
        3,
        "error: a name in NAMES is empty\n",
    ),
    (
        &[
            "stepmin", "shrink", "GEO", "F", "X", "Y", "--merge", "@lines",
        ],
        3,
        "error: a preset in NAMES isn't one of @points, @styles, @geometry, @all\n",
    ),
    (&["stepmin", "plain"], 3, "error: "),
    (&["stepmin", "plain", "F", "F"], 3, "error: "),
    (&["stepmin", "plain", "--strict", "F"], 3, "error: "),
    (&["stepmin", "plain", "-F"], 3, "error: "),
    (&["stepmin", "--", "plain", "F"], 3, "error: "),
    (&["stepmin", "plain", "--version"], 3, "error: "),
    (&["stepmin", "--help"], 0, HELP),
    (&["stepmin", "-h"], 0, HELP),
    (&["stepmin", "help"], 0, HELP),
    (&["stepmin", "--version"], 0, "stepmin 0.1.0\n"),
    (&["stepmin", "-V"], 0, "stepmin 0.1.0\n"),
    (&["stepmin", "plain", "--help"], 0, PLAIN_HELP),
    (&["stepmin", "check", "--help"], 0, CHECK_HELP),
];

// Whether the text is printed, and nothing else.
fn is_said_by(run: &Ending, status: u8, text: &str) -> bool {
    let (said, unsaid) = said_by(status, run);
    run.status == status
        && unsaid == 0
        && said.starts_with(text.as_bytes())
        && (status != 0 || said.len() == text.len())
}

fn is_said(resources: Resources, row: &Asked) -> bool {
    let (words, status, text) = *row;
    match run(resources, words, "", false, ALL, ALL) {
        Some(run) => is_said_by(&run, status, text),
        None => false,
    }
}

// Whether only three bytes of the text are printed, and the status is 4.
fn is_cut_by(run: &Ending, status: u8) -> bool {
    let (said, unsaid) = said_by(status, run);
    run.status == 4 && unsaid == 0 && said.len() == 3
}

// Whether the text is cut to three bytes if there is room for three.
fn is_cut(resources: Resources, row: &Asked) -> bool {
    let (words, status, _) = *row;
    match run(resources, words, "", false, 3, 3) {
        Some(run) => is_cut_by(&run, status),
        None => false,
    }
}

// Returns the number of the first row with another outcome, if any.
fn wrong_answer(resources: Resources) -> Option<usize> {
    for i in 0..ASKED.len() {
        if !is_said(resources, &ASKED[i]) || !is_cut(resources, &ASKED[i]) {
            return Some(i);
        }
    }
    None
}

#[test]
fn words_that_ask_for_no_file_are_answered(rt: HostRuntime) -> Result<(), Fail> {
    let resources = Resources {
        alloc: rt.alloc(),
        keys: RandomState::new(&rt)?,
    };
    assert_eq!(rt; wrong_answer(resources), None);
    Ok(())
}

// Whether the fault has this line.
fn has_line(alloc: Global, fault: FileFault, line: &str) -> bool {
    let mut err = Counted::new(Paper::new(alloc, ALL));
    let printed = print_line(&mut err, fault);
    let paper = err.into_inner();
    printed == Ok(()) && paper.bytes.as_slice() == line.as_bytes()
}

#[test]
fn a_fault_has_its_line(rt: HostRuntime) {
    let alloc = rt.alloc();
    let too_large = FileFault::of_read(Role::Schema, ReadFault::TooLarge);
    let too_many = FileFault::Text {
        role: Role::Output,
        kind: FaultKind::LeftOut(LeftOut::TooMany),
        place: u64::MAX,
    };
    let unread = FileFault::of_read(Role::Schema, ReadFault::Device);
    let unwritten = FileFault::Device {
        role: Role::Certificate,
        written: 0,
    };
    assert!(rt;
        has_line(
            alloc,
            too_large,
            "schema: E8 LeftOut TooLarge at byte 1099511627776\n"
        )
    );
    assert!(rt;
        has_line(
            alloc,
            too_many,
            "output: E8 LeftOut TooMany at byte 18446744073709551615\n"
        )
    );
    assert!(rt; has_line(alloc, unread, "device: schema\n"));
    assert!(rt; has_line(alloc, unwritten, "device: certificate after 0 bytes\n"));
}

// Whether arguments that the system can't deliver, with an error of this kind, are refused with
// this status and this line.
fn is_refused(alloc: Global, kind: io::ErrorKind, status: u8, line: &str) -> bool {
    let mut out = Counted::new(Paper::new(alloc, ALL));
    let mut err = Counted::new(Paper::new(alloc, ALL));
    let refusal = unread_words(alloc, &io::Error::from(kind));
    let ending = Ending {
        status: refuse(refusal, &mut out, &mut err),
        out: out.into_inner().bytes,
        err: err.into_inner().bytes,
    };
    ending.comes_to(status, b"", line.as_bytes())
}

#[test]
fn words_that_the_system_can_not_give_are_wrong(rt: HostRuntime) {
    let line = "error: an argument is not text\n";
    assert!(rt; is_refused(rt.alloc(), io::ErrorKind::InvalidData, 3, line));
    assert!(rt; is_refused(rt.alloc(), io::ErrorKind::OutOfMemory, 5, "memory\n"));
}

// Whether it is reported that no file can be read.
fn is_told(alloc: Global) -> bool {
    let mut err = Counted::new(Paper::new(alloc, ALL));
    let status = refuse_to_read(&mut err);
    let paper = err.into_inner();
    status == 4 && paper.bytes.as_slice() == LOST.as_bytes()
}

#[test]
fn without_keys_no_file_is_read(rt: HostRuntime) {
    assert!(rt; is_told(rt.alloc()));
}
