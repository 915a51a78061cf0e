//! Texts that are certificates, texts of the old version, and texts with a bad line.

use certificate_text::fault::CertFault;
use certificate_text::read::read_certificate;
use std::alloc::Global;

/// What is tested, and a text.
type Text = (&'static str, &'static [u8]);

/// What is tested, a text, and its first bad line.
type BadText = (&'static str, &'static [u8], u64);

const CERTIFICATES: &'static [Text] = &[
    (
        "no instances",
        b"STEPCERT 2\ntable 1\nrounds 0\ntable 2\nrounds 0\nend\n",
    ),
    (
        "two points and a placement of each, in two other tables",
        b"STEPCERT 2\ntable 1\nrounds 2\nC0\nC1\nC2=C0@1\nC3=C1@2\n#1=C0\n#2=C2\n#3=C1\n#4=C3\ntable 2\nrounds 0\nC0\n#1=C0\nend\n",
    ),
    (
        "the greatest numbers",
        b"STEPCERT 2\ntable 1\nrounds 4294967295\nC0\nC1=C0@4294967295\n#18446744073709551615=C1\ntable 2\nrounds 0\nend\n",
    ),
    (
        "members in the other order",
        b"STEPCERT 2\ntable 1\nrounds 0\nC0\n#2=C0\n#1=C0\ntable 2\nrounds 0\nend\n",
    ),
    (
        "a member twice, and name 0",
        b"STEPCERT 2\ntable 1\nrounds 0\nC0\n#0=C0\n#0=C0\ntable 2\nrounds 0\nend\n",
    ),
    (
        "a class without members, and rounds at which nothing parts",
        b"STEPCERT 2\ntable 1\nrounds 3\nC0\ntable 2\nrounds 3\nC0\nend\n",
    ),
];

const OLD: &'static [Text] = &[
    ("its first line alone", b"STEPCERT 1\n"),
    ("the old version", b"STEPCERT 1\nrounds 0\nend\n"),
    ("the old version, whatever follows", b"STEPCERT 1\nanything"),
];

const BAD: &'static [BadText] = &[
    ("no line", b"", 1),
    ("the old version, unended", b"STEPCERT 1", 1),
    ("a later version", b"STEPCERT 3\n", 1),
    ("a carriage return", b"STEPCERT 2\r\n", 1),
    ("an unended line", b"STEPCERT 2", 1),
    ("a line alone", b"STEPCERT 2\n", 2),
    ("the second table first", b"STEPCERT 2\ntable 2\n", 2),
    ("no rounds", b"STEPCERT 2\ntable 1\nC0\n", 3),
    ("a leading zero", b"STEPCERT 2\ntable 1\nrounds 02\n", 3),
    (
        "rounds of 2^32",
        b"STEPCERT 2\ntable 1\nrounds 4294967296\n",
        3,
    ),
    (
        "nothing behind the rounds",
        b"STEPCERT 2\ntable 1\nrounds 4294967295\n",
        4,
    ),
    ("an empty line", b"STEPCERT 2\ntable 1\nrounds 0\n\n", 4),
    ("no class 0", b"STEPCERT 2\ntable 1\nrounds 1\nC1\n", 4),
    (
        "a class that is its own parent",
        b"STEPCERT 2\ntable 1\nrounds 0\nC0=C0@1\n",
        4,
    ),
    (
        "a blank behind a class",
        b"STEPCERT 2\ntable 1\nrounds 0\nC0 \n",
        4,
    ),
    (
        "a class with a leading zero",
        b"STEPCERT 2\ntable 1\nrounds 0\nC00\n",
        4,
    ),
    (
        "a class with a sign",
        b"STEPCERT 2\ntable 1\nrounds 0\nC+0\n",
        4,
    ),
    (
        "a class beyond the last",
        b"STEPCERT 2\ntable 1\nrounds 0\nC4294967295\n",
        4,
    ),
    (
        "a parent of its own number",
        b"STEPCERT 2\ntable 1\nrounds 2\nC0\nC1\nC2=C2@1\n",
        6,
    ),
    (
        "a split behind the last round",
        b"STEPCERT 2\ntable 1\nrounds 2\nC0\nC1\nC2=C0@3\n",
        6,
    ),
    (
        "a split at round 0",
        b"STEPCERT 2\ntable 1\nrounds 2\nC0\nC1\nC2=C0@0\n",
        6,
    ),
    (
        "a split when its parent begins",
        b"STEPCERT 2\ntable 1\nrounds 2\nC0\nC1\nC2=C0@1\nC3=C2@1\n",
        7,
    ),
    (
        "a class that isn't there",
        b"STEPCERT 2\ntable 1\nrounds 2\nC0\nC1\nC2=C0@1\nC3=C1@2\n#1=C0\n#2=C9\n",
        9,
    ),
    (
        "a class behind a member",
        b"STEPCERT 2\ntable 1\nrounds 2\nC0\n#1=C0\nC1\n",
        6,
    ),
    (
        "a name of 2^64",
        b"STEPCERT 2\ntable 1\nrounds 2\nC0\n#18446744073709551616=C0\n",
        5,
    ),
    (
        "nothing behind a member",
        b"STEPCERT 2\ntable 1\nrounds 2\nC0\n#18446744073709551615=C0\n",
        6,
    ),
    (
        "the end behind the first table",
        b"STEPCERT 2\ntable 1\nrounds 0\nend\n",
        4,
    ),
    (
        "no end",
        b"STEPCERT 2\ntable 1\nrounds 0\ntable 2\nrounds 0\n",
        6,
    ),
    (
        "an unended end",
        b"STEPCERT 2\ntable 1\nrounds 0\ntable 2\nrounds 0\nend",
        6,
    ),
    (
        "a second end",
        b"STEPCERT 2\ntable 1\nrounds 0\ntable 2\nrounds 0\nend\nend\n",
        7,
    ),
    (
        "a byte behind the end",
        b"STEPCERT 2\ntable 1\nrounds 0\ntable 2\nrounds 0\nend\nx",
        7,
    ),
];

/// Whether a text has this fault; `None` for a certificate. Far more members are expected than
/// there are, so memory is requested according to the text.
fn has(alloc: Global, text: &[u8], fault: Option<CertFault>) -> bool {
    match read_certificate(alloc, text, usize::MAX) {
        Ok(_) => fault.is_none(),
        Err(found) => fault == Some(found),
    }
}

/// Returns what is tested by the first of these texts with another outcome, if any.
fn wrong_text(alloc: Global, texts: &[Text], fault: Option<CertFault>) -> Option<&'static str> {
    for (what, text) in texts {
        if !has(alloc, text, fault) {
            return Some(*what);
        }
    }
    None
}

/// Returns what is tested by the first text whose first bad line is another one, if any.
fn wrong_line(alloc: Global) -> Option<&'static str> {
    for (what, text, line) in BAD {
        if !has(alloc, text, Some(CertFault::BadText { line: *line })) {
            return Some(*what);
        }
    }
    None
}

/// Returns what is tested by the first text with another outcome than its table expects, if any.
pub(crate) fn wrong_answer(alloc: Global) -> Option<&'static str> {
    wrong_text(alloc, CERTIFICATES, None)
        .or(wrong_text(alloc, OLD, Some(CertFault::OldVersion)))
        .or(wrong_line(alloc))
}
