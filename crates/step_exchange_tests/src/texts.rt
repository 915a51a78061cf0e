//! How a text is read, or why it is refused.

use crate::printer::Limited;
use crate::rows::expect_none;
use devices::counted::Counted;
use std::alloc::Global;
use std::hash::RandomState;
use std::test::Fail;
use step_exchange::exchange::read_exchange;
use step_exchange::write::write_plain;
use step_structures::fault::TextFault;

const FILE: &str = "ISO-10303-21;\n\
    HEADER;\n\
    FILE_DESCRIPTION((''),'2;1');\n\
    FILE_NAME('','',(''),(''),'','','');\n\
    FILE_SCHEMA(('GEO'));\n\
    ENDSEC;\n\
    DATA;\n\
    ENDSEC;\n\
    END-ISO-10303-21;\n";

// Lists in lists, to the greatest depth.
const DEEP: &str = "DATA;\n#1=A\
    ((((((((((((((((((((((((((((((((\
    ((((((((((((((((((((((((((((((((\
    ))))))))))))))))))))))))))))))))\
    ))))))))))))))))))))))))))))))));\n";

const TOO_DEEP: &str = "DATA;\n#1=A(\
    ((((((((((((((((((((((((((((((((\
    ((((((((((((((((((((((((((((((((\
    ))))))))))))))))))))))))))))))))\
    )))))))))))))))))))))))))))))))));\n";

const TYPED_TOO_DEEP: &str = "DATA;\n#1=A\
    ((((((((((((((((((((((((((((((((\
    ((((((((((((((((((((((((((((((((\
    B(1)\
    ))))))))))))))))))))))))))))))))\
    ))))))))))))))))))))))))))))))));\n";

// Two data sections with headings, without the end of the second.
const TWO_SECTIONS: &str = "DATA('a',('GEO'));\n\
    #1=POINT((0.));\n\
    #2=POINT((0.));\n\
    ENDSEC;\n\
    DATA('b',('GEO'));\n\
    #3=POINT((0.));\n\
    #4=PLACEMENT(#2,$);\n";

// A row `(old, new, wanted)`: the file with `new` in place of `old` has this normal text in place
// of `old`, or is refused with a fault of this name at this byte offset.
type Row = (
    &'static str,
    &'static str,
    Result<&'static str, (&'static str, u64)>,
);

const TEXTS: &'static [Row] = &[
    // Only layout, case and the spelling of names are normalized.
    ("DATA;\n", "DATA;\n", Ok("DATA;\n")),
    (
        "DATA;\n",
        "DATA;\n#01 = point ( ( 0., /* c */ 1. ) ) ;\n",
        Ok("DATA;\n#1=POINT((0.,1.));\n"),
    ),
    (
        "DATA;\n",
        "DATA;\n#1=POINT((0.,1.));\n",
        Ok("DATA;\n#1=POINT((0.,1.));\n"),
    ),
    (
        "DATA;\n",
        "DATA;\n#1=A('ab\nc');\n",
        Ok("DATA;\n#1=A('ab\nc');\n"),
    ),
    (
        "DATA;\n",
        "DATA;\n#1=A('C:\\temp');\n",
        Ok("DATA;\n#1=A('C:\\temp');\n"),
    ),
    (
        "DATA;\n",
        "DATA;\n#1=(SHAPE('')SOLID(LEN_M(1.E2),\"0F\",.T.,#1,$,*));\n",
        Ok("DATA;\n#1=(SHAPE('')SOLID(LEN_M(1.E2),\"0F\",.T.,#1,$,*));\n"),
    ),
    (
        "DATA;\n",
        "DATA;\n#1=(A()B()C()D()E()F()G()H()I()J()K()L());\n",
        Ok("DATA;\n#1=(A()B()C()D()E()F()G()H()I()J()K()L());\n"),
    ),
    ("DATA;\n", DEEP, Ok(DEEP)),
    (
        "'GEO'));\n",
        "'GEO'));\nENDSEC();\n",
        Ok("'GEO'));\nENDSEC();\n"),
    ),
    (
        "ISO-10303-21;\nHEADER",
        "\u{feff} ISO-10303-21;\nHEADER",
        Ok("ISO-10303-21;\nHEADER"),
    ),
    (
        "END-ISO-10303-21;\n",
        "END-ISO-10303-21;\n /* the end */",
        Ok("END-ISO-10303-21;\n"),
    ),
    // Instances.
    (
        "DATA;\n",
        "DATA;\n#1=SHAPE('abc\n",
        Err(("E2 UnendedString", 134)),
    ),
    (
        "DATA;\n",
        "DATA;\n#1=SHAPE('\\X2\\00E');\n",
        Err(("E3 BadEscape", 135)),
    ),
    (
        "DATA;\n",
        "DATA;\n#1=&SCOPE\n",
        Err(("E8 LeftOut Scope", 128)),
    ),
    (
        "DATA;\n",
        "DATA;\n#1=!A();\n",
        Err(("E8 LeftOut UserDefined", 128)),
    ),
    (
        "DATA;\n",
        "DATA;\n#1=POINT((0.));\n#1=POINT((0.));\n",
        Err(("E7 DuplicateName", 141)),
    ),
    (
        "DATA;\n",
        "DATA;\n#1=(A()A());\n",
        Err(("E7 DuplicateName", 132)),
    ),
    (
        "DATA;\n",
        "DATA;\n#1=(A()a());\n",
        Err(("E7 DuplicateName", 132)),
    ),
    (
        "DATA;\n",
        "DATA;\n#1=(A()B()C()D()E()F()G()H()I()J()K()k());\n",
        Err(("E7 DuplicateName", 162)),
    ),
    (
        "DATA;\n",
        "DATA;\n#1=(A()B()C()D()E()F()G()H()I()J()K()h());\n",
        Err(("E7 DuplicateName", 162)),
    ),
    (
        "DATA;\n",
        "DATA;\n#01=A();\n#1=A();\n",
        Err(("E7 DuplicateName", 134)),
    ),
    ("DATA;\n", "DATA;\n#1=();\n", Err(("E6 Expected", 129))),
    ("DATA;\n", "DATA;\n#1=A(?);\n", Err(("E1 BadToken", 130))),
    (
        "DATA;\n",
        "DATA;\n#1=A(/* c );\n",
        Err(("E1 BadToken", 130)),
    ),
    (
        "DATA;\n",
        "DATA;\n#1=A(1.E1000000);\n",
        Err(("E4 NumberTooLong", 130)),
    ),
    (
        "DATA;\n",
        "DATA;\n#18446744073709551616=POINT((0.));\n",
        Err(("E5 NameTooLarge", 125)),
    ),
    ("DATA;\n", TOO_DEEP, Err(("E9 TooDeep", 193))),
    ("DATA;\n", TYPED_TOO_DEEP, Err(("E9 TooDeep", 193))),
    // The header.
    ("FILE_SCHEMA(('GEO'));\n", "", Err(("E10 HeaderFault", 89))),
    ("FILE_NAME", "FILE_NAMES", Err(("E10 HeaderFault", 52))),
    ("('GEO')", "'GEO'", Err(("E10 HeaderFault", 89))),
    ("('GEO')", "()", Err(("E10 HeaderFault", 89))),
    ("('GEO')", "('GEO','GEA')", Err(("E10 HeaderFault", 89))),
    ("'GEO'", "'GEO',?", Err(("E1 BadToken", 108))),
    // Bytes after the end, and an empty text.
    (
        "END-ISO-10303-21;\n",
        "END-ISO-10303-21;\nx",
        Err(("E6 Expected", 151)),
    ),
    (
        "END-ISO-10303-21;\n",
        "END-ISO-10303-21;\nSIGNATURE;",
        Err(("E8 LeftOut Signature", 151)),
    ),
    (
        "END-ISO-10303-21;\n",
        "END-ISO-10303-21;\n\0'",
        Err(("E2 UnendedString", 152)),
    ),
    (FILE, "", Err(("E6 Expected", 0))),
];

// Rows with data sections and what occurs between them.
const SECTIONS: &'static [Row] = &[
    (
        "DATA;\nENDSEC;\n",
        "DATA;\nENDSEC;\nDATA;\n",
        Err(("E6 Expected", 139)),
    ),
    (
        "DATA;\n",
        "DATA;\nENDSEC;\nDATA;\n",
        Ok("DATA;\nENDSEC;\nDATA;\n"),
    ),
    (
        "DATA;",
        "DATA ( 'a', /* c */ ('GEO') ) ;",
        Ok("DATA('a',('GEO'));"),
    ),
    ("DATA;", "DATA('a');", Err(("E6 Expected", 127))),
    ("DATA;", "DATA('a','GEO');", Err(("E6 Expected", 128))),
    (
        "DATA;",
        "DATA('a',('GEO','GEA'));",
        Err(("E6 Expected", 134)),
    ),
    ("DATA;\n", TWO_SECTIONS, Ok(TWO_SECTIONS)),
    ("DATA;", "data;", Ok("DATA;")),
    (
        "DATA;\n",
        "DATA;\nENDSEC;\nREFERENCE;\n",
        Err(("E8 LeftOut Reference", 133)),
    ),
    (
        "END-ISO",
        "SIGNATURE;\nEND-ISO",
        Err(("E8 LeftOut Signature", 133)),
    ),
    (
        "DATA;\n",
        "DATA;\n#1=A();\nENDSEC;\nDATA;\n#1=A();\n",
        Err(("E7 DuplicateName", 147)),
    ),
    ("DATA;\nENDSEC;\n", "", Err(("E6 Expected", 119))),
    (
        "DATA;\nENDSEC;\n",
        "DATA;\nENDSEC;\nANCHOR;\n",
        Err(("E8 LeftOut Anchor", 133)),
    ),
    ("DATA;", "ANCHOR;", Err(("E8 LeftOut Anchor", 119))),
    ("DATA;", "REFERENCE;", Err(("E8 LeftOut Reference", 119))),
    ("DATA;", "signature;", Err(("E8 LeftOut Signature", 119))),
    ("DATA;", "DATE;", Err(("E6 Expected", 119))),
    ("END-ISO-10303-21;\n", "", Err(("E6 Expected", 133))),
];

// Returns the normal text of a text, or its fault.
fn normal_text(alloc: Global, keys: RandomState, text: &[u8]) -> Result<Vec<u8>, TextFault> {
    let exchange = read_exchange(alloc, keys, text)?;
    let mut sink = Counted::new(Limited {
        bytes: Vec::new(alloc),
        step: usize::MAX,
        room: usize::MAX,
    });
    match write_plain(&exchange, &mut sink) {
        Ok(()) => Ok(sink.into_inner().bytes),
        Err(_) => Err(TextFault::Memory),
    }
}

// Whether these are the bytes of the file with `text` in place of `old`.
fn is_file_with(alloc: Global, bytes: &[u8], old: &str, text: &str) -> bool {
    match FILE.replace(alloc, old, text) {
        Ok(wanted) => wanted.as_bytes() == bytes,
        Err(_) => false,
    }
}

// Whether a fault is the one that a row expects.
fn is_refused_so(fault: TextFault, wanted: Result<&str, (&str, u64)>) -> bool {
    match (fault, wanted) {
        (TextFault::Fault { kind, place }, Err((name, at))) => kind.name() == name && place == at,
        _ => false,
    }
}

fn is_read_as(alloc: Global, keys: RandomState, file: &str, row: &Row) -> bool {
    let (old, _, wanted) = *row;
    match normal_text(alloc, keys, file.as_bytes()) {
        Ok(bytes) => match wanted {
            Ok(text) => is_file_with(alloc, &bytes, old, text),
            Err(_) => false,
        },
        Err(fault) => is_refused_so(fault, wanted),
    }
}

fn is_right(alloc: Global, keys: RandomState, row: &Row) -> bool {
    let (old, new, _) = *row;
    match FILE.replace(alloc, old, new) {
        Ok(file) => is_read_as(alloc, keys, file.as_str(), row),
        Err(_) => false,
    }
}

// Returns the number of the first row with another outcome, if any.
fn wrong_row(alloc: Global, keys: RandomState, rows: &'static [Row]) -> Option<usize> {
    for i in 0..rows.len() {
        if !is_right(alloc, keys, &rows[i]) {
            return Some(i);
        }
    }
    None
}

#[test]
fn a_text_is_read_or_refused(rt: HostRuntime) -> Result<(), Fail> {
    let keys = RandomState::new(&rt)?;
    expect_none(&rt, wrong_row(rt.alloc(), keys, TEXTS));
    expect_none(&rt, wrong_row(rt.alloc(), keys, SECTIONS));
    Ok(())
}
