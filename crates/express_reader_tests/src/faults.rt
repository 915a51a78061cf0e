//! The lines of faults.

use crate::rows::expect_none;
use express_lexer::token::TextFault;
use express_reader::fault::{FaultKind, LeftOut, NameFault, SchemaFault};
use std::alloc::Global;
use std::fmt::Display;

/// A fault of a token, of a text, of the name `PONIT`, or of memory.
#[derive(Clone, Copy)]
enum Fault {
    Token(u64),
    Text(FaultKind, u64),
    Name(NameFault),
    Memory,
}

// A fault and its line.
type Case = (Fault, &'static str);

const CASES: &'static [Case] = &[
    (Fault::Token(1), "S1 BadToken at byte 1"),
    (
        Fault::Text(FaultKind::LeftOut(LeftOut::SecondSchema), 7),
        "S8 LeftOut SecondSchema at byte 7",
    ),
    (Fault::Memory, "memory"),
    (Fault::Name(NameFault::UnknownName), "S3 UnknownName PONIT"),
    (
        Fault::Name(NameFault::DuplicateName),
        "S4 DuplicateName PONIT",
    ),
    (
        Fault::Name(NameFault::SupertypeCycle),
        "S5 SupertypeCycle PONIT",
    ),
    (Fault::Name(NameFault::TypeCycle), "S6 TypeCycle PONIT"),
];

fn is_line<D: Display + Drop>(alloc: Global, fault: D, line: &str) -> bool {
    match fault.to_string(alloc) {
        Ok(text) => text.as_str() == line,
        Err(_) => false,
    }
}

fn is_line_of_name(alloc: Global, kind: NameFault, line: &str) -> bool {
    match String::from_str(alloc, "PONIT") {
        Ok(name) => is_line(alloc, SchemaFault::Name { kind, name }, line),
        Err(_) => false,
    }
}

fn is_right(alloc: Global, case: Case) -> bool {
    let (fault, line) = case;
    match fault {
        Fault::Token(place) => is_line(alloc, TextFault { place }, line),
        Fault::Text(kind, place) => is_line(alloc, SchemaFault::Text { kind, place }, line),
        Fault::Name(kind) => is_line_of_name(alloc, kind, line),
        Fault::Memory => is_line(alloc, SchemaFault::Memory, line),
    }
}

// Returns the number of the first fault with another line, if any.
fn wrong_case(alloc: Global, cases: &[Case]) -> Option<usize> {
    for i in 0..cases.len() {
        if !is_right(alloc, cases[i]) {
            return Some(i);
        }
    }
    None
}

#[test]
fn faults_are_lines(rt: HostRuntime) {
    expect_none(&rt, wrong_case(rt.alloc(), CASES));
}
