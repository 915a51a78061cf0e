//! Tokens of worked texts.

use crate::rows::expect_none;
use express_lexer::lexer::Lexer;
use express_lexer::token::Sort;
use step_literals::literal::Item;

/// A question about a text, with the expected answer.
#[derive(Clone, Copy)]
enum Question {
    /// The tokens up to the end or to a fault, and the byte offset of that fault.
    Tokens(&'static [(u8, &'static [u8])], Option<u64>),
    /// The byte offsets before the first token is looked for, and after the first token.
    Places(u64, u64),
    /// The codes of the characters of an encoded string.
    Codes(&'static [u32]),
}

// A text and a question.
type Case = (&'static [u8], Question);

const CASES: &'static [Case] = &[
    (
        b"\xEF\xBB\xBFSCHEMA geometry; -- (* no remark\nENTITY point (* a (* b *) c *)\n",
        Question::Tokens(
            &[
                (b'w', b"SCHEMA"),
                (b'w', b"geometry"),
                (b'm', b";"),
                (b'w', b"ENTITY"),
                (b'w', b"point"),
            ],
            None,
        ),
    ),
    (
        b"  SUBTYPE OF (item);\n  x_1 : LIST [0:?] OF REAL;\nEND_ENTITY;--",
        Question::Tokens(
            &[
                (b'w', b"SUBTYPE"),
                (b'w', b"OF"),
                (b'm', b"("),
                (b'w', b"item"),
                (b'm', b")"),
                (b'm', b";"),
                (b'w', b"x_1"),
                (b'm', b":"),
                (b'w', b"LIST"),
                (b'm', b"["),
                (b'i', b"0"),
                (b'm', b":"),
                (b'm', b"?"),
                (b'm', b"]"),
                (b'w', b"OF"),
                (b'w', b"REAL"),
                (b'm', b";"),
                (b'w', b"END_ENTITY"),
                (b'm', b";"),
            ],
            None,
        ),
    ),
    // Remarks.
    (b"", Question::Tokens(&[], None)),
    (b"a--b", Question::Tokens(&[(b'w', b"a")], None)),
    (b"--a\nb", Question::Tokens(&[(b'w', b"b")], None)),
    (b"(**)(* -- *)a", Question::Tokens(&[(b'w', b"a")], None)),
    (
        b"(* a (* b *) c *)d",
        Question::Tokens(&[(b'w', b"d")], None),
    ),
    (b" (* a (* b *) c", Question::Tokens(&[], Some(1))),
    (b"a(*)", Question::Tokens(&[(b'w', b"a")], Some(1))),
    (b"*)", Question::Tokens(&[(b'm', b"*"), (b'm', b")")], None)),
    // The longest mark.
    (
        b":=::= :<>::<> :<*< **||",
        Question::Tokens(
            &[
                (b'm', b":=:"),
                (b'm', b":="),
                (b'm', b":<>:"),
                (b'm', b":"),
                (b'm', b"<>"),
                (b'm', b":"),
                (b'm', b"<*"),
                (b'm', b"<"),
                (b'm', b"**"),
                (b'm', b"||"),
            ],
            None,
        ),
    ),
    (
        b"\\- ..",
        Question::Tokens(
            &[(b'm', b"\\"), (b'm', b"-"), (b'm', b"."), (b'm', b".")],
            None,
        ),
    ),
    // Literals.
    (
        b"01 1. 1.5e-3 1.E 1E5 -2",
        Question::Tokens(
            &[
                (b'i', b"01"),
                (b'r', b"1."),
                (b'r', b"1.5e-3"),
                (b'r', b"1."),
                (b'w', b"E"),
                (b'i', b"1"),
                (b'w', b"E5"),
                (b'm', b"-"),
                (b'i', b"2"),
            ],
            None,
        ),
    ),
    (
        b"'it''s\n'  ''\"000000e9\"\"\"%0110",
        Question::Tokens(
            &[
                (b's', b"'it''s\n'"),
                (b's', b"''"),
                (b'e', b"\"000000e9\""),
                (b'e', b"\"\""),
                (b'b', b"%0110"),
            ],
            None,
        ),
    ),
    // Texts with a fault.
    (b"a_ _", Question::Tokens(&[(b'w', b"a_")], Some(3))),
    (b" 'it''s", Question::Tokens(&[], Some(1))),
    (b" \"00000e9\"", Question::Tokens(&[], Some(1))),
    (b" \"000000e9", Question::Tokens(&[], Some(1))),
    (b"%2", Question::Tokens(&[], Some(0))),
    (b"1.e1000000", Question::Tokens(&[], Some(0))),
    (b"#", Question::Tokens(&[], Some(0))),
    (b" \x7F", Question::Tokens(&[], Some(1))),
    (b"\xEF\xBB\xBF \x7F", Question::Tokens(&[], Some(4))),
    // Byte offsets count from the start, including a byte order mark.
    (b"\xEF\xBB\xBFSCHEMA geometry;", Question::Places(3, 9)),
    (b" SCHEMA geometry;", Question::Places(0, 7)),
    // The character codes of encoded strings.
    (b"\"\"", Question::Codes(&[])),
    (b"\"000000e9\"", Question::Codes(&[0xE9])),
    (b"\"000000610001F600\"", Question::Codes(&[0x61, 0x1F600])),
    (b"\"FFFFFFFF00000000\"", Question::Codes(&[0xFFFF_FFFF, 0])),
];

// One letter for each kind of token.
fn letter(sort: Sort<'_>) -> u8 {
    match sort {
        Sort::Word(_) => b'w',
        Sort::Integer(_) => b'i',
        Sort::Real(_) => b'r',
        Sort::String(_) => b's',
        Sort::Encoded(_) => b'e',
        Sort::Binary(_) => b'b',
        Sort::Mark(_) => b'm',
    }
}

// Whether the next token has this kind and this spelling.
fn is_next(lexer: &mut Lexer<'_>, kind: u8, spelling: &[u8]) -> bool {
    match lexer.next_token() {
        Ok(Some(token)) => letter(token.sort) == kind && token.text == spelling,
        _ => false,
    }
}

fn has_tokens(text: &[u8], wanted: &[(u8, &'static [u8])], fault: Option<u64>) -> bool {
    let mut lexer = Lexer::new(text);
    for i in 0..wanted.len() {
        let (kind, spelling) = wanted[i];
        if !is_next(&mut lexer, kind, spelling) {
            return false;
        }
    }
    match lexer.next_token() {
        Ok(None) => fault.is_none(),
        Ok(Some(_)) => false,
        Err(end) => fault == Some(end.place),
    }
}

// Whether reading the first token moves the lexer from offset `start` to offset `behind`.
fn has_places(text: &[u8], start: u64, behind: u64) -> bool {
    let mut lexer = Lexer::new(text);
    let before = lexer.place();
    let reads = lexer.next_token().is_ok();
    reads && before == start && lexer.place() == behind
}

// Whether the first token is an encoded string of these characters.
fn has_codes(text: &[u8], codes: &[u32]) -> bool {
    let Ok(Some(token)) = Lexer::new(text).next_token() else {
        return false;
    };
    let Sort::Encoded(string) = token.sort else {
        return false;
    };
    let mut items = string.characters();
    for code in codes {
        if items.next() != Some(Item::Code(*code)) {
            return false;
        }
    }
    items.next().is_none()
}

fn is_right(case: Case) -> bool {
    let (text, question) = case;
    match question {
        Question::Tokens(tokens, fault) => has_tokens(text, tokens, fault),
        Question::Places(start, behind) => has_places(text, start, behind),
        Question::Codes(codes) => has_codes(text, codes),
    }
}

// Returns the number of the first case with another answer, if any.
fn wrong_case(cases: &[Case]) -> Option<usize> {
    for i in 0..cases.len() {
        if !is_right(cases[i]) {
            return Some(i);
        }
    }
    None
}

#[test]
fn texts_are_tokens(rt: HostRuntime) {
    expect_none(&rt, wrong_case(CASES));
}
