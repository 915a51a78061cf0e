//! Expressions of worked texts.

use crate::outline::outline;
use crate::rows::expect_none;
use express_expressions::reader::read_expression;
use express_lexer::lexer::Lexer;
use express_syntax::lexeme::Lexeme;
use std::alloc::{AllocError, Global};

// A text, the number of brackets that are open around it, and the outline of its expression; empty
// if the text isn't an expression.
type Case = (&'static [u8], u32, &'static [u8]);

const CASES: &'static [Case] = &[
    (b"a", 0, b"a"),
    (b"- 1", 0, b"-1"),
    (b"?", 0, b"?"),
    (b"UNKNOWN", 0, b"UNKNOWN"),
    (b"%01", 0, b"%01"),
    (b"\"000000e9\"", 0, b"\"000000e9\""),
    (b"((a))", 0, b"((a))"),
    (b"[]", 0, b"[]"),
    (b"[1, 2]", 0, b"[1 2]"),
    (b"NVL(a, b.c[1])", 0, b"NVL(a b.c[1])"),
    (b"NOT a AND b OR c", 0, b"OR(AND(NOT(a) b) c)"),
    (b"a XOR b AND c OR d", 0, b"OR(XOR(a AND(b c)) d)"),
    (b"{0 < volume <= 1.E3}", 0, b"{0 < volume <= 1.E3}"),
    (b"SELF\\shape.label <> 'x'", 0, b"<>(SELF\\shape.label 'x')"),
    (
        b"'GEO.LEN_M' in TypeOf(SELF.volume)",
        0,
        b"IN('GEO.LEN_M' TYPEOF(SELF.volume))",
    ),
    (
        b"SIZEOF(QUERY(r <* ratios | r <> 0.0)) > 0",
        0,
        b">(SIZEOF(QUERY(r ratios <>(r 0.0))) 0)",
    ),
    // Texts that aren't expressions.
    (b"", 0, b""),
    (b"a = b = c", 0, b""),
    (b"a AND", 0, b""),
    (b"NOT NOT a", 0, b""),
    (b"- a", 0, b""),
    (b"1 [2]", 0, b""),
    (b"(a", 0, b""),
    (b"a b", 0, b""),
    (b"[1,]", 0, b""),
    // At most 64 brackets.
    (b"(a)", 63, b"(a)"),
    (b"((a))", 63, b""),
    (b"a", 64, b"a"),
    (b"(a)", 64, b""),
];

// Adds the lexemes of a text, up to its end or to a fault.
fn add_lexemes<'a>(text: &'a [u8], lexemes: &mut Vec<Lexeme<'a>>) -> Result<(), AllocError> {
    let mut lexer = Lexer::new(text);
    for _ in 0..200 {
        match lexer.next_token() {
            Ok(Some(token)) => lexemes.push(Lexeme::of(&token))?,
            _ => break,
        }
    }
    Ok(())
}

// Whether there is a text, and nothing is left of it.
fn is_whole(left: Option<&[u8]>) -> bool {
    match left {
        Some(left) => left.is_empty(),
        None => false,
    }
}

// Whether the expression of these lexemes, inside `depth` brackets, has this outline.
fn are_outlined(alloc: Global, lexemes: &[Lexeme<'_>], depth: u32, wanted: &[u8]) -> bool {
    match read_expression(alloc, lexemes, depth) {
        Ok(Some(expression)) => is_whole(outline(Some(wanted), &expression)),
        Ok(None) => wanted.is_empty(),
        Err(_) => false,
    }
}

fn is_right(alloc: Global, case: Case) -> bool {
    let (text, depth, wanted) = case;
    let mut lexemes = Vec::new(alloc);
    add_lexemes(text, &mut lexemes).is_ok() && are_outlined(alloc, &lexemes, depth, wanted)
}

// Returns the number of the first case that is read as another expression, if any.
fn wrong_case(alloc: Global, cases: &[Case]) -> Option<usize> {
    for i in 0..cases.len() {
        if !is_right(alloc, cases[i]) {
            return Some(i);
        }
    }
    None
}

#[test]
fn expressions_are_trees(rt: HostRuntime) {
    expect_none(&rt, wrong_case(rt.alloc(), CASES));
}
