//! Tokens of the exchange structure (ISO 10303-21, 5.2 and 6).

use step_literals::literal::{Bits, Decimal, Text, Word};

/// A mark between tokens.
#[derive(Clone, Copy, Debug, PartialEq, Eq)]
pub enum Mark {
    Open,
    Close,
    Comma,
    Semicolon,
    Equals,
    Dollar,
    Asterisk,
}

/// The kind of a token, with its value.
#[derive(Clone, Copy)]
pub enum Sort<'a> {
    /// `ISO-10303-21`
    Begin,
    /// `END-ISO-10303-21`
    End,
    Keyword(Word<'a>),
    /// `!` and the keyword
    UserDefined(Word<'a>),
    /// `&SCOPE`
    Scope,
    /// `#` and the digits of the number
    Name(u64),
    Integer(Decimal<'a>),
    Real(Decimal<'a>),
    /// The word between dots
    Element(Word<'a>),
    String(Text<'a>),
    Binary(Bits<'a>),
    Mark(Mark),
}

/// A token, the bytes that spell it, and the number of bytes before it.
#[derive(Clone, Copy)]
pub struct Token<'a> {
    pub sort: Sort<'a>,
    pub text: &'a [u8],
    pub place: u64,
}
