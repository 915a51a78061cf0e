//! Tokens of EXPRESS text (ISO 10303-11, 7), and the fault if there is none.

use crate::literal::{Binary, EncodedString, SimpleString};
use crate::marks::Mark;
use step_literals::literal::{Decimal, Word};
use thiserror::Error;

/// The kind of a token, with its value.
#[derive(Clone, Copy)]
pub enum Sort<'a> {
    /// A letter, then letters, digits and `_` (ISO 10303-11, 7.2 and 7.4). The grammar decides
    /// whether it is a keyword.
    Word(Word<'a>),
    Integer(Decimal<'a>),
    Real(Decimal<'a>),
    String(SimpleString<'a>),
    Encoded(EncodedString<'a>),
    Binary(Binary<'a>),
    Mark(Mark),
}

/// A token, its bytes, and the number of bytes before it.
#[derive(Clone, Copy)]
pub struct Token<'a> {
    pub sort: Sort<'a>,
    pub text: &'a [u8],
    pub place: u64,
}

/// No token within the limits follows the layout. `place` is the number of bytes before that
/// position. There is one of these:
///
/// - a byte that begins no token,
/// - a string, a binary or a remark that isn't complete,
/// - a number of more than 400 bytes, or with an exponent beyond 999,999 either way.
#[derive(Clone, Copy, Debug, PartialEq, Eq, Error)]
#[error("S1 BadToken at byte {place}")]
pub struct TextFault {
    pub place: u64,
}
