//! Why a text has no token where one is expected.

use thiserror::Error;

/// The kinds of flaws in a token.
#[derive(Clone, Copy, Debug, PartialEq, Eq, Error)]
pub enum Flaw {
    /// There is no token here. Causes are a byte that begins none, a name or sign without digits,
    /// an element without its dot, and a comment or a binary that isn't ended.
    #[error("E1 BadToken")]
    BadToken,
    /// A string that isn't ended.
    #[error("E2 UnendedString")]
    UnendedString,
    /// A directive in a string that is begun but not completed.
    #[error("E3 BadEscape")]
    BadEscape,
    /// A number of more than 400 bytes, or with a written exponent that isn't from -999,999 to
    /// 999,999.
    #[error("E4 NumberTooLong")]
    NumberTooLong,
    /// An instance name of 2^64 or more.
    #[error("E5 NameTooLarge")]
    NameTooLarge,
}

/// A flaw, and the number of bytes before the token, or before the backslash of a directive.
#[derive(Clone, Copy, Debug, PartialEq, Eq, Error)]
#[error("{flaw} at byte {place}")]
pub struct TextFault {
    pub flaw: Flaw,
    pub place: u64,
}
