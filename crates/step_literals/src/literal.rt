//! Literals and words, as slices of the text that spells them.

ghost use Rattle.std.specs.Prelude.{◌≡◌, MatchResult};
ghost use Rattle.step_literals.specs.Tokens.{IsKeyword, Spells, binary};
ghost use Rattle.step_literals.specs.Literals.{IsDecimal, IsText};

mod binaries;
mod decimals;
mod items;
mod rest;
mod texts;
mod words;

use crate::binaries::binary_len;
use crate::bytes::is_keyword;
use crate::directives::broken_directive;
use crate::fault::{Flaw, TextFault};
use crate::numbers::{is_number, is_short_number};
use crate::strings::string_len;
pub use items::{Item, Items};

const APOSTROPHE: u8 = b'\'';

const QUOTE: u8 = b'"';

/// A keyword, or the name of an element (ISO 10303-21, 5.2): a letter or `_`, then letters, digits
/// and `_`. A word of EXPRESS (ISO 10303-11, 7.2 and 7.4) is one that begins with a letter.
#[derive(Clone, Copy)]
pub struct Word<'a> {
    text: &'a [u8],
    pub ghost spelled: { ∥ IsKeyword text.now ∥₁ },
}

/// A number (ISO 10303-21, 6.4.1 and 6.4.2): an integer or a real of at most 400 bytes. Its
/// exponent, if one is written, is from -999,999 to 999,999.
#[derive(Clone, Copy)]
pub struct Decimal<'a> {
    text: &'a [u8],
    pub ghost spelled: { ∥ IsDecimal text.now ∥₁ },
}

/// A string with its apostrophes (ISO 10303-21, 6.4.3), whose directives are all completed.
#[derive(Clone, Copy)]
pub struct Text<'a> {
    text: &'a [u8],
    pub ghost spelled: { ∥ IsText text.now ∥₁ },
}

/// A binary with its quotes (ISO 10303-21, 6.4.6).
#[derive(Clone, Copy)]
pub struct Bits<'a> {
    text: &'a [u8],
    pub ghost spelled: { ∥ Spells binary text.now ∥₁ },
}

impl<'a> Word<'a> {
    ghost use Rattle.step_literals.specs.steps.Faults.{IsNoWord};

    /// Returns the word that these bytes spell as a whole.
    ///
    /// # Errors
    ///
    /// - E1 at byte 0 if the bytes aren't a word
    pub fn read(bytes: &'a [u8]) -> Result<Word<'a>, TextFault>
        ensures { MatchResult result
            (λ w. (w.text.now ≡ bytes.now) × IsKeyword bytes.now)
            (λ e. IsNoWord bytes.now e.flaw e.place) }
    {
        if !is_keyword(bytes) {
            return Err(TextFault {
                flaw: Flaw::BadToken,
                place: 0,
            });
        }
        Ok(Word::from_keyword(bytes))
    }

    /// Returns the word that these bytes spell, which must be a keyword.
    pub fn from_keyword(text: &'a [u8]) -> Word<'a>
        requires { IsKeyword text.now }
        ensures { result.text.now ≡ text.now }
    {
        Word { text }
    }

    /// Returns the bytes that spell the word, in the case in which they were written.
    pub fn spelling(&self) -> &'a [u8]
        ensures { result ≡ self.now.text }
    {
        self.text
    }
}

impl<'a> Decimal<'a> {
    ghost use Rattle.step_literals.specs.steps.Faults.{IsNoDecimal};

    /// Returns the number that these bytes spell as a whole.
    ///
    /// # Errors
    ///
    /// - E1 at byte 0 if the bytes aren't a number
    /// - E4 at byte 0 if the number is beyond the limits
    pub fn read(bytes: &'a [u8]) -> Result<Decimal<'a>, TextFault>
        ensures { MatchResult result
            (λ d. (d.text.now ≡ bytes.now) × IsDecimal bytes.now)
            (λ e. IsNoDecimal bytes.now e.flaw e.place) }
    {
        if !is_number(bytes) {
            return Err(TextFault {
                flaw: Flaw::BadToken,
                place: 0,
            });
        }
        if !is_short_number(bytes) {
            return Err(TextFault {
                flaw: Flaw::NumberTooLong,
                place: 0,
            });
        }
        Ok(Decimal::from_number(bytes))
    }

    /// Returns the number that these bytes spell, which must be a number within the limits.
    pub fn from_number(text: &'a [u8]) -> Decimal<'a>
        requires { IsDecimal text.now }
        ensures { result.text.now ≡ text.now }
    {
        Decimal { text }
    }

    /// Returns the bytes that spell the number.
    pub fn spelling(&self) -> &'a [u8]
        ensures { result ≡ self.now.text }
    {
        self.text
    }
}

impl<'a> Text<'a> {
    ghost use Rattle.std.specs.Prelude.{IfErr};
    ghost use Rattle.step_literals.specs.steps.Faults.{IsNoText};

    /// Returns the string that these bytes spell as a whole.
    ///
    /// # Errors
    ///
    /// - E3 at the backslash of a directive that is begun but not completed
    /// - E2 at byte 0 if the bytes begin with an apostrophe, but no string ends in them
    /// - E1 at byte 0 if the bytes aren't a string for another reason
    pub fn read(bytes: &'a [u8]) -> Result<Text<'a>, TextFault>
        ensures cases { MatchResult result
            (λ text. (text.text.now ≡ bytes.now) × IsText bytes.now)
            (λ e. IsNoText bytes.now e.flaw e.place) }
        ensures otherwise { IfErr result (λ e. IsText bytes.now → ⊥) }
    {
        if bytes.is_empty() || bytes[0] != APOSTROPHE {
            return Err(TextFault {
                flaw: Flaw::BadToken,
                place: 0,
            });
        }
        let Some(len) = string_len(bytes) else {
            return Err(TextFault {
                flaw: Flaw::UnendedString,
                place: 0,
            });
        };
        if len < bytes.len() {
            return Err(TextFault {
                flaw: Flaw::BadToken,
                place: 0,
            });
        }
        if let Some(index) = broken_directive(&bytes[1..len - 1]) {
            return Err(TextFault {
                flaw: Flaw::BadEscape,
                place: 1 + index as u64,
            });
        }
        Ok(Text::from_string(bytes))
    }

    /// Returns the string that these bytes spell, which must be a string whose directives are all
    /// completed.
    pub fn from_string(text: &'a [u8]) -> Text<'a>
        requires { IsText text.now }
        ensures { result.text.now ≡ text.now }
    {
        Text { text }
    }

    /// Returns the bytes that spell the string, including its apostrophes.
    pub fn spelling(&self) -> &'a [u8]
        ensures { result ≡ self.now.text }
    {
        self.text
    }
}

impl<'a> Bits<'a> {
    ghost use Rattle.step_literals.specs.steps.Faults.{IsNoBits};

    /// Returns the binary that these bytes spell as a whole.
    ///
    /// # Errors
    ///
    /// - E1 at byte 0 if the bytes aren't a binary
    pub fn read(bytes: &'a [u8]) -> Result<Bits<'a>, TextFault>
        ensures { MatchResult result
            (λ bits. (bits.text.now ≡ bytes.now) × Spells binary bytes.now)
            (λ e. IsNoBits bytes.now e.flaw e.place) }
    {
        let fault = TextFault {
            flaw: Flaw::BadToken,
            place: 0,
        };
        if bytes.is_empty() || bytes[0] != QUOTE {
            return Err(fault);
        }
        match binary_len(bytes) {
            Some(len) if len == bytes.len() => Ok(Bits::from_binary(bytes)),
            _ => Err(fault),
        }
    }

    /// Returns the binary that these bytes spell, which must be a binary.
    pub fn from_binary(text: &'a [u8]) -> Bits<'a>
        requires { Spells binary text.now }
        ensures { result.text.now ≡ text.now }
    {
        Bits { text }
    }

    /// Returns the bytes that spell the binary, including its quotes.
    pub fn spelling(&self) -> &'a [u8]
        ensures { result ≡ self.now.text }
    {
        self.text
    }
}
