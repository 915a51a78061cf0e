//! The token at the start of the rest of a text, by its first byte.
ghost use Rattle.std.specs.Prelude.{
  ◌≡◌,
  ◌||◌,
  ◌≤◌,
  ◌<◌,
  ◌∷◌,
  [],
  length,
  take,
  drop,
  MatchResult,
  slice_index,
  true,
  false,
  IfSome,
  IfNone,
};
ghost use Rattle.step_literals.specs.Bytes.{is_digit, is_letter};
ghost use Rattle.step_literals.specs.Tokens.{is_mark, is_sign};
ghost use Rattle.step_literals.specs.Numbers.{StartsNumber};
ghost use Rattle.step_lexer.specs.Front.{FrontOrFlaw, IsFront, IsFlawed, begins_number, mark_byte};

use crate::digits::digits_number;
use crate::token::{Mark, Sort};
use crate::words::{scope_at, user_defined_at, word_at};
use step_literals::binaries::binary_len;
use step_literals::bytes::{is_letter, word_len};
use step_literals::directives::broken_directive;
use step_literals::fault::Flaw;
use step_literals::literal::{Bits, Decimal, Text, Word};
use step_literals::numbers::{is_short_number, number_len, starts_number};
use step_literals::strings::{content_of, string_len};

/// Returns the number at the start of the bytes.
#[inline(always)]
pub fn number_at(bytes: &[u8]) -> Result<(Sort<'_>, usize), (Flaw, usize)>
    requires { StartsNumber bytes.now }
    ensures { FrontOrFlaw bytes.now result }
{
    let Some((len, is_real)) = number_len(bytes) else {
        return Err((Flaw::BadToken, 0));
    };
    let (text, _) = bytes.split_at(len);
    if !is_short_number(text) {
        return Err((Flaw::NumberTooLong, 0));
    }
    let number = Decimal::from_number(text);
    Ok((
        if is_real {
            Sort::Real(number)
        } else {
            Sort::Integer(number)
        },
        len,
    ))
}

/// Returns the string at the start of the bytes.
fn string_at(bytes: &[u8]) -> Result<(Sort<'_>, usize), (Flaw, usize)>
    requires { take 1 bytes.now ≡ 39 ∷ [] }
    ensures { FrontOrFlaw bytes.now result }
{
    let Some(len) = string_len(bytes) else {
        return Err((Flaw::UnendedString, 0));
    };
    let (text, _) = bytes.split_at(len);
    match broken_directive(content_of(text)) {
        Some(index) => Err((Flaw::BadEscape, 1 + index)),
        None => Ok((Sort::String(Text::from_string(text)), len)),
    }
}

/// Returns the binary at the start of the bytes.
fn binary_at(bytes: &[u8]) -> Result<(Sort<'_>, usize), (Flaw, usize)>
    requires { take 1 bytes.now ≡ 34 ∷ [] }
    ensures { FrontOrFlaw bytes.now result }
{
    let Some(len) = binary_len(bytes) else {
        return Err((Flaw::BadToken, 0));
    };
    let (text, _) = bytes.split_at(len);
    Ok((Sort::Binary(Bits::from_binary(text)), len))
}

/// Returns the enumeration element at the start of the bytes.
fn element_at(bytes: &[u8]) -> Result<(Sort<'_>, usize), (Flaw, usize)>
    requires { take 1 bytes.now ≡ 46 ∷ [] }
    ensures { FrontOrFlaw bytes.now result }
{
    let (_, rest) = bytes.split_at(1);
    if rest.is_empty() || !is_letter(rest[0]) {
        return Err((Flaw::BadToken, 0));
    }
    let (text, after) = rest.split_at(word_len(rest));
    if after.is_empty() || after[0] != b'.' {
        return Err((Flaw::BadToken, 0));
    }
    Ok((Sort::Element(Word::from_keyword(text)), text.len() + 2))
}

/// Returns the instance name at the start of the bytes.
fn name_at(bytes: &[u8]) -> Result<(Sort<'_>, usize), (Flaw, usize)>
    requires { take 1 bytes.now ≡ 35 ∷ [] }
    ensures { FrontOrFlaw bytes.now result }
{
    let (_, rest) = bytes.split_at(1);
    let (number, len) = digits_number(rest);
    if len == 0 {
        return Err((Flaw::BadToken, 0));
    }
    match number {
        Some(value) => Ok((Sort::Name(value), 1 + len)),
        None => Err((Flaw::NameTooLarge, 0)),
    }
}

/// Returns the mark that a byte is, if any.
fn mark_of(byte: u8) -> Option<Mark>
    ensures some { IfSome result (λ mark. mark_byte mark ≡ byte) }
    ensures none { IfNone result (is_mark byte ≡ false) }
{
    match byte {
        b'(' => Some(Mark::Open),
        b')' => Some(Mark::Close),
        b',' => Some(Mark::Comma),
        b';' => Some(Mark::Semicolon),
        b'=' => Some(Mark::Equals),
        b'$' => Some(Mark::Dollar),
        b'*' => Some(Mark::Asterisk),
        _ => None,
    }
}

/// Returns the token at the start of the bytes, which begin with no mark, letter, digit or sign.
#[inline(always)]
fn other_at(bytes: &[u8]) -> Result<(Sort<'_>, usize), (Flaw, usize)>
    requires some { 0 < length bytes.now }
    requires no_mark { is_mark (slice_index bytes.now 0) ≡ false }
    requires no_letter { is_letter (slice_index bytes.now 0) ≡ false }
    requires no_number { begins_number (slice_index bytes.now 0) ≡ false }
    ensures { FrontOrFlaw bytes.now result }
{
    match bytes[0] {
        b'#' => name_at(bytes),
        b'.' => element_at(bytes),
        b'\'' => string_at(bytes),
        b'"' => binary_at(bytes),
        b'!' => user_defined_at(bytes),
        b'&' => scope_at(bytes),
        _ => Err((Flaw::BadToken, 0)),
    }
}

/// Returns the token at the start of the bytes and its length. If there is none, returns its flaw
/// and the index of the flawed byte.
#[inline(always)]
pub fn front_at(bytes: &[u8]) -> Result<(Sort<'_>, usize), (Flaw, usize)>
    requires { 0 < length bytes.now }
    ensures { FrontOrFlaw bytes.now result }
{
    let first = bytes[0];
    if let Some(mark) = mark_of(first) {
        return Ok((Sort::Mark(mark), 1));
    }
    if is_letter(first) {
        Ok(word_at(bytes))
    } else if starts_number(first) {
        number_at(bytes)
    } else {
        other_at(bytes)
    }
}
