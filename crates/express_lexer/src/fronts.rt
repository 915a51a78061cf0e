//! The token at the beginning of the rest of a text, chosen by its first byte.
ghost use Rattle.std.specs.Prelude.{
  ◌≡◌,
  ◌≢◌,
  ◌||◌,
  ◌≤◌,
  ◌<◌,
  ◌∷◌,
  [],
  length,
  take,
  drop,
  MatchOption,
  slice_index,
  true,
  false,
};
ghost use Rattle.std.specs.List.{prefix_len};
ghost use Rattle.step_literals.specs.Bytes.{is_digit};
ghost use Rattle.express_lexer.specs.Tokens.{is_letter, is_bit};
ghost use Rattle.express_lexer.specs.Front.{FrontOrFlaw, IsFront, IsFlawed};

use crate::literal::{Binary, EncodedString, SimpleString};
use crate::marks::mark_of;
use crate::token::Sort;
use step_literals::bytes::{hex_len, is_digit, word_len};
use step_literals::literal::{Decimal, Word};
use step_literals::numbers::{is_short_number, number_len};
use step_literals::strings::string_len;

fn is_letter(byte: u8) -> bool
    ensures { result ≡ is_letter byte }
{
    matches!(byte, b'A'..=b'Z' | b'a'..=b'z')
}

/// Returns the number of bits at the beginning of the bytes.
fn bits_len(bytes: &[u8]) -> usize
    ensures within { result ≤ length bytes.now }
    ensures len { result ≡ prefix_len is_bit bytes.now }
{
    bytes
        .iter()
        .take_while(|b| matches!(**b, b'0' | b'1'))
        .count()
}

/// Returns the word at the beginning of the bytes, and its length.
fn word_at(bytes: &[u8]) -> (Sort<'_>, usize)
    requires { is_letter (slice_index bytes.now 0) ≡ true }
    ensures { IsFront bytes.now result.0 result.1 }
{
    let len = word_len(bytes);
    let (text, _) = bytes.split_at(len);
    (Sort::Word(Word::from_keyword(text)), len)
}

/// Returns the number at the beginning of the bytes and its length, if it is within the limits.
fn number_at(bytes: &[u8]) -> Option<(Sort<'_>, usize)>
    requires { is_digit (slice_index bytes.now 0) ≡ true }
    ensures { FrontOrFlaw bytes.now result }
{
    let (len, is_real) = number_len(bytes)?;
    let (text, _) = bytes.split_at(len);
    if !is_short_number(text) {
        return None;
    }
    let number = Decimal::from_number(text);
    let sort = if is_real {
        Sort::Real(number)
    } else {
        Sort::Integer(number)
    };
    Some((sort, len))
}

/// Returns the string at the beginning of the bytes and its length, if it is complete.
fn string_at(bytes: &[u8]) -> Option<(Sort<'_>, usize)>
    requires { take 1 bytes.now ≡ 39 ∷ [] }
    ensures { FrontOrFlaw bytes.now result }
{
    let len = string_len(bytes)?;
    let (text, _) = bytes.split_at(len);
    Some((Sort::String(SimpleString::from_string(text)), len))
}

/// Returns the encoded string at the beginning of the bytes and its length, if any.
fn encoded_at(bytes: &[u8]) -> Option<(Sort<'_>, usize)>
    requires { take 1 bytes.now ≡ 34 ∷ [] }
    ensures { FrontOrFlaw bytes.now result }
{
    let (_, rest) = bytes.split_at(1);
    let digits = hex_len(rest);
    let (_, after) = rest.split_at(digits);
    if digits % 8 != 0 || !after.starts_with(b"\"") {
        return None;
    }
    let (text, _) = bytes.split_at(digits + 2);
    Some((Sort::Encoded(EncodedString::from_encoded(text)), digits + 2))
}

/// Returns the binary at the beginning of the bytes and its length, if any.
fn binary_at(bytes: &[u8]) -> Option<(Sort<'_>, usize)>
    requires { take 1 bytes.now ≡ 37 ∷ [] }
    ensures { FrontOrFlaw bytes.now result }
{
    let (_, rest) = bytes.split_at(1);
    let bits = bits_len(rest);
    if bits == 0 {
        return None;
    }
    let (text, _) = bytes.split_at(bits + 1);
    Some((Sort::Binary(Binary::from_binary(text)), bits + 1))
}

/// Returns the mark at the beginning of the bytes and its length, if any.
fn mark_at(bytes: &[u8]) -> Option<(Sort<'_>, usize)>
    requires some { 0 < length bytes.now }
    requires no_letter { is_letter (slice_index bytes.now 0) ≡ false }
    requires no_digit { is_digit (slice_index bytes.now 0) ≡ false }
    requires no_apostrophe { slice_index bytes.now 0 ≢ 39 }
    requires no_quote { slice_index bytes.now 0 ≢ 34 }
    requires no_percent { slice_index bytes.now 0 ≢ 37 }
    ensures { FrontOrFlaw bytes.now result }
{
    if bytes.starts_with(b"(*") {
        return None;
    }
    let mark = mark_of(bytes)?;
    Some((Sort::Mark(mark), mark.text().len()))
}

/// Returns the token at the beginning of the bytes and its length, if it is within the limits.
pub(crate) fn front_at(bytes: &[u8]) -> Option<(Sort<'_>, usize)>
    requires { 0 < length bytes.now }
    ensures { FrontOrFlaw bytes.now result }
{
    let first = bytes[0];
    if is_letter(first) {
        return Some(word_at(bytes));
    }
    if is_digit(first) {
        return number_at(bytes);
    }
    match first {
        b'\'' => string_at(bytes),
        b'"' => encoded_at(bytes),
        b'%' => binary_at(bytes),
        _ => mark_at(bytes),
    }
}
