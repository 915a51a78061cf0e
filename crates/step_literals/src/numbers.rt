//! Numbers: where they end, and their limits.
ghost use Rattle.std.specs.Prelude.{
  ◌≡◌,
  ◌≤◌,
  ◌<◌,
  ◌^◌,
  ◌||◌,
  ◌↔◌,
  IsTrue,
  length,
  take,
  drop,
  not,
  MatchOption,
  if◌then◌else◌,
};
ghost use Rattle.std.specs.List.{prefix_len};
ghost use Rattle.std.specs.Option.{SomeIff};
ghost use Rattle.std.specs.Str.Parse.{digits_value};
ghost use Rattle.step_literals.specs.Bytes.{is_digit, Each};
ghost use Rattle.step_literals.specs.Tokens.{
  is_e,
  is_sign,
  sign_len,
  integer,
  real,
  IsNextLength,
  NoneAt,
};
ghost use Rattle.step_literals.specs.Numbers.{
  exponent_text,
  IsShortNumber,
  IsLongestExponent,
  StartsNumber,
};
ghost use Rattle.step_literals.specs.Literals.{IsNumber};
ghost use Rattle.step_literals.specs.Decimals.{is_negative};

use crate::bytes::{digits_len, is_digit};

const LONGEST: usize = 400;

// A number of at most this many bytes has at most six digits after its `E`.
const SHORT: usize = 7;

const LARGEST_EXPONENT: u64 = 999_999;

fn is_e(b: u8) -> bool
    ensures { result ≡ is_e b }
{
    b == b'E' || b == b'e'
}

pub fn sign_len(bytes: &[u8]) -> usize
    ensures value { result ≡ sign_len bytes.now }
    ensures within { result ≤ length bytes.now }
{
    match bytes {
        [b'+' | b'-', ..] => 1,
        _ => 0,
    }
}

/// Returns the length of the exponent at the start of `bytes`, or 0 if there is none.
fn exponent_len(bytes: &[u8]) -> usize
    ensures within { result ≤ length bytes.now }
    ensures longest { IsLongestExponent (take result bytes.now) (drop result bytes.now) }
{
    if bytes.is_empty() || !is_e(bytes[0]) {
        return 0;
    }
    let (_, rest) = bytes.split_at(1);
    let sign = sign_len(rest);
    let (_, unsigned) = rest.split_at(sign);
    let digits = digits_len(unsigned);
    if digits == 0 { 0 } else { 1 + sign + digits }
}

/// Whether a number can begin with this byte.
pub fn starts_number(byte: u8) -> bool
    ensures { result ≡ (is_digit byte || is_sign byte) }
{
    is_digit(byte) || byte == b'+' || byte == b'-'
}

/// Returns the length of the number at the start of `bytes`, and whether it is a real.
pub fn number_len(bytes: &[u8]) -> Option<(usize, bool)>
    requires { StartsNumber bytes.now }
    ensures { MatchOption result (NoneAt bytes.now)
        (λ found. IsNextLength (if found.1 then real else integer) bytes.now found.0) }
{
    let sign = sign_len(bytes);
    let (_, unsigned) = bytes.split_at(sign);
    let digits = digits_len(unsigned);
    if digits == 0 {
        return None;
    }
    let whole = sign + digits;
    let (_, rest) = unsigned.split_at(digits);
    if rest.is_empty() || rest[0] != b'.' {
        return Some((whole, false));
    }
    let (_, rest) = rest.split_at(1);
    let part = digits_len(rest);
    let (_, rest) = rest.split_at(part);
    let exponent = exponent_len(rest);
    Some((whole + 1 + part + exponent, true))
}

/// Returns the number that the digits write, or `None` if it isn't below 2^64.
pub fn number_of(digits: &[u8]) -> Option<u64>
    requires { Each is_digit digits.now }
    ensures { SomeIff result (digits_value 10 digits.now < 2 ^ 64) (digits_value 10 digits.now) }
{
    let mut value = 0u64;
    for digit in digits {
        value = value
            .checked_mul(10)?
            .checked_add(u64::from(*digit - b'0'))?;
    }
    Some(value)
}

/// Returns the number of bytes before the first `E`.
fn mantissa_len(number: &[u8]) -> usize
    ensures within { result ≤ length number.now }
    ensures len { result ≡ prefix_len (λ b. not (is_e b)) number.now }
{
    number.iter().take_while(|b| !is_e(**b)).count()
}

/// Returns the bytes after the `E`, or none if there is no `E`.
pub fn exponent_text(number: &[u8]) -> &[u8]
    ensures { result.now ≡ exponent_text number.now }
{
    let mantissa = mantissa_len(number);
    if mantissa == number.len() {
        return b"";
    }
    let (_, exponent) = number.split_at(mantissa + 1);
    exponent
}

/// Whether the bytes begin with `-`.
pub fn is_negative(bytes: &[u8]) -> bool
    ensures { result ≡ is_negative bytes.now }
{
    matches!(bytes, [b'-', ..])
}

/// Whether a number is within the limits.
pub fn is_short_number(number: &[u8]) -> bool
    requires { IsNumber number.now }
    ensures { IsTrue result ↔ IsShortNumber number.now }
{
    if number.len() <= SHORT {
        return true;
    }
    if number.len() > LONGEST {
        return false;
    }
    let exponent = exponent_text(number);
    let (_, digits) = exponent.split_at(sign_len(exponent));
    match number_of(digits) {
        Some(exponent) => exponent <= LARGEST_EXPONENT,
        None => false,
    }
}

/// Whether the bytes are a number and nothing more.
pub fn is_number(bytes: &[u8]) -> bool
    ensures { IsTrue result ↔ IsNumber bytes.now }
{
    if bytes.is_empty() || !starts_number(bytes[0]) {
        return false;
    }
    match number_len(bytes) {
        Some((len, _)) => len == bytes.len(),
        None => false,
    }
}
