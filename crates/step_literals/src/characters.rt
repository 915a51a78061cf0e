// UTF-8 in the content of a string, where control bytes may be between its bytes.
ghost use Rattle.std.specs.Prelude.{◌≡◌, ◌≤◌, take, length, MatchOption};
ghost use Rattle.std.specs.Str.{is_utf8};
ghost use Rattle.std.specs.Str.Parse.{digits_value};
ghost use Rattle.step_literals.specs.Strings.{clean};
ghost use Rattle.step_literals.specs.steps.Characters.{
  high_run,
  number_digits,
  behind_number,
  IsLongestUtf8,
  IsFirstCharacter,
  BeginsNone,
  BeginsHigh,
  BeginsNoHigh,
};

use crate::clean::{skip, take_clean};
use std::str;

/// Returns the longest prefix of the bytes that is UTF-8.
fn utf8_front(bytes: &[u8]) -> &str
    ensures front { result.now ≡ take (length result.now) bytes.now }
    ensures longest { IsLongestUtf8 bytes.now result.now }
{
    match str::from_utf8(bytes) {
        Ok(text) => text,
        Err(error) => {
            let (front, _) = bytes.split_at(error.valid_up_to());
            match str::from_utf8(front) {
                Ok(text) => text,
                Err(_) => "",
            }
        }
    }
}

/// Returns the character in UTF-8 that the bytes begin with, if any.
fn first_character(bytes: &[u8]) -> Option<char>
    ensures { MatchOption result (BeginsNone bytes.now) (λ c. IsFirstCharacter bytes.now c) }
{
    utf8_front(bytes).chars().next()
}

/// Returns the first bytes from 32 up, at most four, which is what a character has, and their
/// count.
fn window_of(bytes: &[u8]) -> ([u8; 4], usize)
    ensures within { result.1 ≤ 4 }
    ensures same { take result.1 result.0 ≡ take 4 (clean bytes.now) }
{
    let mut window = [0; 4];
    let mut rest = bytes;
    for len in 0..4 {
        let Some((byte, after)) = take_clean(rest) else {
            return (window, len);
        };
        window[len] = byte;
        rest = after;
    }
    (window, 4)
}

/// Returns the character from 128 up that the bytes begin with in UTF-8, if any, and what follows
/// it.
pub fn character_at(bytes: &[u8]) -> Option<(u32, &[u8])>
    ensures { MatchOption result (BeginsNoHigh (clean bytes.now))
        (λ found. BeginsHigh (clean bytes.now) found.0 (clean found.1.now)) }
{
    let (window, len) = window_of(bytes);
    let character = first_character(&window[..len])?;
    if character.is_ascii() {
        return None;
    }
    Some((u32::from(character), skip(bytes, character.len_utf8())))
}

/// Whether all bytes from 128 up at the start are UTF-8.
pub fn is_utf8_run(bytes: &[u8]) -> bool
    ensures { result ≡ is_utf8 (high_run (clean bytes.now)) }
{
    let mut rest = bytes;
    while let Some((_, after)) = character_at(rest) {
        rest = after;
    }
    match take_clean(rest) {
        Some((byte, _)) => byte < 128,
        None => true,
    }
}

/// Returns the number that the hexadecimal digits at the start write, at most `width` of them, and
/// what follows them.
pub fn number_at(bytes: &[u8], width: usize) -> (u32, &[u8])
    requires { width ≤ 8 }
    ensures value { result.0 ≡ digits_value 16 (number_digits width (clean bytes.now)) }
    ensures left { clean result.1.now ≡ behind_number width (clean bytes.now) }
{
    let mut value = 0;
    let mut rest = bytes;
    for _ in 0..width {
        let Some((first, after)) = take_clean(rest) else {
            return (value, rest);
        };
        let Some(digit) = char::from(first).to_digit(16) else {
            return (value, rest);
        };
        value = value * 16 + digit;
        rest = after;
    }
    (value, rest)
}
