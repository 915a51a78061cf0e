//! Classes of bytes, runs of them, and the values of digits.
ghost use Rattle.std.specs.Prelude.{◌≡◌, ◌≤◌, ◌<◌, ◌↔◌, IsTrue, true, length};
ghost use Rattle.std.specs.Char.{digit_value};
ghost use Rattle.std.specs.List.{prefix_len};
ghost use Rattle.step_literals.specs.Bytes.{is_digit, is_letter, is_word_byte, is_hex, is_plain};
ghost use Rattle.step_literals.specs.Tokens.{IsKeyword};

pub fn is_digit(b: u8) -> bool
    ensures { result ≡ is_digit b }
{
    matches!(b, b'0'..=b'9')
}

pub fn is_letter(b: u8) -> bool
    ensures { result ≡ is_letter b }
{
    matches!(b, b'A'..=b'Z' | b'a'..=b'z' | b'_')
}

pub fn is_word_byte(b: u8) -> bool
    ensures { result ≡ is_word_byte b }
{
    // Upper case is tested first, since most words are in capitals.
    if matches!(b, b'A'..=b'Z') {
        return true;
    }
    is_letter(b) || is_digit(b)
}

/// Returns the number of digits at the start of `bytes`.
pub fn digits_len(bytes: &[u8]) -> usize
    ensures within { result ≤ length bytes.now }
    ensures len { result ≡ prefix_len is_digit bytes.now }
{
    bytes.iter().take_while(|b| is_digit(**b)).count()
}

/// Returns the number of word bytes at the start of `bytes`.
pub fn word_len(bytes: &[u8]) -> usize
    ensures within { result ≤ length bytes.now }
    ensures len { result ≡ prefix_len is_word_byte bytes.now }
{
    bytes.iter().take_while(|b| is_word_byte(**b)).count()
}

/// Whether the bytes are a keyword and nothing more.
pub fn is_keyword(bytes: &[u8]) -> bool
    ensures { IsTrue result ↔ IsKeyword bytes.now }
{
    if bytes.is_empty() || !is_letter(bytes[0]) {
        return false;
    }
    word_len(bytes) == bytes.len()
}

pub fn is_hex(b: u8) -> bool
    ensures { result ≡ is_hex b }
{
    matches!(b, b'0'..=b'9' | b'A'..=b'F' | b'a'..=b'f')
}

/// Whether a byte of a string is a character by itself, whatever is around it.
pub fn is_plain(b: u8) -> bool
    ensures { result ≡ is_plain b }
{
    matches!(b, b' '..=b'&' | b'('..=b'[' | b']'..=b'~')
}

/// Returns the number of hexadecimal digits at the start of `bytes`.
pub fn hex_len(bytes: &[u8]) -> usize
    ensures within { result ≤ length bytes.now }
    ensures len { result ≡ prefix_len is_hex bytes.now }
{
    bytes.iter().take_while(|b| is_hex(**b)).count()
}

/// Returns the value of a hexadecimal digit.
pub fn hex_value(digit: u8) -> u8
    requires { is_hex digit ≡ true }
    ensures value { result ≡ digit_value digit }
    ensures bound { result < 16 }
{
    match digit {
        b'0'..=b'9' => digit - b'0',
        b'A'..=b'F' => digit - b'A' + 10,
        _ => digit - b'a' + 10,
    }
}
