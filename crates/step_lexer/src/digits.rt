//! The digits at the start of the bytes, and the number that they write.
ghost use Rattle.std.specs.Prelude.{◌≡◌, ◌≤◌, ◌<◌, ◌^◌, length, take};
ghost use Rattle.std.specs.List.{prefix_len};
ghost use Rattle.std.specs.Option.{SomeIff};
ghost use Rattle.std.specs.Str.Parse.{digits_value};
ghost use Rattle.step_literals.specs.Bytes.{is_digit};

use step_literals::bytes::{digits_len, is_digit};
use step_literals::numbers::number_of;

// A number below this one and one more digit write a number below 2^64.
const SMALL: u64 = 1_000_000_000_000_000_000;

/// Returns the number that the digits at the start write, and their count. If the number is 10^18
/// or more, it may leave digits out.
fn small_number(bytes: &[u8]) -> (u64, usize)
    ensures within { result.1 ≤ length bytes.now }
    ensures value { result.0 ≡ digits_value 10 (take result.1 bytes.now) }
    ensures all { result.0 < 10 ^ 18 → result.1 ≡ prefix_len is_digit bytes.now }
{
    let mut value = 0u64;
    let mut len = 0;
    while value < SMALL {
        if len >= bytes.len() || !is_digit(bytes[len]) {
            return (value, len);
        }
        value = value * 10 + u64::from(bytes[len] - b'0');
        len += 1;
    }
    (value, len)
}

/// Returns the number that the digits at the start write, or `None` if it isn't below 2^64, and the
/// count of the digits.
pub fn digits_number(bytes: &[u8]) -> (Option<u64>, usize)
    ensures len { result.1 ≡ prefix_len is_digit bytes.now }
    ensures number { SomeIff result.0 (digits_value 10 (take result.1 bytes.now) < 2 ^ 64)
        (digits_value 10 (take result.1 bytes.now)) }
{
    let (value, len) = small_number(bytes);
    if value < SMALL {
        return (Some(value), len);
    }
    let len = digits_len(bytes);
    let (digits, _) = bytes.split_at(len);
    (number_of(digits), len)
}
