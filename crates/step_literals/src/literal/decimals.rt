//! Numbers, compared by their values.

ghost use Rattle.std.specs.Prelude.{
  ◌≡◌,
  ◌+◌,
  ◌≤◌,
  ◌<◌,
  ◌||◌,
  ◌%◌,
  ◌^◌,
  ◌*◌,
  ◌*ℤ◌,
  pos,
  ◌++◌,
  ◌==◌,
  ℕ,
  ℤ,
  length,
  not,
  FitsSigned,
  IsTrue,
  MatchOption,
};
ghost use Rattle.std.specs.Int.{w64};
ghost use Rattle.std.specs.List.{fold, prefix_len};
ghost use Rattle.std.specs.Ordering.{int_cmp, int_eq, nat_cmp, on, as_partial_cmp};
ghost use Rattle.std.specs.Cmp.Rules.{comparing};
ghost use Rattle.std.proofs.Common.{rules};
ghost use Rattle.step_literals.specs.Decimals.{
  mantissa_digits,
  part_digits,
  signed,
  units,
  IsWhole,
  IsWorth,
  finest,
  ten_to,
  turned,
};
ghost use Rattle.step_literals.specs.DecimalKeys.{front_writes, summary};
ghost use Rattle.std.specs.Str.Parse.{digits_value_after};
ghost use Rattle.step_literals.specs.Bytes.{is_digit, Each};
ghost use Rattle.step_literals.specs.Numbers.{exponent_text};
ghost use Rattle.step_literals.specs.steps.DigitStrings.{
  significant,
  is_significant,
  has_digit,
  digit,
  front_value,
  end_of,
  top,
  significant_digits,
  shift_of,
  is_below_zero,
};

use super::Decimal;
use crate::bytes::digits_len;
use crate::numbers::{is_negative, number_of, sign_len};
use std::cmp::Ordering;
use std::hash::{Hash, Hasher};

/// Numbers are counted in units of 10 ^ -`FINEST`. Every number within the limits is a whole number
/// of units.
const FINEST: u32 = 1_000_400;

/// No whole number with more digits than this is in the range of `i64`.
const LONGEST_WHOLE: usize = 19;

/// The number of digits that a number of 64 bits can hold.
const TOLD: usize = 19;

/// A number greater than twice the count of digits of a number, plus one.
const COUNTS: u64 = 1024;

/// The number of values of 64 bits.
const WORDS: u128 = 0x1_0000_0000_0000_0000;

/// The digits of a number before and after the point, from the first that isn't 0 on.
#[derive(Clone, Copy)]
struct Digits<'a> {
    below_zero: bool,
    whole: &'a [u8],
    part: &'a [u8],
    /// The power of ten of the last digit, in units.
    shift: u32,
    ghost significant: { IsTrue (is_significant (whole.now ++ part.now)) },
    ghost short: { length whole.now + length part.now ≤ 400 },
    ghost sign: { IsTrue (not below_zero || has_digit (whole.now ++ part.now)) },
}

impl<'a> Digits<'a> {
    ghost use Rattle.step_literals.specs.steps.Digits.{digits_of, magnitude_of, worth_of};

    fn len(&self) -> usize
        ensures len { result ≡ length (digits_of self.now) }
        ensures short { result ≤ 400 }
    {
        self.whole.len() + self.part.len()
    }

    /// Returns the value of digit `i`, or 0 past the end.
    fn digit(&self, i: usize) -> u8
        ensures { result ≡ digit (digits_of self.now) i }
    {
        if i < self.whole.len() {
            return self.whole[i] - b'0';
        }
        let i = i - self.whole.len();
        if i < self.part.len() {
            self.part[i] - b'0'
        } else {
            0
        }
    }

    /// Returns the power of ten above the first digit, or 0 if there are no digits.
    fn top(&self) -> usize
        ensures value { result ≡ top (digits_of self.now) self.now.shift }
        ensures bound { result < 2 ^ 33 }
    {
        let len = self.len();
        if len == 0 {
            0
        } else {
            len + self.shift as usize
        }
    }

    /// Returns the number of digits without the zeros at their end.
    fn end(&self) -> usize
        ensures end { result ≡ end_of (length (digits_of self.now)) (digits_of self.now) }
        ensures within { result ≤ length (digits_of self.now) }
        ensures short { result ≤ 400 }
    {
        let behind = kept_len(self.part);
        if behind > 0 {
            self.whole.len() + behind
        } else {
            kept_len(self.whole)
        }
    }

    /// Returns the number that the first `len` digits write, with zeros past the end, modulo 2^64.
    fn front_value(&self, len: usize) -> u64
        ensures { result ≡ front_value len (digits_of self.now) % 2 ^ 64 }
    {
        let (whole, _) = self.whole.split_at(self.whole.len().min(len));
        let (part, _) = self.part.split_at(self.part.len().min(len - whole.len()));
        let mut value = value_behind(value_behind(0, whole), part);
        let mut place = whole.len() + part.len();
        while place < len {
            value = value.wrapping_mul(10);
            place += 1;
        }
        value
    }

    /// Returns a summary that distinguishes numbers of fewer than nineteen digits. It has the
    /// number that the first `len` digits write, modulo 2^64, and above that `len`, the sign, and
    /// the power of ten above the first digit.
    fn summary(&self, len: usize) -> u128
        requires { len ≤ 400 }
        ensures { result ≡ summary len self.now.below_zero (digits_of self.now)
            (top (digits_of self.now) self.now.shift) }
    {
        let count = 2 * len as u64 + u64::from(self.below_zero);
        let above = count + COUNTS * self.top() as u64;
        u128::from(self.front_value(len)) + WORDS * u128::from(above)
    }

    /// Writes the first `len` digits to a hasher, at each nineteenth digit as the number so far,
    /// modulo 2^64. Writes nothing if there are fewer than nineteen.
    fn feed<H: Hasher>(&self, len: usize, state: &mut H)
        ensures { state.new ≡ fold H.write state.old (front_writes len (digits_of self.now)) }
    {
        if len >= TOLD {
            self.feed_each(len, state);
        }
    }

    /// Writes the first `len` digits to a hasher, at each nineteenth digit as the number so far,
    /// modulo 2^64.
    #[inline(never)]
    fn feed_each<H: Hasher>(&self, len: usize, state: &mut H)
        ensures { state.new ≡ fold H.write state.old (front_writes len (digits_of self.now)) }
    {
        let mut value = 0u64;
        for i in 0..len {
            value = value
                .wrapping_mul(10)
                .wrapping_add(u64::from(self.digit(i)));
            if i % TOLD == TOLD - 1 {
                state.write_u64(value);
            }
        }
    }

    /// Returns the number, negated if `is_turned`.
    fn turned(self, is_turned: bool) -> Digits<'a>
        ensures { worth_of result ≡ turned is_turned (worth_of self.entry) }
    {
        Digits {
            below_zero: self.len() > 0 && self.below_zero != is_turned,
            whole: self.whole,
            part: self.part,
            shift: self.shift,
        }
    }

    /// Returns the whole number that this number equals, or `None` if it isn't whole or isn't in
    /// the range of `i64`.
    fn whole(&self) -> Option<i64>
        ensures { MatchOption result
            ((n : ℤ) → FitsSigned w64 n → IsWhole (worth_of self.now) n → ⊥)
            (λ n. IsWhole (worth_of self.now) n) }
    {
        let len = self.top().saturating_sub(FINEST as usize);
        if len > LONGEST_WHOLE || self.end() > len {
            return None;
        }
        let magnitude = i128::from(self.front_value(len));
        i64::try_from(if self.below_zero {
            -magnitude
        } else {
            magnitude
        })
        .ok()
    }

    /// Compares two numbers.
    fn compare(&self, other: &Digits<'_>) -> Ordering
        ensures { result ≡ int_cmp (worth_of self.now) (worth_of other.now) }
    {
        match (self.below_zero, other.below_zero) {
            (false, false) => self.compare_magnitude(other),
            (true, true) => other.compare_magnitude(self),
            (true, false) => Ordering::Less,
            (false, true) => Ordering::Greater,
        }
    }

    /// Compares this number without its sign with a whole number.
    fn compare_whole_magnitude(&self, whole: u64) -> Ordering
        requires { whole ≤ 2 ^ 63 }
        ensures { result ≡ nat_cmp (magnitude_of self.now) (whole * 10 ^ finest) }
    {
        let len = self.top().saturating_sub(FINEST as usize);
        if len > LONGEST_WHOLE {
            return Ordering::Greater;
        }
        let front = self.front_value(len);
        if front == whole && self.end() > len {
            return Ordering::Greater;
        }
        front.cmp(&whole)
    }

    /// Compares two numbers without their signs.
    fn compare_magnitude(&self, other: &Digits<'_>) -> Ordering
        ensures { result ≡ nat_cmp (magnitude_of self.now) (magnitude_of other.now) }
    {
        let (top, other_top) = (self.top(), other.top());
        if top != other_top {
            return top.cmp(&other_top);
        }
        for i in 0..self.len().max(other.len()) {
            let (digit, other_digit) = (self.digit(i), other.digit(i));
            if digit != other_digit {
                return digit.cmp(&other_digit);
            }
        }
        Ordering::Equal
    }
}

/// Returns the number of zeros at the start of `bytes`.
fn zeros_len(bytes: &[u8]) -> usize
    ensures len { result ≡ prefix_len (λ b. b == 48) bytes.now }
    ensures within { result ≤ length bytes.now }
{
    bytes.iter().take_while(|b| **b == b'0').count()
}

/// Returns the number of digits without the zeros at their end.
fn kept_len(digits: &[u8]) -> usize
    ensures end { result ≡ end_of (length digits.now) digits.now }
    ensures within { result ≤ length digits.now }
{
    let mut end = digits.len();
    while end > 0 && digits[end - 1] == b'0' {
        end -= 1;
    }
    end
}

/// Returns the number that `digits` write after the digits of `front`, modulo 2^64.
fn value_behind(front: u64, digits: &[u8]) -> u64
    requires { Each is_digit digits.now }
    ensures { result ≡ digits_value_after 10 front digits.now % 2 ^ 64 }
{
    let mut value = front;
    for digit in digits {
        value = value
            .wrapping_mul(10)
            .wrapping_add(u64::from(*digit - b'0'));
    }
    value
}

/// Returns the digits before and after the point without leading zeros.
fn without_zeros<'a>(whole: &'a [u8], part: &'a [u8]) -> (&'a [u8], &'a [u8])
    ensures digits { result.0.now ++ result.1.now ≡ significant (whole.now ++ part.now) }
    ensures within { length result.0.now + length result.1.now ≤ length whole.now + length
        part.now }
{
    let zeros = zeros_len(whole);
    let (_, left) = whole.split_at(zeros);
    if zeros < whole.len() {
        (left, part)
    } else {
        let (_, part) = part.split_at(zeros_len(part));
        (left, part)
    }
}

impl<'a> Decimal<'a> {
    ghost use Rattle.step_literals.specs.steps.Digits.{digits_of, magnitude_of};

    /// Returns the digits before the point, the digits after it, and the bytes after the `E`.
    fn parts(&self) -> (&'a [u8], &'a [u8], &'a [u8])
        ensures digits { result.0.now ++ result.1.now ≡ mantissa_digits self.now.text.now }
        ensures part { length result.1.now ≡ length (part_digits self.now.text.now) }
        ensures exponent { result.2.now ≡ exponent_text self.now.text.now }
        ensures short { length result.0.now + length result.1.now ≤ 400 }
    {
        let (_, unsigned) = self.text.split_at(sign_len(self.text));
        let (whole, rest) = unsigned.split_at(digits_len(unsigned));
        let (_, rest) = rest.split_at(rest.len().min(1));
        let (part, rest) = rest.split_at(digits_len(rest));
        let (_, written) = rest.split_at(rest.len().min(1));
        (whole, part, written)
    }

    /// Returns the power of ten of the last digit, in units. `written` are the bytes after the `E`,
    /// and `part_len` is the number of digits after the point.
    fn shift(&self, written: &[u8], part_len: usize) -> u32
        requires exponent { written.now ≡ exponent_text self.now.text.now }
        requires part { part_len ≡ length (part_digits self.now.text.now) }
        ensures { result ≡ shift_of self.now.text.now }
    {
        let (_, digits) = written.split_at(sign_len(written));
        let exponent = number_of(digits).unwrap_or(0) as u32;
        let point = FINEST - part_len as u32;
        if is_negative(written) {
            point - exponent
        } else {
            point + exponent
        }
    }

    #[inline(always)]
    fn digits(&self) -> Digits<'a>
        ensures digits { digits_of result ≡ significant_digits self.now.text.now }
        ensures shift { result.shift ≡ shift_of self.now.text.now }
        ensures sign { result.below_zero ≡ is_below_zero self.now.text.now }
    {
        let (whole, part, written) = self.parts();
        let shift = self.shift(written, part.len());
        let (whole, part) = without_zeros(whole, part);
        let below_zero = is_negative(self.text) && whole.len() + part.len() > 0;
        Digits {
            below_zero,
            whole,
            part,
            shift,
        }
    }

    /// Returns the whole number that this number equals, however it is spelt, or `None` if it isn't
    /// whole or isn't in the range of `i64`.
    pub fn whole(&self) -> Option<i64>
        ensures { MatchOption result
            ((n : ℤ) → FitsSigned w64 n → IsWorth self.now.text.now n → ⊥)
            (λ n. IsWorth self.now.text.now n) }
    {
        self.digits().whole()
    }

    /// Returns the whole number that this number equals, negated if `is_turned`. Returns `None` if
    /// that isn't whole or isn't in the range of `i64`.
    pub fn whole_turned(&self, is_turned: bool) -> Option<i64>
        ensures { MatchOption result
            ((n : ℤ) → FitsSigned w64 n → IsWhole (turned is_turned (units self.now.text.now)) n
            → ⊥)
            (λ n. IsWhole (turned is_turned (units self.now.text.now)) n) }
    {
        self.digits().turned(is_turned).whole()
    }

    /// Compares the values of two numbers, each negated if the flag after it is set.
    pub fn compare_turned(
        &self,
        is_turned: bool,
        other: &Decimal<'_>,
        is_other_turned: bool,
    ) -> Ordering
        ensures { result ≡ int_cmp (turned is_turned (units self.now.text.now))
            (turned is_other_turned (units other.now.text.now)) }
    {
        let digits = self.digits().turned(is_turned);
        digits.compare(&other.digits().turned(is_other_turned))
    }

    /// Compares the value of the number with a whole number.
    pub fn compare_whole(&self, whole: i64) -> Ordering
        ensures { result ≡ int_cmp (units self.now.text.now) (whole *ℤ ten_to (pos finest)) }
    {
        let digits = self.digits();
        let magnitude = whole.unsigned_abs();
        match (digits.below_zero, whole < 0) {
            (false, false) => digits.compare_whole_magnitude(magnitude),
            (true, true) => digits.compare_whole_magnitude(magnitude).reverse(),
            (true, false) => Ordering::Less,
            (false, true) => Ordering::Greater,
        }
    }
}

impl<'a> PartialEq for Decimal<'a> {
    ghost use Rattle.step_literals.specs.DecimalKeys.{units_of};

    ghost eq = { on units_of int_eq };

    ghost laws = { Prim.search (comparing, rules) };

    fn eq(&self, other: &Decimal<'a>) -> bool {
        if self.text == other.text {
            return true;
        }
        self.cmp(other).is_eq()
    }
}

impl<'a> Eq for Decimal<'a> {
    ghost laws = { Prim.search (comparing, rules) };
}

impl<'a> PartialOrd for Decimal<'a> {
    ghost use Rattle.step_literals.specs.DecimalKeys.{units_of};

    ghost partial_cmp = { as_partial_cmp (on units_of int_cmp) };

    ghost laws = { Prim.search (comparing, rules) };

    fn partial_cmp(&self, other: &Decimal<'a>) -> Option<Ordering> {
        Some(self.cmp(other))
    }
}

impl<'a> Ord for Decimal<'a> {
    ghost use Rattle.step_literals.specs.DecimalKeys.{units_of};

    ghost cmp = { on units_of int_cmp };

    ghost total = { Prim.search (comparing, rules) };

    ghost matches_partial_cmp = { Prim.search (comparing, rules) };

    ghost matches_eq = { Prim.search (comparing, rules) };

    fn cmp(&self, other: &Decimal<'a>) -> Ordering {
        self.digits().compare(&other.digits())
    }
}

impl<'a> Hash for Decimal<'a> {
    ghost use Rattle.step_literals.specs.DecimalKeys.{key_writes};
    ghost use Rattle.step_literals.specs.steps.DecimalKeyLemmas.{key_respects_eq};

    ghost hash_input = { key_writes };

    ghost respects_eq = { key_respects_eq };

    fn hash<H: Hasher>(&self, state: &mut H) {
        let digits = self.digits();
        let end = digits.end();
        state.write_u128(digits.summary(end));
        digits.feed(end, state);
    }
}
