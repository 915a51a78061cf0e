//! The bits of binaries: their count and values, equality, order and hash.
ghost use Rattle.std.specs.Prelude.{◌≡◌, ◌<◌, true, length};
ghost use Rattle.std.specs.List.{list_all, slice_get};
ghost use Rattle.std.specs.Iterator.{YieldsFirst, item_count};
ghost use Rattle.std.specs.Ordering.{bool_cmp, on, as_partial_cmp};
ghost use Rattle.std.specs.Cmp.Lexicographic.{slice_cmp, pointwise};
ghost use Rattle.std.specs.Cmp.Rules.{comparing};
ghost use Rattle.std.proofs.Common.{rules};
ghost use Rattle.step_literals.specs.Bytes.{is_hex};
ghost use Rattle.step_literals.specs.Bits.{digit_bit, unused_bits, hex_digits, bits_of};

use crate::bytes::hex_value;
use crate::literal::Bits;
use std::cmp::Ordering;
use std::hash::{Hash, Hasher};

/// The byte that a hasher gets after the bits. It is no bit, so the bytes of no binary are a prefix
/// of another's.
const END: u8 = 0xFF;

/// Returns the bit of a hexadecimal digit at `place`, 0 for the greatest bit.
fn digit_bit(digit: u8, place: usize) -> bool
    requires hex { is_hex digit ≡ true }
    requires within { place < 4 }
    ensures { result ≡ digit_bit digit place }
{
    (hex_value(digit) >> (3 - place)) % 2 == 1
}

/// The rest of the bits of a binary.
#[derive(Drop)]
struct BitsLeft<'a> {
    digits: &'a [u8],
    /// The number of bits of the first digit that were already returned or are left out.
    passed: usize,
    ghost hex: { list_all is_hex digits.now ≡ true },
    ghost within: { passed < 4 },
}

impl<'a> Iterator for BitsLeft<'a> {
    ghost use Rattle.step_literals.specs.steps.BitsLeft.{bits_left};

    type Item = bool;

    ghost next_gives = { YieldsFirst bits_left };

    ghost remaining = { item_count bits_left };

    fn next(&mut self) -> Option<bool> {
        let (digit, rest) = self.digits.split_first()?;
        let bit = digit_bit(*digit, self.passed);
        if self.passed == 3 {
            self.digits = rest;
            self.passed = 0;
        } else {
            self.passed += 1;
        }
        Some(bit)
    }
}

impl<'a> Bits<'a> {
    ghost use Rattle.step_literals.specs.steps.BitsLeft.{bits_left};

    /// Returns the number of first bits that are left out, and the digits.
    fn parts(&self) -> (usize, &'a [u8])
        ensures unused { result.0 ≡ unused_bits self.now.text.now }
        ensures few { result.0 < 4 }
        ensures digits { result.1.now ≡ hex_digits self.now.text.now }
        ensures hex { list_all is_hex result.1.now ≡ true }
        ensures bare { length result.1.now ≡ 0 → result.0 ≡ 0 }
    {
        let unused = self.text[1] - b'0';
        (usize::from(unused), &self.text[2..self.text.len() - 1])
    }

    fn bits(&self) -> BitsLeft<'a>
        ensures { bits_left result ≡ bits_of self.now.text.now }
    {
        let (unused, digits) = self.parts();
        BitsLeft {
            digits,
            passed: unused,
        }
    }

    /// Returns the number of bits.
    pub fn len(&self) -> u128
        ensures { result ≡ length (bits_of self.now.text.now) }
    {
        let (unused, digits) = self.parts();
        4 * digits.len() as u128 - unused as u128
    }

    /// Returns the bit at `index`, counted from the first, or `None` if there are too few.
    pub fn bit(&self, index: usize) -> Option<bool>
        ensures { result ≡ slice_get (bits_of self.now.text.now) index }
    {
        let (unused, digits) = self.parts();
        let place = index % 4 + unused;
        let digit = digits.get(index / 4 + place / 4)?;
        Some(digit_bit(*digit, place % 4))
    }
}

impl<'a> PartialEq for Bits<'a> {
    ghost use Rattle.std.specs.Bool.{beq};
    ghost use Rattle.step_literals.specs.Values.{bits_value};

    ghost eq = { on bits_value (pointwise beq) };

    ghost laws = { Prim.search (comparing, rules) };

    fn eq(&self, other: &Bits<'a>) -> bool {
        self.cmp(other).is_eq()
    }
}

impl<'a> Eq for Bits<'a> {
    ghost laws = { Prim.search (comparing, rules) };
}

impl<'a> PartialOrd for Bits<'a> {
    ghost use Rattle.step_literals.specs.steps.BitListLemmas.{on_bits_po};
    ghost use Rattle.step_literals.specs.Values.{bits_value};

    ghost partial_cmp = { as_partial_cmp (on bits_value (slice_cmp bool_cmp)) };

    ghost laws = { on_bits_po bits_value };

    fn partial_cmp(&self, other: &Bits<'a>) -> Option<Ordering> {
        Some(self.cmp(other))
    }
}

impl<'a> Ord for Bits<'a> {
    ghost use Rattle.step_literals.specs.steps.BitListLemmas.{bits_ties};
    ghost use Rattle.step_literals.specs.Values.{bits_value};

    ghost cmp = { on bits_value (slice_cmp bool_cmp) };

    ghost total = { Prim.search (comparing, rules) };

    ghost matches_partial_cmp = { Prim.search (comparing, rules) };

    ghost matches_eq = { λ x y. bits_ties (bits_value x) (bits_value y) };

    fn cmp(&self, other: &Bits<'a>) -> Ordering {
        self.bits().cmp(other.bits())
    }
}

impl<'a> Hash for Bits<'a> {
    ghost use Rattle.step_literals.specs.steps.BitListLemmas.{same_fed};
    ghost use Rattle.step_literals.specs.Bits.{fed_bits};
    ghost use Rattle.step_literals.specs.Values.{bits_value};

    ghost hash_input = { λ b. fed_bits (bits_value b) };

    ghost respects_eq = { λ x y h. same_fed (bits_value x) (bits_value y) h };

    fn hash<H: Hasher>(&self, state: &mut H) {
        for bit in self.bits() {
            bit.hash(state);
        }
        state.write_u8(END);
    }
}
