//! Comparison of literals by value.

ghost use Rattle.std.specs.Prelude.{◌≡◌};
ghost use Rattle.std.specs.Str.{bytes_eq};
ghost use Rattle.step_values.specs.AgreementTests.{leaf_test};
ghost use Rattle.step_values.specs.Views.{word_of, number_leaf, text_leaf, bits_leaf};

use step_literals::literal::{Bits, Decimal, Text, Word};

pub(crate) fn same_number<'a, 'b>(a: &Decimal<'a>, b: &Decimal<'b>) -> bool
    ensures { result ≡ leaf_test (number_leaf a.now) (number_leaf b.now) }
{
    *a == *b
}

pub(crate) fn same_text<'a, 'b>(a: &Text<'a>, b: &Text<'b>) -> bool
    ensures { result ≡ leaf_test (text_leaf a.now) (text_leaf b.now) }
{
    *a == *b
}

pub(crate) fn same_bits<'a, 'b>(a: &Bits<'a>, b: &Bits<'b>) -> bool
    ensures { result ≡ leaf_test (bits_leaf a.now) (bits_leaf b.now) }
{
    *a == *b
}

/// Whether two words are equal, regardless of case.
pub fn same_word<'a, 'b>(word: &Word<'a>, other: &Word<'b>) -> bool
    ensures { result ≡ bytes_eq (word_of word.now) (word_of other.now) }
{
    *word == *other
}
