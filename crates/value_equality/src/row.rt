//! Rows of a population: names, sections, types and values.

ghost use Rattle.std.specs.Prelude.{◌≡◌, ◌↔◌, map, IsTrue};
ghost use Rattle.std.specs.Str.{bytes_eq};
ghost use Rattle.step_values.specs.AgreementTests.{each_test};
ghost use Rattle.step_values.specs.Views.{word_of};
ghost use Rattle.value_equality.specs.steps.ComputedKinds.{kind_test};
ghost use Rattle.value_equality.specs.Rows.{row_kind};
ghost use Rattle.value_equality.specs.Views.{row_seen};

use step_literals::literal::Word;
use step_values::literals::same_word;
use step_values::slot::Slots;
use step_values::value::PlainValue;

/// A row: the name of an instance, its data section, its types, and a value for each of its
/// attributes.
#[derive(Drop)]
pub struct PlainRow<'a> {
    pub name: u64,
    /// The number of the data section, counted from 0.
    pub section: u32,
    pub types: Vec<Word<'a>>,
    pub values: Vec<PlainValue<'a>>,
}

/// The head of a row: the name of its instance, its data section, and the number of its list of
/// types, which rows may share.
#[derive(Clone, Copy, Debug, PartialEq, Eq)]
pub struct RowHead {
    pub name: u64,
    /// The number of the data section, counted from 0.
    pub section: u32,
    /// The number of its list of types, counted from 0; a row with a number beyond all lists has no
    /// types.
    pub type_list: u32,
}

/// A row as its readers see it, whatever its storage.
#[derive(Drop)]
pub struct RowSlot<'p, 'a> {
    pub name: u64,
    /// The number of the data section, counted from 0.
    pub section: u32,
    pub types: &'p [Word<'a>],
    pub values: Slots<'p, 'a>,
}

impl<'p, 'a> RowSlot<'p, 'a> {
    /// Returns the row with this head, these types and these values.
    pub fn of(head: RowHead, types: &'p [Word<'a>], values: Slots<'p, 'a>) -> RowSlot<'p, 'a>
        ensures { row_seen result ≡ record {
          name = head.name;
          section = head.section;
          types = map word_of types.entry.now;
          values = values.entry;
        } }
    {
        RowSlot {
            name: head.name,
            section: head.section,
            types,
            values,
        }
    }
}

/// Whether two rows are of the same kind: they have the same section, and their type words are
/// equal one by one.
pub fn is_one_kind<'p, 'a, 'q, 'b>(row: &RowSlot<'p, 'a>, other: &RowSlot<'q, 'b>) -> bool
    ensures kinds { IsTrue result ↔ (row_kind (row_seen row.now) ≡ row_kind (row_seen other.now)) }
    ensures test { result ≡ kind_test (row_kind (row_seen row.now))
        (row_kind (row_seen other.now)) }
{
    if row.section != other.section {
        return false;
    }
    same_words(row.types, other.types)
}

/// Whether two lists of words are equal, whatever the case of their letters.
fn same_words<'p, 'q>(a: &[Word<'p>], b: &[Word<'q>]) -> bool
    ensures { result ≡ each_test bytes_eq (map word_of a.now) (map word_of b.now) }
{
    if a.len() != b.len() {
        return false;
    }
    for i in 0..a.len() {
        if !same_word(&a[i], &b[i]) {
            return false;
        }
    }
    true
}
