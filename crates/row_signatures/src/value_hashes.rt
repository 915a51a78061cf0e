//! Values without SETs and BAGs, hashed in place.

ghost use Rattle.std.specs.Prelude.{◌≡◌, true, false, MatchOption};
ghost use Rattle.std.specs.List.{fold};
ghost use Rattle.std.specs.Hash as fed;
ghost use Rattle.step_values.specs.Leaves.{element};
ghost use Rattle.step_values.specs.steps.Slots.{node_value};
ghost use Rattle.step_values.specs.Values.{leaf};
ghost use Rattle.step_values.specs.Views.{bits_leaf, number_leaf, text_leaf, word_of};
ghost use Rattle.row_signatures.specs.steps.ComputedFlat.{
  Feeds,
  FeedsEach,
  IsHash,
  bagless,
  bagless_each,
  hash_told,
  marked,
  word_writes,
};

use std::hash::{BuildHasher, FoldHasher, Hash, Hasher, RandomState};
use step_literals::literal::{Bits, Decimal, Text, Word};
use step_values::slot::{Node, Slot, Slots};

/// Returns a hasher in an initial state that the author of a text doesn't know.
pub(crate) fn start_of(keys: RandomState) -> FoldHasher {
    let mut start = FoldHasher::default();
    start.write_u64(keys.hash_one(0u64));
    start
}

/// Returns a hash of values that is equal for values of one shape, or `None` if they contain a SET
/// or a BAG. `start` is the initial state of the hasher.
pub(crate) fn hash_of<'p, 'a>(start: FoldHasher, values: &Slots<'p, 'a>) -> Option<u64>
    ensures { MatchOption result (bagless_each values.now ≡ false)
        (λ hash. (bagless_each values.now ≡ true) × IsHash start values.now hash) }
{
    let mut state = start;
    if feed_each(values, &mut state) {
        Some(state.finish())
    } else {
        None
    }
}

/// Returns a hash of a list that is equal for lists whose items are equal pair by pair. `start` is
/// the initial state of the hasher.
pub(crate) fn hash_of_all<T: Hash>(start: FoldHasher, items: &[T]) -> u64
    ensures { result ≡ hash_told start (fed.slice T.hash_input items.now) }
{
    let mut state = start;
    items.hash(&mut state);
    state.finish()
}

/// Feeds a hasher with what values of one shape have in common. Returns whether the value contains
/// no SET or BAG.
#[cycle(feed)]
#[inline(always)]
fn feed<'p, 'a, H: Hasher>(value: &Slot<'p, 'a>, state: &mut H) -> bool
    ensures bagless { result ≡ bagless value.now }
    ensures fed { Feeds H.write value.now state.old state.new }
{
    match value.node() {
        Node::Number(number) => feed_number(&number, state),
        Node::Text(text) => feed_text(&text, state),
        Node::Reference(..) => feed_mark(6, state),
        node => feed_node(&node, state),
    }
}

#[cycle(feed)]
#[inline(never)]
fn feed_node<'p, 'a, H: Hasher>(node: &Node<'p, 'a>, state: &mut H) -> bool
    ensures bagless { result ≡ bagless (node_value node.now) }
    ensures fed { Feeds H.write (node_value node.now) state.old state.new }
{
    match node {
        Node::Unset => feed_mark(0, state),
        Node::Derived => feed_mark(1, state),
        Node::Number(number) => feed_number(number, state),
        Node::Text(text) => feed_text(text, state),
        Node::Bits(bits) => feed_bits(bits, state),
        Node::Element(word) => feed_word(5, word, state),
        Node::Reference(..) => feed_mark(6, state),
        Node::Typed(word, inner) => {
            let _word = feed_word(7, word, state);
            feed(inner, state)
        }
        Node::Sequence(values) => {
            let _len = feed_len(values.len(), state);
            feed_each(values, state)
        }
        Node::Bag(_) => !feed_mark(9, state),
    }
}

#[cycle(feed)]
fn feed_each<'p, 'a, H: Hasher>(values: &Slots<'p, 'a>, state: &mut H) -> bool
    ensures bagless { result ≡ bagless_each values.now }
    ensures fed { FeedsEach H.write values.now state.old state.new }
{
    let mut is_bagless = true;
    for i in 0..values.len() {
        let is_flat = feed(&values.at(i), state);
        is_bagless = is_bagless && is_flat;
    }
    is_bagless
}

fn feed_mark<H: Hasher>(mark: u8, state: &mut H) -> bool
    ensures bagless { result ≡ true }
    ensures fed { state.new ≡ fold H.write state.old (fed.u8 mark) }
{
    state.write_u8(mark);
    true
}

fn feed_number<'a, H: Hasher>(number: &Decimal<'a>, state: &mut H) -> bool
    ensures bagless { result ≡ true }
    ensures fed { Feeds H.write (leaf (number_leaf number.now)) state.old state.new }
{
    state.write_u8(2);
    number.hash(state);
    true
}

fn feed_text<'a, H: Hasher>(text: &Text<'a>, state: &mut H) -> bool
    ensures bagless { result ≡ true }
    ensures fed { Feeds H.write (leaf (text_leaf text.now)) state.old state.new }
{
    state.write_u8(3);
    text.hash(state);
    true
}

fn feed_bits<'a, H: Hasher>(bits: &Bits<'a>, state: &mut H) -> bool
    ensures bagless { result ≡ true }
    ensures fed { Feeds H.write (leaf (bits_leaf bits.now)) state.old state.new }
{
    state.write_u8(4);
    bits.hash(state);
    true
}

fn feed_word<'a, H: Hasher>(mark: u8, word: &Word<'a>, state: &mut H) -> bool
    ensures bagless { result ≡ true }
    ensures fed { state.new ≡ marked H.write state.old mark (word_writes (word_of word.now)) }
{
    state.write_u8(mark);
    word.hash(state);
    true
}

fn feed_len<H: Hasher>(len: usize, state: &mut H) -> bool
    ensures bagless { result ≡ true }
    ensures fed { state.new ≡ marked H.write state.old 8 (fed.usize len) }
{
    state.write_u8(8);
    state.write_usize(len);
    true
}
