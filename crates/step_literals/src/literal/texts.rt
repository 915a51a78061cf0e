// Strings, compared by their characters.
ghost use Rattle.std.specs.Prelude.{◌≡◌, nat_eq};
ghost use Rattle.std.specs.Cmp.Lexicographic.{slice_cmp, pointwise};
ghost use Rattle.std.specs.Cmp.Rules.{comparing};
ghost use Rattle.std.specs.List.{flat_map, fold};
ghost use Rattle.std.specs.Ordering.{on, as_partial_cmp, nat_cmp};
ghost use Rattle.std.proofs.Common.{rules};
ghost use Rattle.step_literals.specs.Items.{text_items};
ghost use Rattle.step_literals.specs.ItemKeys.{code_writes, content_writes, item_writes};

use super::Text;
use super::items::{Item, Items};
use crate::bytes::is_plain;
use crate::strings::content_of;
use std::cmp::Ordering;
use std::hash::{Hash, Hasher};

/// The byte that a hasher gets after a string, so that consecutive strings in one hash stay
/// distinct.
const END: u8 = 0xFF;

/// Codes below this one are written as one byte.
const WIDE: u32 = 0x80;

/// The bytes written before other codes, before characters of a page, and before bytes, so that
/// distinct characters are never written alike.
const CODE: u8 = 0x80;

const PAGE: u8 = 0x81;

const RAW: u8 = 0x82;

impl<'a> Text<'a> {
    ghost use Rattle.step_literals.specs.steps.Rests.{items_left};

    /// Returns the characters of the string, in turn.
    pub fn items(&self) -> Items<'a>
        ensures { items_left result ≡ text_items self.now }
    {
        Items::of_content(content_of(self.text))
    }

    /// Writes the characters of the string to a hasher.
    fn feed_items<H: Hasher>(&self, state: &mut H)
        ensures { state.new ≡ fold H.write state.old (flat_map item_writes (text_items self.now)) }
    {
        let left = feed_plain(content_of(self.text), state);
        if !left.is_empty() {
            feed_content(left, state);
        }
    }
}

impl<'a> PartialEq for Text<'a> {
    ghost use Rattle.step_literals.specs.ItemKeys.{text_key};

    ghost eq = { on text_key (pointwise nat_eq) };

    ghost laws = { Prim.search (comparing, rules) };

    fn eq(&self, other: &Text<'a>) -> bool {
        self.text == other.text || self.cmp(other).is_eq()
    }
}

impl<'a> Eq for Text<'a> {
    ghost laws = { Prim.search (comparing, rules) };
}

impl<'a> PartialOrd for Text<'a> {
    ghost use Rattle.step_literals.specs.ItemKeys.{text_key};

    ghost partial_cmp = { as_partial_cmp (on text_key (slice_cmp nat_cmp)) };

    ghost laws = { Prim.search (comparing, rules) };

    fn partial_cmp(&self, other: &Text<'a>) -> Option<Ordering> {
        Some(self.cmp(other))
    }
}

impl<'a> Ord for Text<'a> {
    ghost use Rattle.step_literals.specs.ItemKeys.{text_key};

    ghost cmp = { on text_key (slice_cmp nat_cmp) };

    ghost total = { Prim.search (comparing, rules) };

    ghost matches_partial_cmp = { Prim.search (comparing, rules) };

    ghost matches_eq = { Prim.search (comparing, rules) };

    fn cmp(&self, other: &Text<'a>) -> Ordering {
        let mut mine = self.items();
        let mut theirs = other.items();
        loop {
            match (mine.next(), theirs.next()) {
                (None, None) => return Ordering::Equal,
                (None, Some(_)) => return Ordering::Less,
                (Some(_), None) => return Ordering::Greater,
                (Some(item), Some(other_item)) => {
                    let order = item.cmp(&other_item);
                    if !order.is_eq() {
                        return order;
                    }
                }
            }
        }
    }
}

impl<'a> Hash for Text<'a> {
    ghost use Rattle.step_literals.specs.ItemKeys.{text_writes};
    ghost use Rattle.step_literals.specs.steps.ItemKeyLemmas.{writes_respect_eq};

    ghost hash_input = { text_writes };

    ghost respects_eq = { writes_respect_eq };

    fn hash<H: Hasher>(&self, state: &mut H) {
        self.feed_items(state);
        state.write_u8(END);
    }
}

/// Writes the code of a character to a hasher.
fn feed_code<H: Hasher>(code: u32, state: &mut H)
    ensures { state.new ≡ fold H.write state.old (code_writes code) }
{
    if code < WIDE {
        state.write_u8(code as u8);
    } else {
        state.write_u8(CODE);
        state.write_u32(code);
    }
}

/// Writes the leading characters that are spelt by themselves to a hasher. Returns the rest of the
/// content.
fn feed_plain<'b, H: Hasher>(content: &'b [u8], state: &mut H) -> &'b [u8]
    ensures { fold H.write state.new (content_writes result.now)
        ≡ fold H.write state.old (content_writes content.now) }
{
    let mut left = content;
    while let Some((byte, after)) = left.split_first() {
        if !is_plain(*byte) {
            return left;
        }
        state.write_u8(*byte);
        left = after;
    }
    left
}

/// Writes the characters of the content between apostrophes to a hasher.
fn feed_content<H: Hasher>(content: &[u8], state: &mut H)
    ensures { state.new ≡ fold H.write state.old (content_writes content.now) }
{
    for item in Items::of_content(content) {
        match item {
            Item::Code(code) => feed_code(code, state),
            Item::Page(page, byte) => {
                state.write_u8(PAGE);
                state.write_u8(page);
                state.write_u8(byte);
            }
            Item::Raw(byte) => {
                state.write_u8(RAW);
                state.write_u8(byte);
            }
        }
    }
}
