//! The characters of a string (ISO 10303-21, 6.4.3).

ghost use Rattle.std.specs.Prelude.{◌≡◌};
ghost use Rattle.std.specs.Iterator.{YieldsFirst, item_count};

use super::rest::Rest;

/// A character of a string. A character of ISO 10646 is its code, however it is spelt.
#[derive(Clone, Copy, Debug, PartialEq, Eq, PartialOrd, Ord, Hash)]
pub enum Item {
    /// The character with this code
    Code(u32),
    /// The character with this code on a page of ISO 8859 beyond the first
    Page(u8, u8),
    /// A byte from 128 up that isn't part of UTF-8
    Raw(u8),
}

/// The characters of a string in turn.
#[derive(Clone, Drop)]
pub struct Items<'a> {
    rest: Rest<'a>,
}

impl<'a> Items<'a> {
    ghost use Rattle.step_literals.specs.Strings.{clean};
    ghost use Rattle.step_literals.specs.steps.Rests.{items_left, clean_items};

    /// Returns the characters of the content between the apostrophes.
    pub(super) fn of_content(content: &'a [u8]) -> Items<'a>
        ensures { items_left result ≡ clean_items 1 (clean content.now) }
    {
        Items {
            rest: Rest::new(content, 1),
        }
    }
}

impl<'a> Iterator for Items<'a> {
    ghost use Rattle.step_literals.specs.steps.Rests.{items_left};

    type Item = Item;

    ghost next_gives = { YieldsFirst items_left };

    ghost remaining = { item_count items_left };

    fn next(&mut self) -> Option<Item> {
        while let Some((item, rest)) = self.rest.step() {
            self.rest = rest;
            if item.is_some() {
                return item;
            }
        }
        None
    }
}
