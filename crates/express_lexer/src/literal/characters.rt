//! The characters of a simple string.

ghost use Rattle.std.specs.Prelude.{◌≡◌, ◌≤◌, ◌∷◌, [], length, MatchOption};
ghost use Rattle.std.specs.Str.{chars};
ghost use Rattle.std.specs.List.{prefix_len};
ghost use Rattle.std.specs.Iterator.{YieldsFirst, item_count};
ghost use Rattle.step_literals.specs.Bytes.{Stops};
ghost use Rattle.express_lexer.specs.DoubledApostrophes.{behind};
ghost use Rattle.step_literals.specs.Strings.{is_high};

use std::str;
use step_literals::literal::Item;

/// An iterator over the characters of a simple string.
#[derive(Drop)]
pub struct Characters<'a> {
    /// The rest of a run of bytes from 128 up that is UTF-8.
    run: &'a str,
    /// The rest of a run of bytes from 128 up that isn't UTF-8.
    raw: &'a [u8],
    /// The bytes after the run, each apostrophe doubled.
    rest: &'a [u8],
}

/// Returns the number of bytes from 128 up at the beginning.
fn high_len(bytes: &[u8]) -> usize
    ensures len { result ≡ prefix_len is_high bytes.now }
    ensures within { result ≤ length bytes.now }
{
    bytes.iter().take_while(|byte| **byte >= 128).count()
}

/// Returns the first character of a text and the rest, or `None` if the text is empty.
fn next_character(text: &str) -> Option<(char, &str)>
    ensures { MatchOption result (text.now ≡ [])
        (λ next. chars text.now ≡ next.0 ∷ chars next.1.now) }
{
    let mut characters = text.chars();
    let character = characters.next()?;
    Some((character, characters.as_str()))
}

/// Returns the rest after a byte. After an apostrophe one more byte is skipped, since it is
/// doubled.
fn behind(byte: u8, rest: &[u8]) -> &[u8]
    ensures { result.now ≡ behind byte rest.now }
{
    if byte != b'\'' {
        return rest;
    }
    match rest.split_first() {
        Some((_, rest)) => rest,
        None => rest,
    }
}

impl<'a> Characters<'a> {
    ghost use Rattle.express_lexer.specs.steps.Left.{characters_left, GoesInside};
    ghost use Rattle.express_lexer.specs.DoubledApostrophes.{left, undoubled};
    ghost use Rattle.express_lexer.specs.Meanings.{characters_of};

    /// Returns an iterator over three parts: the rest of a run that is UTF-8, the rest of a run
    /// that isn't, and bytes in which each apostrophe is doubled.
    fn inside(run: &'a str, raw: &'a [u8], rest: &'a [u8]) -> Characters<'a>
        ensures left { characters_left result ≡ left run.now raw.now rest.now }
        ensures rest { result.rest.now ≡ rest.now }
    {
        Characters { run, raw, rest }
    }

    /// Returns an iterator over bytes in which each apostrophe is doubled.
    pub(super) fn of_doubled(rest: &'a [u8]) -> Characters<'a>
        ensures { characters_left result ≡ characters_of (undoubled rest.now) }
    {
        Characters::inside("", &[], rest)
    }

    /// Returns an iterator over bytes in which each apostrophe is doubled, inside the run that they
    /// begin with.
    fn at_run(rest: &'a [u8]) -> Characters<'a>
        ensures left { characters_left result ≡ characters_of (undoubled rest.now) }
        ensures stops { Stops is_high result.rest.now }
    {
        let (run, behind) = rest.split_at(high_len(rest));
        match str::from_utf8(run) {
            Ok(text) => Characters::inside(text, &[], behind),
            Err(_) => Characters::inside("", run, behind),
        }
    }

    /// Returns the next character of the current run, if any is left.
    fn inner(&mut self) -> Option<Item>
        ensures { GoesInside self.old result self.new }
    {
        if let Some((character, after)) = next_character(self.run) {
            self.run = after;
            return Some(Item::Code(u32::from(character)));
        }
        let (first, raw) = self.raw.split_first()?;
        let byte: u8 = *first;
        self.raw = raw;
        Some(Item::Raw(byte))
    }
}

impl<'a> Iterator for Characters<'a> {
    ghost use Rattle.express_lexer.specs.steps.Left.{characters_left};

    type Item = Item;

    ghost next_gives = { YieldsFirst characters_left };

    ghost remaining = { item_count characters_left };

    fn next(&mut self) -> Option<Item> {
        if let Some(item) = self.inner() {
            return Some(item);
        }
        *self = Characters::at_run(self.rest);
        if let Some(item) = self.inner() {
            return Some(item);
        }
        let (first, rest) = self.rest.split_first()?;
        let byte: u8 = *first;
        self.rest = behind(byte, rest);
        Some(Item::Code(u32::from(byte)))
    }
}
