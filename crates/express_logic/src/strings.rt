//! Strings, compared by their characters (ISO 10303-11, 12.2.1.4).

ghost use Rattle.std.specs.Prelude.{◌≡◌, ℕ, [], ◌∷◌, ◌++◌, map};
ghost use Rattle.std.specs.Iterator.{YieldsFirst, item_count};
ghost use Rattle.step_literals.specs.Words.{upper};
ghost use Rattle.step_literals.specs.declared.literal.items.Item.TheVariants.{Code};
ghost use Rattle.express_logic.specs.Comparison.{same_text};
ghost use Rattle.express_logic.specs.Views.{text_of};
ghost use Rattle.express_logic.specs.steps.Left.{characters_left};
ghost use Rattle.express_logic.specs.steps.Taking.{Takes};

use express_lexer::literal;
use express_lexer::literal::{Codes, EncodedString, SimpleString};
use step_literals::literal::{Item, Items, Text, Word};

/// A string, of an exchange structure or of a schema.
#[derive(Clone, Copy)]
pub enum AnyString<'a> {
    Exchange(Text<'a>),
    Simple(SimpleString<'a>),
    Encoded(EncodedString<'a>),
}

/// An iterator over the characters of a string.
#[derive(Drop)]
enum Characters<'a> {
    Exchange(Items<'a>),
    Simple(literal::Characters<'a>),
    Encoded(Codes<'a>),
}

impl<'a> Iterator for Characters<'a> {
    type Item = Item;

    ghost next_gives = { YieldsFirst characters_left };

    ghost remaining = { item_count characters_left };

    fn next(&mut self) -> Option<Item> {
        match self {
            Characters::Exchange(items) => items.next(),
            Characters::Simple(characters) => characters.next(),
            Characters::Encoded(codes) => codes.next(),
        }
    }
}

impl<'a> AnyString<'a> {
    fn characters(&self) -> Characters<'a>
        ensures { characters_left result ≡ text_of self.now }
    {
        match self {
            AnyString::Exchange(text) => Characters::Exchange(text.items()),
            AnyString::Simple(string) => Characters::Simple(string.characters()),
            AnyString::Encoded(string) => Characters::Encoded(string.characters()),
        }
    }

    /// Whether the string consists of two names in capitals with a point between them.
    pub fn is_dotted(&self, first: Word<'_>, second: Word<'_>) -> bool
        ensures { result ≡ same_text (text_of self.now) (map (λ (c : ℕ). Code c)
            (upper first.entry.text.now ++ 46 ∷ upper second.entry.text.now)) }
    {
        let mut characters = self.characters();
        if !takes_dotted(&mut characters, first, second) {
            return false;
        }
        characters.next().is_none()
    }
}

/// Takes the next character and returns whether it has this code.
fn takes_code(characters: &mut Characters<'_>, code: u8) -> bool
    ensures { Takes (code ∷ []) (characters_left characters.old) (characters_left characters.new)
        result }
{
    match characters.next() {
        Some(item) => item == Item::Code(code as u32),
        None => false,
    }
}

/// Takes the next characters, as far as they are those of a name in capitals. Returns whether the
/// whole name is there.
fn takes_name(characters: &mut Characters<'_>, name: Word<'_>) -> bool
    ensures { Takes (upper name.entry.text.now) (characters_left characters.old)
        (characters_left characters.new) result }
{
    for byte in name.spelling() {
        if !takes_code(characters, byte.to_ascii_uppercase()) {
            return false;
        }
    }
    true
}

/// Takes the next characters, as far as they are those of two names in capitals with a point
/// between them. Returns whether all of them are there.
fn takes_dotted(characters: &mut Characters<'_>, first: Word<'_>, second: Word<'_>) -> bool
    ensures { Takes (upper first.entry.text.now ++ 46 ∷ upper second.entry.text.now)
        (characters_left characters.old) (characters_left characters.new) result }
{
    if !takes_name(characters, first) {
        return false;
    }
    if !takes_code(characters, b'.') {
        return false;
    }
    takes_name(characters, second)
}

/// Whether two strings have equal characters.
pub(crate) fn same_string(a: &AnyString<'_>, b: &AnyString<'_>) -> bool
    ensures { result ≡ same_text (text_of a.now) (text_of b.now) }
{
    a.characters().eq(b.characters())
}
