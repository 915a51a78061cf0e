//! Strings and binaries, as slices of the text with their spelling.

ghost use Rattle.std.specs.Prelude.{◌≡◌, ◌∷◌, ℕ, List};
ghost use Rattle.express_lexer.specs.Tokens.{Spells, string, encoded, binary};
ghost use Rattle.express_lexer.specs.Meanings.{characters_of, simple_text, codes_of, encoded_text};
ghost use Rattle.express_lexer.specs.Meanings;

mod bits;
mod characters;
mod codes;

pub use bits::Bits;
pub use characters::Characters;
pub use codes::Codes;

/// A string with the apostrophes around it (ISO 10303-11, 7.5.5).
#[derive(Clone, Copy)]
pub struct SimpleString<'a> {
    text: &'a [u8],
    pub ghost spelled: { ∥ Spells string text.now ∥₁ },
}

/// A string of codes, each of eight hexadecimal digits, with the quotes around it (ISO 10303-11,
/// 7.5.5).
#[derive(Clone, Copy)]
pub struct EncodedString<'a> {
    text: &'a [u8],
    pub ghost spelled: { ∥ Spells encoded text.now ∥₁ },
}

/// A binary with its `%` (ISO 10303-11, 7.5.1).
#[derive(Clone, Copy)]
pub struct Binary<'a> {
    text: &'a [u8],
    pub ghost spelled: { ∥ Spells binary text.now ∥₁ },
}

impl<'a> SimpleString<'a> {
    ghost use Rattle.express_lexer.specs.steps.Left.{characters_left};

    pub(crate) fn from_string(text: &'a [u8]) -> SimpleString<'a>
        requires { Spells string text.now }
        ensures { result.text.now ≡ text.now }
    {
        SimpleString { text }
    }

    /// Returns the bytes of the spelling, with apostrophes.
    pub fn spelling(&self) -> &'a [u8]
        ensures { result ≡ self.now.text }
    {
        self.text
    }

    /// Returns an iterator over the characters.
    pub fn characters(&self) -> Characters<'a>
        ensures { (content : List ℕ) → self.now.text.now ≡ simple_text content
            → characters_left result ≡ characters_of content }
    {
        let (_, content) = self.text.split_at(1);
        let (content, _) = content.split_at(content.len() - 1);
        Characters::of_doubled(content)
    }
}

impl<'a> EncodedString<'a> {
    ghost use Rattle.express_lexer.specs.steps.Left.{codes_left};

    pub(crate) fn from_encoded(text: &'a [u8]) -> EncodedString<'a>
        requires { Spells encoded text.now }
        ensures { result.text.now ≡ text.now }
    {
        EncodedString { text }
    }

    /// Returns the bytes of the spelling, with quotes.
    pub fn spelling(&self) -> &'a [u8]
        ensures { result ≡ self.now.text }
    {
        self.text
    }

    /// Returns an iterator over the characters, each by its code.
    pub fn characters(&self) -> Codes<'a>
        ensures { (digits : List ℕ) → self.now.text.now ≡ encoded_text digits
            → codes_left result ≡ codes_of digits }
    {
        let (_, digits) = self.text.split_at(1);
        let (digits, _) = digits.split_at(digits.len() - 1);
        Codes { digits }
    }
}

impl<'a> Binary<'a> {
    ghost use Rattle.express_lexer.specs.steps.Left.{bits_left};

    pub(crate) fn from_binary(text: &'a [u8]) -> Binary<'a>
        requires { Spells binary text.now }
        ensures { result.text.now ≡ text.now }
    {
        Binary { text }
    }

    /// Returns the bytes of the spelling, with the `%`.
    pub fn spelling(&self) -> &'a [u8]
        ensures { result ≡ self.now.text }
    {
        self.text
    }

    /// Returns an iterator over the bits.
    pub fn bits(&self) -> Bits<'a>
        ensures { (digits : List ℕ) → self.now.text.now ≡ 37 ∷ digits
            → bits_left result ≡ Meanings.written_bits digits }
    {
        let (_, digits) = self.text.split_at(1);
        Bits { digits }
    }
}
