//! Tokens, as far as the grammar distinguishes them.

ghost use Rattle.std.specs.Prelude.{◌≡◌, ◌↔◌, IsTrue};
ghost use Rattle.step_literals.specs.Words.{upper};
ghost use Rattle.express_syntax.specs.Keywords.{keyword_at};
ghost use Rattle.express_syntax.specs.Words.{word_of, word_of_sort, keyword_or_name, keyword, mark};

use crate::keyword::Keyword;
use express_lexer::literal::{Binary, EncodedString, SimpleString};
use express_lexer::marks::Mark;
use express_lexer::token::{Sort, Token};
use step_literals::literal::{Decimal, Word};

/// A token without its byte offset; a word is a keyword or a name.
#[derive(Clone, Copy)]
pub enum Lexeme<'a> {
    Keyword(Keyword),
    Name(Word<'a>),
    Integer(Decimal<'a>),
    Real(Decimal<'a>),
    String(SimpleString<'a>),
    Encoded(EncodedString<'a>),
    Binary(Binary<'a>),
    Mark(Mark),
}

impl<'a> Lexeme<'a> {
    /// Returns the lexeme of a token.
    pub fn of(token: &Token<'a>) -> Lexeme<'a>
        ensures { word_of result ≡ word_of_sort token.now.sort }
    {
        match token.sort {
            Sort::Word(word) => Lexeme::of_word(word),
            Sort::Integer(digits) => Lexeme::Integer(digits),
            Sort::Real(number) => Lexeme::Real(number),
            Sort::String(text) => Lexeme::String(text),
            Sort::Encoded(codes) => Lexeme::Encoded(codes),
            Sort::Binary(bits) => Lexeme::Binary(bits),
            Sort::Mark(mark) => Lexeme::Mark(mark),
        }
    }

    fn of_word(word: Word<'a>) -> Lexeme<'a>
        ensures { word_of result
            ≡ keyword_or_name (upper word.entry.text.now) (keyword_at (upper word.entry.text.now)) }
    {
        match Keyword::of(&word) {
            Some(keyword) => Lexeme::Keyword(keyword),
            None => Lexeme::Name(word),
        }
    }
}

/// Whether the lexeme is this mark.
pub fn is_mark(lexeme: Lexeme<'_>, wanted: Mark) -> bool
    ensures { IsTrue result ↔ (word_of lexeme.entry ≡ mark wanted) }
{
    match lexeme {
        Lexeme::Mark(found) => found == wanted,
        _ => false,
    }
}

/// Whether the lexeme is this keyword.
pub fn is_keyword(lexeme: Lexeme<'_>, wanted: Keyword) -> bool
    ensures { IsTrue result ↔ (word_of lexeme.entry ≡ keyword wanted) }
{
    match lexeme {
        Lexeme::Keyword(found) => found == wanted,
        _ => false,
    }
}
