//! The lexer.
ghost use Rattle.std.specs.Prelude.{◌≡◌};

use crate::fronts::front_at;
use crate::layout::layout_len;
use crate::token::{TextFault, Token};
use std::marker::Model;

const BYTE_ORDER_MARK: [u8; 3] = [0xEF, 0xBB, 0xBF];

/// Reads a text token by token (ISO 10303-11, 7).
#[derive(Drop)]
pub struct Lexer<'a> {
    text: &'a [u8],
    place: usize,
}

impl<'a> Model for Lexer<'a> {
    ghost use Rattle.std.specs.Prelude.{◌≤◌, length};
    ghost use Rattle.express_lexer.specs.Reading.{Reading};

    ghost Value = { Reading };

    ghost view = { λ l. record { text = l.text.now; place = l.place } };

    ghost invariant = { λ l. l.place ≤ length l.text.now };
}

impl<'a> Lexer<'a> {
    ghost use Rattle.express_lexer.specs.Reading.{Answers, start};

    /// Returns a lexer at the start of the text, after a byte order mark, if any.
    pub fn new(text: &'a [u8]) -> Self
        ensures { result ≡ start text.now }
    {
        if text.starts_with(&BYTE_ORDER_MARK) {
            Lexer { text, place: 3 }
        } else {
            Lexer { text, place: 0 }
        }
    }

    /// Returns the whole text.
    pub fn text(&self) -> &'a [u8]
        ensures { result.now ≡ self.now.text }
    {
        self.text
    }

    /// Returns the number of bytes that are read.
    pub fn place(&self) -> u64
        ensures { result ≡ self.now.place }
    {
        self.place as u64
    }

    /// Returns the next token, the longest that follows the layout, or `None` at the end of the
    /// text.
    ///
    /// # Errors
    ///
    /// A `TextFault` with the byte offset where the token would begin, if no token within the
    /// limits follows the layout. Nothing is read then, so another call returns that fault again.
    pub fn next_token(&mut self) -> Result<Option<Token<'a>>, TextFault>
        ensures { Answers self.old result self.new }
    {
        let text = self.text;
        let (_, left) = text.split_at(self.place);
        let place = self.place + layout_len(left);
        let (_, left) = text.split_at(place);
        if left.is_empty() {
            self.place = place;
            return Ok(None);
        }
        let Some((sort, len)) = front_at(left) else {
            return Err(TextFault {
                place: place as u64,
            });
        };
        let (text, _) = left.split_at(len);
        self.place = place + len;
        Ok(Some(Token {
            sort,
            text,
            place: place as u64,
        }))
    }
}
