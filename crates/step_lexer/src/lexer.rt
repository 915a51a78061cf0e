//! The lexer of exchange structures.
ghost use Rattle.std.specs.Prelude.{◌≡◌};
ghost use Rattle.step_lexer.specs.Front.{mark_byte};

use crate::fronts::{front_at, number_at};
use crate::layout::layout_len;
use crate::token::{Mark, Sort, Token};
use crate::words::word_at;
use std::marker::Model;
use step_literals::bytes::is_letter;
use step_literals::fault::TextFault;
use step_literals::numbers::starts_number;

const BYTE_ORDER_MARK: [u8; 3] = [0xEF, 0xBB, 0xBF];

/// Reads a text token by token (ISO 10303-21, 5 and 6).
#[derive(Drop)]
pub struct Lexer<'a> {
    text: &'a [u8],
    place: usize,
}

impl<'a> Model for Lexer<'a> {
    ghost use Rattle.std.specs.Prelude.{◌≤◌, length};
    ghost use Rattle.step_lexer.specs.Reading.{Reading};

    ghost Value = { Reading };

    ghost view = { λ l. record { text = l.text.now; place = l.place } };

    ghost invariant = { λ l. l.place ≤ length l.text.now };
}

/// Returns the byte of a mark.
#[inline(always)]
fn byte_of(mark: Mark) -> u8
    ensures { result ≡ mark_byte mark }
{
    match mark {
        Mark::Open => b'(',
        Mark::Close => b')',
        Mark::Comma => b',',
        Mark::Semicolon => b';',
        Mark::Equals => b'=',
        Mark::Dollar => b'$',
        Mark::Asterisk => b'*',
    }
}

impl<'a> Lexer<'a> {
    ghost use Rattle.std.specs.Prelude.{◌+◌, IfSome};
    ghost use Rattle.step_lexer.specs.Front.{IsFront};
    ghost use Rattle.step_lexer.specs.Reading.{Answers, SkipsMark, left, start};

    /// Returns a lexer at the start of a text, after a byte order mark if there is one.
    pub fn new(text: &'a [u8]) -> Self
        ensures { result ≡ start text.now }
    {
        if text.starts_with(&BYTE_ORDER_MARK) {
            Lexer { text, place: 3 }
        } else {
            Lexer { text, place: 0 }
        }
    }

    /// Returns the number of bytes of the text that are read.
    pub fn place(&self) -> u64
        ensures { result ≡ self.now.place }
    {
        self.place as u64
    }

    /// Returns the rest of the text.
    #[inline(always)]
    fn left(&self) -> &'a [u8]
        ensures { result.now ≡ left self.now }
    {
        let (_, left) = self.text.split_at(self.place);
        left
    }

    /// Reads the mark `wanted` if it comes next, without layout before it. Returns whether it did;
    /// otherwise nothing is read.
    #[inline(always)]
    pub fn skip_mark(&mut self, wanted: Mark) -> bool
        ensures { SkipsMark wanted result self.old self.new }
    {
        let place = self.place;
        if place >= self.text.len() || self.text[place] != byte_of(wanted) {
            return false;
        }
        self.place = place + 1;
        true
    }

    /// Returns the next token's sort and length, if the token begins with no letter and has no
    /// layout before it. The contract states nothing about `None`.
    #[inline(always)]
    pub fn peek(&self) -> Option<(Sort<'a>, usize)>
        ensures { IfSome result (λ front. IsFront (left self.now) front.0 front.1) }
    {
        let left = self.left();
        if left.is_empty() || is_letter(left[0]) {
            return None;
        }
        front_at(left).ok()
    }

    /// Returns the next token's sort and length, if the token is a number and has no layout before
    /// it. The contract states nothing about `None`.
    #[inline(always)]
    pub fn peek_number(&self) -> Option<(Sort<'a>, usize)>
        ensures { IfSome result (λ front. IsFront (left self.now) front.0 front.1) }
    {
        let left = self.left();
        if left.is_empty() || !starts_number(left[0]) {
            return None;
        }
        number_at(left).ok()
    }

    /// Returns the next token's sort and length, if the token begins with a letter and has no
    /// layout before it. The contract states nothing about `None`.
    #[inline(always)]
    pub fn peek_word(&self) -> Option<(Sort<'a>, usize)>
        ensures { IfSome result (λ front. IsFront (left self.now) front.0 front.1) }
    {
        let left = self.left();
        if left.is_empty() || !is_letter(left[0]) {
            return None;
        }
        Some(word_at(left))
    }

    /// Reads the next token, which has this sort and length.
    #[inline(always)]
    pub fn skip(&mut self, sort: Sort<'a>, len: usize)
        requires { IsFront (left self.old) sort len }
        ensures { self.new ≡ record self.old { place = self.old.place + len } }
    {
        self.place += len;
    }

    /// Returns the next token after the layout, which is the longest one there, or `None` at the
    /// end of the text.
    ///
    /// # Errors
    ///
    /// - E3 at the backslash of a directive that isn't completed
    /// - E1, E2, E4 or E5 at the start of another flawed token
    ///
    /// An error reads nothing, so the next call returns it again.
    pub fn next_token(&mut self) -> Result<Option<Token<'a>>, TextFault>
        ensures { Answers self.old result self.new }
    {
        let text = self.text;
        let (_, left) = text.split_at(self.place);
        let place = self.place + layout_len(left);
        let (_, left) = text.split_at(place);
        if left.is_empty() {
            self.place = place;
            return Ok(None);
        }
        match front_at(left) {
            Ok((sort, len)) => {
                let (text, _) = left.split_at(len);
                self.place = place + len;
                Ok(Some(Token {
                    sort,
                    text,
                    place: place as u64,
                }))
            }
            Err((flaw, index)) => Err(TextFault {
                flaw,
                place: (place + index) as u64,
            }),
        }
    }
}
