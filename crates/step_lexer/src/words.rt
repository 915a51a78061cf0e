//! Tokens that begin with a letter, user-defined keywords and scopes.
ghost use Rattle.std.specs.Prelude.{
  ◌≡◌,
  ◌≤◌,
  ◌∷◌,
  ◌↔◌,
  [],
  length,
  take,
  drop,
  IsTrue,
  slice_index,
  true,
  MatchResult,
};
ghost use Rattle.step_literals.specs.Bytes.{is_letter};
ghost use Rattle.step_literals.specs.Tokens.{Says};
ghost use Rattle.step_lexer.specs.Front.{FrontOrFlaw, IsFront, IsFlawed};

use crate::token::Sort;
use step_literals::bytes::{is_letter, word_len};
use step_literals::fault::Flaw;
use step_literals::literal::Word;

/// Whether the bytes begin with this word, whatever the case of its letters.
pub fn says(bytes: &[u8], word: &[u8]) -> bool
    ensures { IsTrue result ↔ Says word.now (take (length word.now) bytes.now) }
{
    if bytes.len() < word.len() {
        return false;
    }
    let (front, _) = bytes.split_at(word.len());
    front.eq_ignore_ascii_case(word)
}

/// Returns the token at the start of the bytes, which begin with a letter, and its length.
pub fn word_at(bytes: &[u8]) -> (Sort<'_>, usize)
    requires { is_letter (slice_index bytes.now 0) ≡ true }
    ensures { IsFront bytes.now result.0 result.1 }
{
    if says(bytes, b"ISO-10303-21") {
        return (Sort::Begin, 12);
    }
    if says(bytes, b"END-ISO-10303-21") {
        return (Sort::End, 16);
    }
    let len = word_len(bytes);
    let (text, _) = bytes.split_at(len);
    (Sort::Keyword(Word::from_keyword(text)), len)
}

/// Returns the user-defined keyword at the start of the bytes, and its length.
pub fn user_defined_at(bytes: &[u8]) -> Result<(Sort<'_>, usize), (Flaw, usize)>
    requires { take 1 bytes.now ≡ 33 ∷ [] }
    ensures { FrontOrFlaw bytes.now result }
{
    let (_, rest) = bytes.split_at(1);
    if rest.is_empty() || !is_letter(rest[0]) {
        return Err((Flaw::BadToken, 0));
    }
    let len = word_len(rest);
    let (text, _) = rest.split_at(len);
    Ok((Sort::UserDefined(Word::from_keyword(text)), 1 + len))
}

/// Returns the token `&SCOPE` at the start of the bytes, and its length.
pub fn scope_at(bytes: &[u8]) -> Result<(Sort<'_>, usize), (Flaw, usize)>
    requires { take 1 bytes.now ≡ 38 ∷ [] }
    ensures { FrontOrFlaw bytes.now result }
{
    if says(bytes, b"&SCOPE") {
        Ok((Sort::Scope, 6))
    } else {
        Err((Flaw::BadToken, 0))
    }
}
