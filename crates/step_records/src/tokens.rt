//! The tokens of a text, one at a time.

ghost use Rattle.std.specs.Prelude.{◌≡◌, ◌+◌, ℕ, [], ◌∷◌, MatchResult};
ghost use Rattle.step_lexer.specs.Reading.{Takes};
ghost use Rattle.step_structures.specs.declared.fault.TextFault.TheVariants.{Fault};
ghost use Rattle.step_structures.specs.Words.{mark, located};
ghost use Rattle.step_structures.specs.Trees;
ghost use Rattle.step_structures.specs.Trees.{this, says};
ghost use Rattle.step_structures.specs.steps.Predict;
ghost use Rattle.step_structures.specs.steps.Predict.{Symbol, Just, Say, More, EndOfText, refused};
ghost use Rattle.step_records.specs.steps.Readers.{reading};
ghost use Rattle.step_records.specs.steps.Steps.{ParsesWhere, StopsIn, GoesOn};

use crate::reader::Reader;
use step_lexer::token::{Mark, Sort, Token};
use step_literals::literal::Word;
use step_structures::fault::{FaultKind, LeftOut, TextFault};

/// Returns the next token.
///
/// # Errors
///
/// - E1 to E5 if there is no token within the limits
/// - E6 if the text ends
pub fn take<'a>(reader: &mut Reader<'a>) -> Result<Token<'a>, TextFault>
    ensures { MatchResult result
        (λ t. Takes (reading reader.old) t (reading reader.new)
        × (reader.new.built ≡ reader.old.built))
        (λ e. (y : Symbol) → (y ≡ EndOfText → ⊥) → StopsIn e (y ∷ []) [] (reading reader.old)) }
{
    match reader.next_token() {
        Ok(Some(token)) => Ok(token),
        Ok(None) => Err(TextFault::Fault {
            kind: FaultKind::Expected,
            place: reader.place(),
        }),
        Err(fault) => Err(TextFault::Fault {
            kind: FaultKind::Token(fault.flaw),
            place: fault.place,
        }),
    }
}

/// Returns a fault at a token.
pub fn fault_at(kind: FaultKind, at: Token<'_>) -> TextFault
    ensures { result ≡ Fault kind at.entry.place }
{
    TextFault::Fault {
        kind,
        place: at.place,
    }
}

/// Returns the fault of a token that can't come where it is.
pub fn refuse(token: Token<'_>) -> TextFault
    ensures { result ≡ Fault (refused (located token.entry).lookahead) token.entry.place }
{
    match token.sort {
        Sort::UserDefined(_) => fault_at(FaultKind::LeftOut(LeftOut::UserDefined), token),
        Sort::Scope => fault_at(FaultKind::LeftOut(LeftOut::Scope), token),
        _ => fault_at(FaultKind::Expected, token),
    }
}

/// Whether a keyword is this word, whatever the case of its letters.
pub fn is_said(keyword: Word<'_>, word: &[u8]) -> bool
    ensures { result ≡ Trees.is_said word.now keyword.entry.text.now }
{
    keyword.spelling().eq_ignore_ascii_case(word)
}

/// Returns the number by which the predictive table compares marks.
fn mark_code(mark: Mark) -> u8
    ensures { result ≡ Predict.mark_code mark }
{
    match mark {
        Mark::Open => 0,
        Mark::Close => 1,
        Mark::Comma => 2,
        Mark::Semicolon => 3,
        Mark::Equals => 4,
        Mark::Dollar => 5,
        Mark::Asterisk => 6,
    }
}

/// Whether a token is the mark `wanted`.
pub fn is_mark(token: Token<'_>, wanted: Mark) -> bool
    ensures { result ≡ Predict.is_mark wanted (located token.entry).lookahead }
{
    match token.sort {
        Sort::Mark(found) => mark_code(wanted) == mark_code(found),
        _ => false,
    }
}

/// Whether a token is the keyword `word`, whatever the case of its letters.
pub fn is_word(token: Token<'_>, word: &[u8]) -> bool
    ensures { result ≡ Predict.is_word word.now (located token.entry).lookahead }
{
    match token.sort {
        Sort::Keyword(keyword) => is_said(keyword, word),
        _ => false,
    }
}

/// Reads the mark `wanted`, which may come after layout.
fn expect_any(reader: &mut Reader<'_>, wanted: Mark) -> Result<(), TextFault>
    ensures { ParsesWhere result (Just wanted ∷ []) (λ _. this (mark wanted) ∷ [])
        (λ _. reader.new.built ≡ reader.old.built) (reading reader.old) (reading reader.new) }
{
    let token = take(reader)?;
    if !is_mark(token, wanted) {
        return Err(refuse(token));
    }
    Ok(())
}

/// Reads the mark `wanted`.
pub fn expect(reader: &mut Reader<'_>, wanted: Mark) -> Result<(), TextFault>
    ensures { ParsesWhere result (Just wanted ∷ []) (λ _. this (mark wanted) ∷ [])
        (λ _. reader.new.built ≡ reader.old.built) (reading reader.old) (reading reader.new) }
{
    if reader.skip_mark(wanted) {
        return Ok(());
    }
    expect_any(reader, wanted)
}

/// Reads the keyword `word`, whatever the case of its letters.
pub fn expect_word(reader: &mut Reader<'_>, word: &[u8]) -> Result<(), TextFault>
    ensures { ParsesWhere result (Say word.now ∷ []) (λ _. says word.now ∷ [])
        (λ _. reader.new.built ≡ reader.old.built) (reading reader.old) (reading reader.new) }
{
    let token = take(reader)?;
    if !is_word(token, word) {
        return Err(refuse(token));
    }
    Ok(())
}

/// Reads a comma, or the parenthesis that closes a list. Returns whether it was a comma. Either may
/// come after layout.
fn goes_on_any(reader: &mut Reader<'_>) -> Result<bool, TextFault>
    ensures { MatchResult result
        (λ more. GoesOn more reader.old reader.new)
        (λ e. (depth : ℕ) → StopsIn e (More depth ∷ []) [] (reading reader.old)) }
{
    let token = take(reader)?;
    if is_mark(token, Mark::Close) {
        return Ok(false);
    }
    if !is_mark(token, Mark::Comma) {
        return Err(refuse(token));
    }
    Ok(true)
}

/// Reads a comma, or the parenthesis that closes a list. Returns whether it was a comma.
pub fn goes_on(reader: &mut Reader<'_>) -> Result<bool, TextFault>
    ensures { MatchResult result
        (λ more. GoesOn more reader.old reader.new)
        (λ e. (depth : ℕ) → StopsIn e (More depth ∷ []) [] (reading reader.old)) }
{
    if reader.skip_mark(Mark::Comma) {
        return Ok(true);
    }
    if reader.skip_mark(Mark::Close) {
        return Ok(false);
    }
    goes_on_any(reader)
}
