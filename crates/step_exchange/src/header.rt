//! The header, read from tokens (ISO 10303-21, 8).

ghost use Rattle.std.specs.Prelude.{◌≡◌, ◌∷◌, [], MatchResult};
ghost use Rattle.step_lexer.specs.declared.token.Mark.TheVariants.{Semicolon};
ghost use Rattle.step_lexer.specs.declared.token.Sort.TheVariants as sorts;
ghost use Rattle.step_structures.specs.steps.Predict.{Head, Just, Records, start_symbols};
ghost use Rattle.step_records.specs.steps.Tokens.{StandsIn};
ghost use Rattle.step_records.specs.steps.Readers.{reading};
ghost use Rattle.step_records.specs.steps.Steps.{StopsIn};
ghost use Rattle.step_exchange.specs.steps.Steps.{StopsInHeader, after_keyword};
ghost use Rattle.step_exchange.specs.steps.Keeping.{
  BeginsHeader,
  KeepsHead,
  KeepsLine,
  TakesKeyed,
  TakesNext,
  KeepsSoFar,
  KeepsHeader,
};

use crate::schema::schema;
use step_lexer::token::{Mark, Sort, Token};
use step_literals::literal::Word;
use step_records::cell::Leaf;
use step_records::params::items;
use step_records::reader::Reader;
use step_records::records::record;
use step_records::tokens::{expect, expect_word, fault_at, is_mark, is_said, refuse, take};
use step_structures::fault::{FaultKind, TextFault};

/// Reads the text before the first record, and returns the byte offset of the first token.
fn start(reader: &mut Reader<'_>) -> Result<u64, TextFault>
    ensures { MatchResult result
        (λ place. BeginsHeader place reader.old reader.new)
        (λ e. StopsIn e start_symbols [] (reading reader.old)) }
{
    let first = take(reader)?;
    let Sort::Begin = first.sort else {
        return Err(refuse(first));
    };
    expect(reader, Mark::Semicolon)?;
    expect_word(reader, b"HEADER")?;
    expect(reader, Mark::Semicolon)?;
    Ok(first.place)
}

/// Reads and keeps the record with the keyword `word`, without its semicolon. Returns the byte
/// offset of the keyword.
pub fn head(reader: &mut Reader<'_>, word: &[u8]) -> Result<u64, TextFault>
    ensures { MatchResult result
        (λ place. KeepsHead word.now place reader.old reader.new)
        (λ e. StopsIn e (Head word.now ∷ []) [] (reading reader.old)) }
{
    let mark = reader.pending_len();
    let key = take(reader)?;
    let Sort::Keyword(keyword) = key.sort else {
        return Err(refuse(key));
    };
    if !is_said(keyword, word) {
        return Err(fault_at(FaultKind::HeaderFault, key));
    }
    record(reader, key, 0)?;
    reader.keep_list(mark)?;
    Ok(key.place)
}

/// Reads and keeps the record with the keyword `word`, and reads its semicolon.
fn line(reader: &mut Reader<'_>, word: &[u8]) -> Result<(), TextFault>
    ensures { MatchResult result
        (λ _. KeepsLine word.now reader.old reader.new)
        (λ e. StopsIn e (Head word.now ∷ Just Semicolon ∷ []) [] (reading reader.old)) }
{
    head(reader, word)?;
    expect(reader, Mark::Semicolon)?;
    Ok(())
}

/// Reads what follows the keyword of one more record of the header: its parameters, or the
/// semicolon that ends the header. Returns whether it is a record, which is pending then. ENDSEC
/// before a parenthesis is a keyword like any other.
fn record_or_end<'a>(
    reader: &mut Reader<'a>,
    key: Token<'a>,
    keyword: Word<'a>,
) -> Result<bool, TextFault>
    requires keyword { key.sort ≡ sorts.Keyword keyword }
    requires stands { StandsIn reader.old.built.text key }
    ensures { MatchResult result
        (λ more. TakesKeyed more key.entry keyword.entry.text.now reader.old reader.new)
        (λ e. StopsIn e (after_keyword keyword.entry.text.now) [] (reading reader.old)) }
{
    if !is_said(keyword, b"ENDSEC") {
        record(reader, key, 0)?;
        return Ok(true);
    }
    let behind = take(reader)?;
    if is_mark(behind, Mark::Semicolon) {
        return Ok(false);
    }
    if !is_mark(behind, Mark::Open) {
        return Err(refuse(behind));
    }
    reader.push_leaf(Leaf::Keyword, key)?;
    items(reader, 1)?;
    Ok(true)
}

/// Reads and keeps one more record of the header, or reads the end of the header. Returns whether
/// it is a record.
fn next_record(reader: &mut Reader<'_>) -> Result<bool, TextFault>
    ensures { MatchResult result
        (λ more. TakesNext more reader.old reader.new)
        (λ e. StopsIn e (Records ∷ []) [] (reading reader.old)) }
{
    let mark = reader.pending_len();
    let key = take(reader)?;
    let Sort::Keyword(keyword) = key.sort else {
        return Err(refuse(key));
    };
    if !record_or_end(reader, key, keyword)? {
        return Ok(false);
    }
    expect(reader, Mark::Semicolon)?;
    reader.keep_list(mark)?;
    Ok(true)
}

/// Reads and keeps the first three records of the header. Returns the byte offset of the first
/// token.
fn opening(reader: &mut Reader<'_>) -> Result<u64, TextFault>
    ensures { MatchResult result
        (λ place. KeepsSoFar reader.old place reader.new)
        (λ e. StopsInHeader e (reading reader.old)) }
{
    let place = start(reader)?;
    line(reader, b"FILE_DESCRIPTION")?;
    line(reader, b"FILE_NAME")?;
    schema(reader)?;
    Ok(place)
}

/// Reads and keeps the records of the header. Returns the byte offset of the first token.
pub fn header(reader: &mut Reader<'_>) -> Result<u64, TextFault>
    ensures { MatchResult result
        (λ place. KeepsHeader reader.old place reader.new)
        (λ e. StopsInHeader e (reading reader.old)) }
{
    let place = opening(reader)?;
    loop {
        if !next_record(reader)? {
            return Ok(place);
        }
    }
}
