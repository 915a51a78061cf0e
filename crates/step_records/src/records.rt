//! Records and the forms of instances, read from tokens (ISO 10303-21, 11).

ghost use Rattle.std.specs.Prelude.{◌≡◌, ◌<◌, false, [], ◌∷◌, ◌++◌, Some, MatchResult, OnOk, drop};
ghost use Rattle.step_lexer.specs.declared.token.Mark.TheVariants.{Close};
ghost use Rattle.step_records.specs.steps.Tokens.{StandsIn, leaf_of};
ghost use Rattle.step_records.specs.declared.cell.Leaf.TheVariants.{Keyword};
ghost use Rattle.step_structures.specs.Words.{located};
ghost use Rattle.step_structures.specs.steps.Predict;
ghost use Rattle.step_structures.specs.steps.Predict.{Body, PartialRecords, params_symbols, row_symbols};
ghost use Rattle.step_records.specs.steps.Readers.{reading};
ghost use Rattle.step_records.specs.steps.Steps.{StopsIn};
ghost use Rattle.step_records.specs.steps.Records.{
  any_is,
  texts_of,
  TakesRecord,
  TakesPartial,
  TakesPartials,
  TakesForm,
  TakesRow,
};

use crate::cell::Leaf;
use crate::params::record_params;
use crate::reader::Reader;
use crate::tokens::{expect, fault_at, is_mark, is_said, refuse, take};
use indexmap::IndexSet;
use std::alloc::{AllocFailed, Global};
use std::hash::RandomState;
use step_lexer::token::{Mark, Sort, Token};
use step_literals::literal::Word;
use step_structures::fault::{FaultKind, TextFault};

/// The number of keywords of partial records that are compared one by one. Most external records
/// have no more. Later keywords are in a set.
const LOOKED_THROUGH: usize = 8;

/// The set of the later keywords of partial records.
type Keywords<'a> = IndexSet<Word<'a>, RandomState>;

/// Whether one of these words is this keyword, whatever the case of its letters.
fn is_among(words: &[Word<'_>], keyword: Word<'_>) -> bool
    ensures { result ≡ any_is keyword.entry.text.now words.now }
{
    words.iter().any(|word| is_said(keyword, word.spelling()))
}

/// Whether one of these words is this keyword. `further` has the words after the first
/// `LOOKED_THROUGH`.
fn has_keyword(words: &[Word<'_>], further: &Keywords<'_>, keyword: Word<'_>) -> bool
    requires { further.now.keys ≡ drop 8 words.now }
    ensures { result ≡ any_is keyword.entry.text.now words.now }
{
    if words.len() <= LOOKED_THROUGH {
        return is_among(words, keyword);
    }
    is_among(&words[..LOOKED_THROUGH], keyword) || further.contains(&keyword)
}

/// Adds a keyword, which isn't among `words`, to the set if it is after the first `LOOKED_THROUGH`.
fn keep_keyword<'a>(
    further: &mut Keywords<'a>,
    words: &[Word<'a>],
    keyword: Word<'a>,
) -> Result<(), AllocFailed<Word<'a>>>
    requires kept { further.old.keys ≡ drop 8 words.now }
    requires alone { any_is keyword.text.now words.now ≡ false }
    ensures { OnOk result (further.new.keys ≡ drop 8 (words.now ++ keyword.entry ∷ [])) }
{
    if words.len() < LOOKED_THROUGH {
        return Ok(());
    }
    further.insert(keyword)?;
    Ok(())
}

/// Reads the record that begins with this keyword, with `depth` parentheses open around it.
pub fn record<'a>(reader: &mut Reader<'a>, first: Token<'a>, depth: u32) -> Result<(), TextFault>
    requires depth { depth < 64 }
    requires keyword { leaf_of first.sort ≡ Some Keyword }
    requires stands { StandsIn reader.old.built.text first }
    ensures { MatchResult result
        (λ _. TakesRecord depth first.entry reader.old reader.new)
        (λ e. StopsIn e (params_symbols depth) [] (reading reader.old)) }
{
    reader.push_leaf(Leaf::Keyword, first)?;
    record_params(reader, depth)?;
    Ok(())
}

/// Reads the partial record that begins with this token, after others with the keywords `words`.
/// Returns its own keyword.
fn partial_record<'a>(
    reader: &mut Reader<'a>,
    first: Token<'a>,
    words: &[Word<'a>],
    further: &Keywords<'a>,
) -> Result<Word<'a>, TextFault>
    requires open { Predict.is_mark Close (located first).lookahead ≡ false }
    requires stands { StandsIn reader.old.built.text first }
    requires kept { further.now.keys ≡ drop 8 words.now }
    ensures { MatchResult result
        (λ w. TakesPartial (texts_of words.now) (located first.entry) w reader.old reader.new)
        (λ e. StopsIn e (PartialRecords (texts_of words.now) ∷ []) (located first.entry ∷ [])
        (reading reader.old)) }
{
    let Sort::Keyword(keyword) = first.sort else {
        return Err(refuse(first));
    };
    if has_keyword(words, further, keyword) {
        return Err(fault_at(FaultKind::DuplicateName, first));
    }
    let mark = reader.pending_len();
    record(reader, first, 1)?;
    reader.close_list(mark)?;
    Ok(keyword)
}

/// Reads the partial records of an external record after its opening parenthesis, and the closing
/// one. `words` and `further` get their keywords.
fn each_partial_record<'a>(
    reader: &mut Reader<'a>,
    words: &mut Vec<Word<'a>>,
    further: &mut Keywords<'a>,
) -> Result<(), TextFault>
    requires none { words.old.items ≡ [] }
    requires empty { further.old.keys ≡ [] }
    ensures { MatchResult result
        (λ _. TakesPartials reader.old reader.new)
        (λ e. StopsIn e (PartialRecords [] ∷ []) [] (reading reader.old)) }
{
    loop {
        let token = take(reader)?;
        if is_mark(token, Mark::Close) {
            if words.is_empty() {
                return Err(refuse(token));
            }
            return Ok(());
        }
        let keyword = partial_record(reader, token, words, further)?;
        keep_keyword(further, words, keyword)?;
        words.push(keyword)?;
    }
}

/// Reads the partial records of an external record after its opening parenthesis, and the closing
/// one.
fn partial_records(
    alloc: Global,
    keys: RandomState,
    reader: &mut Reader<'_>,
) -> Result<(), TextFault>
    ensures { MatchResult result
        (λ _. TakesPartials reader.old reader.new)
        (λ e. StopsIn e (PartialRecords [] ∷ []) [] (reading reader.old)) }
{
    let mut words = Vec::new(alloc);
    let mut further = IndexSet::with_hasher(alloc, keys);
    each_partial_record(reader, &mut words, &mut further)
}

/// Reads the form of an instance after its `=`. It may come after layout.
fn form_any(alloc: Global, keys: RandomState, reader: &mut Reader<'_>) -> Result<(), TextFault>
    ensures { MatchResult result
        (λ _. TakesForm reader.old reader.new)
        (λ e. StopsIn e (Body ∷ []) [] (reading reader.old)) }
{
    let first = take(reader)?;
    if is_mark(first, Mark::Open) {
        return partial_records(alloc, keys, reader);
    }
    let Sort::Keyword(_) = first.sort else {
        return Err(refuse(first));
    };
    record(reader, first, 0)
}

/// Reads the form of an instance after its `=`.
fn form(alloc: Global, keys: RandomState, reader: &mut Reader<'_>) -> Result<(), TextFault>
    ensures { MatchResult result
        (λ _. TakesForm reader.old reader.new)
        (λ e. StopsIn e (Body ∷ []) [] (reading reader.old)) }
{
    if reader.push_keyword()? {
        return record_params(reader, 0);
    }
    form_any(alloc, keys, reader)
}

/// Reads an instance after its name, and keeps its tree.
pub fn row(alloc: Global, keys: RandomState, reader: &mut Reader<'_>) -> Result<(), TextFault>
    ensures { MatchResult result
        (λ _. TakesRow reader.old reader.new)
        (λ e. StopsIn e row_symbols [] (reading reader.old)) }
{
    let mark = reader.pending_len();
    expect(reader, Mark::Equals)?;
    form(alloc, keys, reader)?;
    expect(reader, Mark::Semicolon)?;
    reader.keep_list(mark)?;
    Ok(())
}
