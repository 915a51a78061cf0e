//! The data sections and the end of the file, read from tokens (ISO 10303-21, 5.3 and 11).

ghost use Rattle.std.specs.Prelude.{◌≡◌, ℕ, List, [], ◌∷◌, ◌++◌, MatchResult, IfOk};
ghost use Rattle.step_lexer.specs.declared.token.Mark.TheVariants as marks;
ghost use Rattle.step_structures.specs.declared.fault.TextFault.TheVariants.{Fault};
ghost use Rattle.step_structures.specs.Words.{string, mark, ends, token, located};
ghost use Rattle.step_structures.specs.Trees.{this, finish, items_of_heading};
ghost use Rattle.step_structures.specs.steps.Predict.{Quoted, Behind, Sections, Just, EndOfText};
ghost use Rattle.step_structures.specs.steps.Predict.{heading_symbols, data_symbols};
ghost use Rattle.step_records.specs.steps.Readers.{reading};
ghost use Rattle.step_records.specs.steps.Steps.{ParsesWhere, StopsIn};
ghost use Rattle.step_exchange.specs.Sections.{heading_of};
ghost use Rattle.step_exchange.specs.steps.Steps.{BeginsSection, section_refused};
ghost use Rattle.step_exchange.specs.steps.Keeping.{KeepsData};

use crate::section::Section;
use std::alloc::Global;
use std::hash::RandomState;
use step_lexer::token::{Mark, Sort, Token};
use step_literals::literal::Text;
use step_records::instances::rows;
use step_records::names::Names;
use step_records::reader::Reader;
use step_records::tokens::{expect, fault_at, is_mark, is_said, is_word, refuse, take};
use step_structures::fault::{FaultKind, LeftOut, TextFault};

/// The greatest number of data sections.
const SECTIONS: usize = 0xFFFF_FFFF;

/// Returns the fault of a token that is neither DATA nor the end of the file, if one of these was
/// expected.
fn refuse_section(token: Token<'_>) -> TextFault
    ensures { result ≡ Fault (section_refused (located token.entry).lookahead) token.entry.place }
{
    let Sort::Keyword(keyword) = token.sort else {
        return refuse(token);
    };
    if is_said(keyword, b"ANCHOR") {
        return fault_at(FaultKind::LeftOut(LeftOut::Anchor), token);
    }
    if is_said(keyword, b"REFERENCE") {
        return fault_at(FaultKind::LeftOut(LeftOut::Reference), token);
    }
    if is_said(keyword, b"SIGNATURE") {
        return fault_at(FaultKind::LeftOut(LeftOut::Signature), token);
    }
    fault_at(FaultKind::Expected, token)
}

/// Reads a string.
fn string<'a>(reader: &mut Reader<'a>) -> Result<Text<'a>, TextFault>
    ensures { ParsesWhere result (Quoted ∷ []) (λ t. this (string t.text.now) ∷ [])
        (λ _. reader.new.built ≡ reader.old.built) (reading reader.old) (reading reader.new) }
{
    let token = take(reader)?;
    let Sort::String(text) = token.sort else {
        return Err(refuse(token));
    };
    Ok(text)
}

/// Reads the name of a section and the name of its schema after the opening parenthesis, up to the
/// semicolon.
fn names<'a>(reader: &mut Reader<'a>) -> Result<(Text<'a>, Text<'a>), TextFault>
    ensures { ParsesWhere result heading_symbols (λ h. this (string h.0.text.now)
        ∷ this (mark marks.Comma) ∷ this (mark marks.Open) ∷ this (string h.1.text.now)
        ∷ this (mark marks.Close) ∷ this (mark marks.Close) ∷ this (mark marks.Semicolon) ∷ [])
        (λ _. reader.new.built ≡ reader.old.built) (reading reader.old) (reading reader.new) }
{
    let name = string(reader)?;
    expect(reader, Mark::Comma)?;
    expect(reader, Mark::Open)?;
    let schema = string(reader)?;
    expect(reader, Mark::Close)?;
    expect(reader, Mark::Close)?;
    expect(reader, Mark::Semicolon)?;
    Ok((name, schema))
}

/// Reads what follows the keyword DATA, up to the semicolon.
fn heading<'a>(reader: &mut Reader<'a>) -> Result<Option<(Text<'a>, Text<'a>)>, TextFault>
    ensures { ParsesWhere result (Behind ∷ []) (λ h. items_of_heading (heading_of h)
        ++ this (mark marks.Semicolon) ∷ []) (λ _. reader.new.built ≡ reader.old.built)
        (reading reader.old) (reading reader.new) }
{
    let behind = take(reader)?;
    if is_mark(behind, Mark::Semicolon) {
        return Ok(None);
    }
    if !is_mark(behind, Mark::Open) {
        return Err(refuse(behind));
    }
    let names = names(reader)?;
    Ok(Some(names))
}

/// Reads the heading of one more data section, after `sections` others. Its first token is already
/// read.
fn begin_section<'a>(
    reader: &mut Reader<'a>,
    first: Token<'a>,
    sections: usize,
) -> Result<Option<(Text<'a>, Text<'a>)>, TextFault>
    requires { (located first).lookahead ≡ token ends → ⊥ }
    ensures same { IfOk result (λ _. reader.new.built ≡ reader.old.built) }
    ensures takes { (names : List ℕ) → MatchResult result
        (λ h. BeginsSection (located first.entry) sections names (heading_of h) (reading reader.old)
        (reading reader.new))
        (λ e. StopsIn e (Sections sections names ∷ []) (located first.entry ∷ [])
        (reading reader.old)) }
{
    if !is_word(first, b"DATA") {
        return Err(refuse_section(first));
    }
    if sections >= SECTIONS {
        return Err(fault_at(FaultKind::LeftOut(LeftOut::TooMany), first));
    }
    heading(reader)
}

/// Reads the end of the text.
fn end_of_text(reader: &mut Reader<'_>) -> Result<(), TextFault>
    ensures { ParsesWhere result (EndOfText ∷ []) (λ _. finish ∷ [])
        (λ _. reader.new.built ≡ reader.old.built) (reading reader.old) (reading reader.new) }
{
    match reader.next_token() {
        Ok(None) => Ok(()),
        Ok(Some(token)) => {
            if is_word(token, b"SIGNATURE") {
                return Err(fault_at(FaultKind::LeftOut(LeftOut::Signature), token));
            }
            Err(refuse(token))
        }
        Err(fault) => Err(TextFault::Fault {
            kind: FaultKind::Token(fault.flaw),
            place: fault.place,
        }),
    }
}

/// Reads what follows the keyword that ends the file.
fn end(reader: &mut Reader<'_>) -> Result<(), TextFault>
    ensures { ParsesWhere result (Just marks.Semicolon ∷ EndOfText ∷ [])
        (λ _. this (mark marks.Semicolon) ∷ finish ∷ []) (λ _. reader.new.built ≡ reader.old.built)
        (reading reader.old) (reading reader.new) }
{
    expect(reader, Mark::Semicolon)?;
    end_of_text(reader)
}

/// Returns an empty list of names, with room for `expected` names if there is enough memory.
fn room_for(alloc: Global, keys: RandomState, expected: usize) -> Names
    ensures { result ≡ [] }
{
    let mut names = Names::new(alloc, keys);
    let _ = names.reserve(expected);
    names
}

/// Reads the data sections and the names of their instances, to the end of the text, and keeps the
/// trees of the instances.
fn each_section<'a>(
    alloc: Global,
    keys: RandomState,
    reader: &mut Reader<'a>,
    sections: &mut Vec<Section<'a>>,
    names: &mut Names,
) -> Result<(), TextFault>
    requires none { sections.old.items ≡ [] }
    requires unnamed { names.old ≡ [] }
    ensures { MatchResult result
        (λ _. KeepsData sections.new.items names.new reader.old reader.new)
        (λ e. StopsIn e data_symbols [] (reading reader.old)) }
{
    loop {
        let token = take(reader)?;
        if let Sort::End = token.sort {
            if sections.is_empty() {
                return Err(refuse(token));
            }
            end(reader)?;
            return Ok(());
        }
        let heading = begin_section(reader, token, sections.len())?;
        rows(alloc, keys, reader, names)?;
        let past = names.len() as u32;
        sections.push(Section { heading, past })?;
    }
}

/// Reads the data sections and the names of their instances, to the end of the text, and keeps the
/// trees of the instances. It reserves room for `expected` names if there is enough memory.
pub fn data<'a>(
    alloc: Global,
    keys: RandomState,
    reader: &mut Reader<'a>,
    expected: usize,
) -> Result<(Vec<Section<'a>>, Names), TextFault>
    ensures { MatchResult result
        (λ d. KeepsData d.0.items d.1 reader.old reader.new)
        (λ e. StopsIn e data_symbols [] (reading reader.old)) }
{
    let mut names = room_for(alloc, keys, expected);
    let mut sections = Vec::new(alloc);
    each_section(alloc, keys, reader, &mut sections, &mut names)?;
    Ok((sections, names))
}
