//! Declarations of which only the tokens are kept (ISO 10303-11, 9.4 to 9.7).

ghost use Rattle.std.specs.Prelude.{
  ◌≡◌,
  ◌+◌,
  ◌<◌,
  ◌^◌,
  ◌==◌,
  [],
  ◌∷◌,
  ◌++◌,
  List,
  Ok,
  IfOk,
  MatchResult,
};
ghost use Rattle.std.specs.Bool.{if◌then◌else◌};
ghost use Rattle.std.specs.Str.{bytes_eq};
ghost use Rattle.step_literals.specs.Words.{upper};
ghost use Rattle.express_lexer.specs.declared.marks.Mark.TheVariants as marks;
ghost use Rattle.express_lexer.specs.Reading.{Reading};
ghost use Rattle.express_syntax.specs.Words;
ghost use Rattle.express_syntax.specs.Words.{name, mark, word_of};
ghost use Rattle.express_syntax.specs.ExpressionViews.{capitals};
ghost use Rattle.express_syntax.specs.Texts.{Shows};
ghost use Rattle.express_syntax.specs.Passages.{Stands};
ghost use Rattle.express_syntax.specs.Runs.{words_of_routine, FitsRoutine};
ghost use Rattle.express_syntax.specs.Views.{routine_of, words_of_passage, skipped_of};
ghost use Rattle.express_syntax.specs.Sources.{
  BehindName,
  IsPassageAt,
  IsPassageOf,
  IsRoutineAt,
  IsRoutineOf,
  IsSkippedAt,
  IsSkippedOf,
};
ghost use Rattle.express_syntax.specs.WrittenSchemas.{words_of_skipped};
ghost use Rattle.express_syntax.specs.Profile.{IsWithout, FitsSkipped};
ghost use Rattle.express_syntax.specs.steps.Predict;
ghost use Rattle.express_syntax.specs.steps.Predict.{
  Declarations,
  SkippedName,
  SkippedEnd,
  Until,
  opens_routine,
  closes_routine,
  next_routine,
};
ghost use Rattle.express_token_runs.specs.steps.Skips.{is_name, still_open};
ghost use Rattle.express_token_runs.specs.steps.Items.{located_of, named};
ghost use Rattle.express_syntax.specs.steps.Steps.{Passes, Parses, ParsesWhere, StopsIn};

use crate::reader::Reader;
use crate::tokens::{Item, fault_at, is_mark};
use express_lexer::marks::Mark;
use express_syntax::fault::{FaultKind, SyntaxFault};
use express_syntax::lexeme::Lexeme;
use express_syntax::passage::{Passage, Routine};
use express_syntax::tree::Skipped;
use step_literals::literal::Word;

/// Whether a name is `wanted`, which is in capitals, regardless of case.
fn spells(found: Word<'_>, wanted: &[u8]) -> bool
    requires { upper wanted.now ≡ wanted.now }
    ensures { result ≡ bytes_eq (capitals found.entry) wanted.now }
{
    found.spelling().eq_ignore_ascii_case(wanted)
}

/// Whether a token is the name `wanted`, which is in capitals, regardless of case.
fn is_named(item: Item<'_>, wanted: &[u8]) -> bool
    requires { upper wanted.now ≡ wanted.now }
    ensures { result ≡ is_name wanted.now (located_of item.entry).lookahead }
{
    match item.lexeme {
        Lexeme::Name(found) => spells(found, wanted),
        _ => false,
    }
}

/// Reads the name of a declaration.
fn skipped_name<'a>(reader: &mut Reader<'a>) -> Result<Word<'a>, SyntaxFault>
    ensures { Parses result (SkippedName ∷ []) (λ w. name (capitals w) ∷ []) reader.old reader.new }
{
    let item = reader.take()?;
    match item.lexeme {
        Lexeme::Name(word) => Ok(word),
        _ => Err(fault_at(FaultKind::Expected, item)),
    }
}

/// Reads the semicolon after a declaration.
fn skipped_end(reader: &mut Reader<'_>) -> Result<(), SyntaxFault>
    ensures { Parses result (SkippedEnd ∷ [])
        (λ _. mark marks.Semicolon ∷ []) reader.old reader.new }
{
    let item = reader.take()?;
    if !is_mark(item, Mark::Semicolon) {
        return Err(fault_at(FaultKind::Expected, item));
    }
    Ok(())
}

/// Returns the byte offset of the first of some tokens. The last one is `item`; those before it, if
/// any, are between `from` and `to`.
fn begun(from: u64, to: u64, item: Item<'_>) -> u64
    ensures stand { (ws : List Words.Word) (old new : Reading)
        → Stands old.text from ws to → to ≡ old.place → Shows old (located_of item.entry) new
        → Stands new.text result (ws ++ word_of item.entry.lexeme ∷ []) new.place }
    ensures place { result ≡ (if from == to then item.entry.place else from) }
{
    if from == to {
        return item.place;
    }
    from
}

/// Whether a name begins a function or procedure.
fn opens(found: Word<'_>) -> bool
    ensures { result ≡ opens_routine (capitals found.entry) }
{
    spells(found, b"FUNCTION") || spells(found, b"PROCEDURE")
}

/// Whether a name ends a function or procedure.
fn closes(found: Word<'_>) -> bool
    ensures { result ≡ closes_routine (capitals found.entry) }
{
    spells(found, b"END_FUNCTION") || spells(found, b"END_PROCEDURE")
}

/// Returns the number of functions and procedures that are open after a token, not counting the
/// outermost one, or `None` if the outermost one has ended.
fn left_open(others: u64, item: Item<'_>) -> Option<u64>
    requires { others + 1 < 2 ^ 64 }
    ensures { next_routine others (located_of item.entry).lookahead ≡ Ok (still_open result) }
{
    let Lexeme::Name(found) = item.lexeme else {
        return Some(others);
    };
    if opens(found) {
        return Some(others + 1);
    }
    if !closes(found) {
        return Some(others);
    }
    if others == 0 {
        return None;
    }
    Some(others - 1)
}

/// Reads the tokens of a function or procedure after its name, including the word that ends it.
fn routine_tokens<'a>(reader: &mut Reader<'a>) -> Result<Routine<'a>, SyntaxFault>
    ensures read { ParsesWhere result (Predict.Routine 0 ∷ [])
        (λ r. words_of_routine (routine_of r)) (λ r. FitsRoutine (routine_of r))
        reader.old reader.new }
    ensures text { IfOk result (λ r. IsRoutineOf reader.old.text r) }
    ensures place { IfOk result (λ r. IsRoutineAt reader.old.text reader.old.place r) }
{
    let mut others = 0;
    let mut from = reader.place();
    let mut to = from;
    loop {
        let item = reader.take()?;
        from = begun(from, to, item);
        to = reader.place();
        let Some(left) = left_open(others, item) else {
            let passage = Passage::between(reader.text(), from as usize, to as usize);
            return Ok(Routine::of(passage));
        };
        others = left;
    }
}

/// Reads tokens up to the name `end`, which is in capitals. The passage doesn't include that name.
fn tokens_until<'a>(reader: &mut Reader<'a>, end: &[u8]) -> Result<Passage<'a>, SyntaxFault>
    requires { upper end.now ≡ end.now }
    ensures read { ParsesWhere result (Until end.now ∷ [])
        (λ p. words_of_passage p ++ name end.now ∷ []) (λ p. IsWithout end.now (words_of_passage p))
        reader.old reader.new }
    ensures text { IfOk result (λ p. IsPassageOf reader.old.text p) }
    ensures place { IfOk result (λ p. IsPassageAt reader.old.text reader.old.place p) }
{
    let mut from = reader.place();
    let mut to = from;
    loop {
        let item = reader.take()?;
        if is_named(item, end) {
            return Ok(Passage::between(reader.text(), from as usize, to as usize));
        }
        from = begun(from, to, item);
        to = reader.place();
    }
}

/// Reads a function or procedure, after its first word.
fn named_routine<'a>(reader: &mut Reader<'a>) -> Result<(Word<'a>, Routine<'a>), SyntaxFault>
    ensures read { ParsesWhere result (SkippedName ∷ Predict.Routine 0 ∷ SkippedEnd ∷ [])
        (λ r. name (capitals r.0)
        ∷ (words_of_routine (routine_of r.1) ++ mark marks.Semicolon ∷ []))
        (λ r. FitsRoutine (routine_of r.1)) reader.old reader.new }
    ensures text { IfOk result (λ r. IsRoutineOf reader.old.text r.1) }
    ensures place { IfOk result (λ r. BehindName reader.old.text reader.old.place r.0
        (λ mid. IsRoutineAt reader.old.text mid r.1)) }
{
    let name = skipped_name(reader)?;
    let tokens = routine_tokens(reader)?;
    skipped_end(reader)?;
    Ok((name, tokens))
}

/// Reads the tokens of a declaration up to the name `end`, and the semicolon after it.
fn tokens_ended<'a>(reader: &mut Reader<'a>, end: &[u8]) -> Result<Passage<'a>, SyntaxFault>
    requires { upper end.now ≡ end.now }
    ensures read { ParsesWhere result (Until end.now ∷ SkippedEnd ∷ [])
        (λ p. words_of_passage p ++ name end.now ∷ mark marks.Semicolon ∷ [])
        (λ p. IsWithout end.now (words_of_passage p)) reader.old reader.new }
    ensures text { IfOk result (λ p. IsPassageOf reader.old.text p) }
    ensures place { IfOk result (λ p. IsPassageAt reader.old.text reader.old.place p) }
{
    let tokens = tokens_until(reader, end)?;
    skipped_end(reader)?;
    Ok(tokens)
}

/// Reads a declaration with a name, after its first word.
fn named_tokens<'a>(
    reader: &mut Reader<'a>,
    end: &[u8],
) -> Result<(Word<'a>, Passage<'a>), SyntaxFault>
    requires { upper end.now ≡ end.now }
    ensures read { ParsesWhere result (SkippedName ∷ Until end.now ∷ SkippedEnd ∷ [])
        (λ p. name (capitals p.0)
        ∷ (words_of_passage p.1 ++ name end.now ∷ mark marks.Semicolon ∷ []))
        (λ p. IsWithout end.now (words_of_passage p.1)) reader.old reader.new }
    ensures text { IfOk result (λ p. IsPassageOf reader.old.text p.1) }
    ensures place { IfOk result (λ p. BehindName reader.old.text reader.old.place p.0
        (λ mid. IsPassageAt reader.old.text mid p.1)) }
{
    let name = skipped_name(reader)?;
    let tokens = tokens_ended(reader, end)?;
    Ok((name, tokens))
}

/// Reads a declaration that begins with the name `first`, which is at byte offset `place`.
pub fn skipped<'a>(
    reader: &mut Reader<'a>,
    first: Word<'a>,
    place: u64,
) -> Result<Skipped<'a>, SyntaxFault>
    ensures read { MatchResult result
        (λ s. FitsSkipped (skipped_of s)
        × Passes (Declarations ∷ []) (Declarations ∷ []) (named first.entry place ∷ [])
        (words_of_skipped (skipped_of s)) reader.old reader.new)
        (λ e. StopsIn e (Declarations ∷ []) (named first.entry place ∷ []) reader.old) }
    ensures text { IfOk result (λ s. IsSkippedOf reader.old.text s) }
    ensures place { IfOk result (λ s. IsSkippedAt reader.old.text reader.old.place s) }
{
    if spells(first, b"FUNCTION") {
        let (name, tokens) = named_routine(reader)?;
        return Ok(Skipped::Function(name, tokens));
    }
    if spells(first, b"PROCEDURE") {
        let (name, tokens) = named_routine(reader)?;
        return Ok(Skipped::Procedure(name, tokens));
    }
    if spells(first, b"RULE") {
        let (name, tokens) = named_tokens(reader, b"END_RULE")?;
        return Ok(Skipped::Rule(name, tokens));
    }
    if spells(first, b"CONSTANT") {
        let tokens = tokens_ended(reader, b"END_CONSTANT")?;
        return Ok(Skipped::Constants(tokens));
    }
    if spells(first, b"SUBTYPE_CONSTRAINT") {
        let (name, tokens) = named_tokens(reader, b"END_SUBTYPE_CONSTRAINT")?;
        return Ok(Skipped::SubtypeConstraint(name, tokens));
    }
    Err(SyntaxFault::Fault {
        kind: FaultKind::Expected,
        place,
    })
}
