//! Runs of tokens, up to the mark that ends them.

ghost use Rattle.std.specs.Prelude.{◌≡◌, ℕ, ◌≤◌, true, false, [], ◌∷◌, length, IfOk, MatchResult};
ghost use Rattle.express_lexer.specs.Reading.{Reading};
ghost use Rattle.express_syntax.specs.Words.{words_of, mark, name};
ghost use Rattle.express_syntax.specs.ExpressionViews.{capitals};
ghost use Rattle.express_syntax.specs.Grammar.{depth_limit};
ghost use Rattle.express_syntax.specs.declared.fault.SyntaxFault.TheVariants.{Fault};
ghost use Rattle.express_token_runs.specs.steps.Items.{located_of, named};
ghost use Rattle.express_syntax.specs.Texts.{Shows};
ghost use Rattle.express_syntax.specs.Views.{run_of};
ghost use Rattle.express_syntax.specs.Sources.{IsRunOf, place_of_run};
ghost use Rattle.express_syntax.specs.Runs;
ghost use Rattle.express_syntax.specs.Runs.{words_of_run};
ghost use Rattle.express_syntax.specs.steps.Predict;
ghost use Rattle.express_syntax.specs.steps.Predict.{RunEnd};
ghost use Rattle.express_syntax.specs.steps.Steps.{StopsIn};
ghost use Rattle.express_token_runs.specs.steps.OpenRuns.{
  part_of,
  bracket_of,
  brackets_of,
  Agrees,
  IsBegun,
  IsPushed,
  Gathered,
  begin_of,
  more_of,
};
ghost use Rattle.express_syntax.specs.Passages.{Stands, IsRun};

use crate::tokens::{Item, next_item};
use express_lexer::lexer::Lexer;
use express_lexer::marks::Mark;
use express_syntax::expression::LEVELS;
use express_syntax::fault::{FaultKind, SyntaxFault};
use express_syntax::lexeme::Lexeme;
use express_syntax::passage::{Passage, Run};
use std::alloc::{AllocError, Global};
use step_literals::literal::Word;

/// The mark that ends a run.
#[derive(Clone, Copy, Debug, PartialEq, Eq)]
pub enum Ends {
    /// The semicolon of a rule.
    Rule,
    /// The colon of a lower bound.
    Lower,
    /// The bracket of an upper bound.
    Upper,
    /// The closing parenthesis.
    Parentheses,
}

/// An open bracket of a run of tokens (ISO 10303-11, 7.3).
#[derive(Clone, Copy, Debug, PartialEq, Eq)]
pub enum Bracket {
    Parenthesis,
    Square,
    Brace,
}

/// The tokens of a run so far, its open brackets with the outermost first, and the byte offsets of
/// the beginning of its first token and the end of its last. It is reused for the next run.
#[derive(Drop)]
pub struct Buffer<'a> {
    pub lexemes: Vec<Lexeme<'a>>,
    pub open: Vec<Bracket>,
    pub from: u64,
    pub to: u64,
}

impl<'a> Buffer<'a> {
    /// Returns a buffer without tokens.
    pub fn new(alloc: Global) -> Self
        ensures { (result.lexemes.items ≡ []) × (result.open.items ≡ []) }
    {
        Buffer {
            lexemes: Vec::new(alloc),
            open: Vec::new(alloc),
            from: 0,
            to: 0,
        }
    }

    /// Removes all tokens.
    pub fn clear(&mut self)
        ensures empty { (self.new.lexemes.items ≡ []) × (self.new.open.items ≡ []) }
        ensures begun { (part : RunEnd) (n : ℕ) (here : Reading) → IsBegun part n self.new here }
    {
        self.lexemes.clear();
        self.open.clear();
    }

    /// Removes all tokens and adds this name, which begins at `place` and ends at `end`.
    pub fn begin(&mut self, first: Word<'a>, place: u64, end: u64) -> Result<(), AllocError>
        ensures { IfOk result (λ _.
            (words_of self.new.lexemes.items ≡ name (capitals first.entry) ∷ [])
            × (self.new.open.items ≡ [])
            × ((part : RunEnd) (n : ℕ) (old here : Reading)
            → Shows old (named first.entry place) here → end ≡ here.place
            → IsBegun part n self.new here)) }
    {
        self.clear();
        self.lexemes.push(Lexeme::Name(first))?;
        self.from = place;
        self.to = end;
        Ok(())
    }

    /// Adds a token that ends at byte offset `end`.
    fn push(&mut self, item: Item<'a>, end: u64) -> Result<(), AllocError>
        ensures { IfOk result (λ _. IsPushed self.old item.entry end self.new) }
    {
        if self.lexemes.is_empty() {
            self.from = item.place;
        }
        self.lexemes.push(item.lexeme)?;
        self.to = end;
        Ok(())
    }
}

/// Returns the run between two byte offsets of a text.
fn run_between(text: &[u8], from: u64, to: u64) -> Run<'_>
    requires { (r : Runs.Run) × IsRun r × Stands text.now from (words_of_run r) to }
    ensures run { (r : Runs.Run) → IsRun r → Stands text.now from (words_of_run r) to
        → run_of result ≡ r }
    ensures text { IsRunOf text.now result }
    ensures place { place_of_run result ≡ from }
{
    Run::of(Passage::between(text, from as usize, to as usize))
}

fn fault(kind: FaultKind, place: u64) -> SyntaxFault
    ensures { result ≡ Fault kind place }
{
    SyntaxFault::Fault { kind, place }
}

/// Whether the mark ends such a run while none of its brackets is open.
fn ends_run(part: Ends, mark: Mark) -> bool
    ensures { result ≡ Predict.ends_part (part_of part) mark }
{
    match (part, mark) {
        (Ends::Rule, Mark::Semicolon) => true,
        (Ends::Lower, Mark::Colon) => true,
        (Ends::Upper, Mark::CloseBracket) => true,
        (Ends::Parentheses, Mark::Close) => true,
        _ => false,
    }
}

fn is_same(one: Bracket, other: Bracket) -> bool
    ensures { result ≡ Predict.same_bracket (bracket_of one) (bracket_of other) }
{
    match (one, other) {
        (Bracket::Parenthesis, Bracket::Parenthesis) => true,
        (Bracket::Square, Bracket::Square) => true,
        (Bracket::Brace, Bracket::Brace) => true,
        _ => false,
    }
}

/// Opens a bracket of a run, with `around` brackets open around the run.
fn opened(
    around: u32,
    open: &mut Vec<Bracket>,
    bracket: Bracket,
    place: u64,
) -> Result<bool, SyntaxFault>
    requires around { around ≤ 64 }
    requires within { length open.old.items ≤ 64 }
    ensures { (part : RunEnd) → Agrees
        (Predict.opened depth_limit part around (brackets_of open.old.items) (bracket_of bracket))
        part around (brackets_of open.new.items) place result }
{
    if around as usize + open.len() >= LEVELS as usize {
        return Err(fault(FaultKind::TooDeep, place));
    }
    open.push(bracket)?;
    Ok(false)
}

/// Handles a mark while none of the run's brackets is open; `closes` says whether it is a closing
/// bracket.
fn outside(
    part: Ends,
    some: bool,
    closes: bool,
    mark: Mark,
    place: u64,
) -> Result<bool, SyntaxFault>
    ensures { (around : _) → Agrees (Predict.next_outside (part_of part) around some closes mark)
        (part_of part) around [] place result }
{
    if ends_run(part, mark) {
        if some {
            return Ok(true);
        }
        return Err(fault(FaultKind::Expected, place));
    }
    if closes {
        return Err(fault(FaultKind::Expected, place));
    }
    Ok(false)
}

/// Handles a closing bracket.
fn closed(
    part: Ends,
    open: &mut Vec<Bracket>,
    some: bool,
    bracket: Bracket,
    mark: Mark,
    place: u64,
) -> Result<bool, SyntaxFault>
    ensures { (around : _) → Agrees
        (Predict.closed (part_of part) around (brackets_of open.old.items) some
        (bracket_of bracket) mark)
        (part_of part) around (brackets_of open.new.items) place result }
{
    match open.pop() {
        None => outside(part, some, true, mark, place),
        Some(last) => {
            if is_same(bracket, last) {
                Ok(false)
            } else {
                Err(fault(FaultKind::Expected, place))
            }
        }
    }
}

/// Handles a mark that is no bracket.
fn beside(
    part: Ends,
    open: &[Bracket],
    some: bool,
    mark: Mark,
    place: u64,
) -> Result<bool, SyntaxFault>
    ensures { (around : _) → Agrees
        (Predict.next_mark (part_of part) around (brackets_of open.now) some mark)
        (part_of part) around (brackets_of open.now) place result }
{
    if open.is_empty() {
        return outside(part, some, false, mark, place);
    }
    Ok(false)
}

/// Handles one token of a run. Returns whether the token ends the run.
fn step(
    part: Ends,
    around: u32,
    open: &mut Vec<Bracket>,
    some: bool,
    item: Item<'_>,
) -> Result<bool, SyntaxFault>
    requires around { around ≤ 64 }
    requires within { length open.old.items ≤ 64 }
    ensures { Agrees
        (Predict.next_running depth_limit (part_of part) around (brackets_of open.old.items) some
        (located_of item.entry).lookahead)
        (part_of part) around (brackets_of open.new.items) item.entry.place result }
{
    let place = item.place;
    let Lexeme::Mark(mark) = item.lexeme else {
        return Ok(false);
    };
    match mark {
        Mark::Open => opened(around, open, Bracket::Parenthesis, place),
        Mark::OpenBracket => opened(around, open, Bracket::Square, place),
        Mark::OpenBrace => opened(around, open, Bracket::Brace, place),
        Mark::Close => closed(part, open, some, Bracket::Parenthesis, Mark::Close, place),
        Mark::CloseBracket => closed(part, open, some, Bracket::Square, Mark::CloseBracket, place),
        Mark::CloseBrace => closed(part, open, some, Bracket::Brace, Mark::CloseBrace, place),
        _ => beside(part, open, some, mark, place),
    }
}

/// Reads a run and the mark that ends it. The run begins with the tokens in `buffer`, then `first`,
/// which is already taken from the lexer. `around` brackets and aggregate types are open around the
/// run.
pub fn gather<'a>(
    lexer: &mut Lexer<'a>,
    part: Ends,
    around: u32,
    buffer: &mut Buffer<'a>,
    first: Item<'a>,
) -> Result<Run<'a>, SyntaxFault>
    requires around { around ≤ 64 }
    requires begun { (mid : Reading) × IsBegun (part_of part) around buffer.old mid
        × Shows mid (located_of first) lexer.old }
    ensures read { MatchResult result
        (λ r. Gathered (part_of part) around buffer.old buffer.new (located_of first.entry)
        (run_of r) lexer.old lexer.new)
        (λ e. StopsIn e (more_of (part_of part) around buffer.old ∷ [])
        (located_of first.entry ∷ []) lexer.old) }
    ensures text { IfOk result (λ r. IsRunOf lexer.old.text r) }
    ensures place { IfOk result (λ r.
        place_of_run r ≡ begin_of buffer.old first.entry.place) }
{
    let mut item = first;
    loop {
        let some = !buffer.lexemes.is_empty();
        if step(part, around, &mut buffer.open, some, item)? {
            return Ok(run_between(lexer.text(), buffer.from, buffer.to));
        }
        buffer.push(item, lexer.place())?;
        item = next_item(lexer)?;
    }
}
