//! Parameters, read from tokens (ISO 10303-21, 11).

ghost use Rattle.std.specs.Prelude.{◌≡◌, ◌≤◌, ◌<◌, true, false, [], ◌∷◌, Some, MatchResult};
ghost use Rattle.step_lexer.specs.declared.token.Mark.TheVariants.{Open};
ghost use Rattle.step_records.specs.declared.cell.Leaf.TheVariants.{Keyword};
ghost use Rattle.step_structures.specs.steps.Predict;
ghost use Rattle.step_structures.specs.Words.{located};
ghost use Rattle.step_structures.specs.steps.Predict.{Value, Items, params_symbols};
ghost use Rattle.step_records.specs.steps.Tokens.{StandsIn, leaf_of};
ghost use Rattle.step_records.specs.steps.Readers.{reading};
ghost use Rattle.step_records.specs.steps.Steps.{
  StopsIn,
  StopsAnyway,
  TakesInner,
  TakesItem,
  TakesNext,
  BeginsItems,
  TakesValue,
  TakesItems,
  TakesParams,
  inner_symbols,
};

use crate::cell::Leaf;
use crate::reader::Reader;
use crate::tokens::{expect, fault_at, goes_on, is_mark, refuse, take};
use step_lexer::token::{Mark, Sort, Token};
use step_structures::fault::{FaultKind, TextFault};

/// The greatest number of parentheses that may be open at once.
const LEVELS: u32 = 64;

/// Adds the parameter that is this token by itself.
fn leaf<'a>(reader: &mut Reader<'a>, first: Token<'a>, depth: u32) -> Result<(), TextFault>
    requires stands { StandsIn reader.old.built.text first }
    requires keyword { leaf_of first.sort ≡ Some Keyword → ⊥ }
    requires open { Predict.is_mark Open (located first).lookahead ≡ false }
    ensures { MatchResult result
        (λ _. TakesValue depth (located first.entry) reader.old reader.new)
        (λ e. StopsIn e (Value depth ∷ []) (located first.entry ∷ []) (reading reader.old)) }
{
    let Some(leaf) = Leaf::of(first.sort) else {
        return Err(refuse(first));
    };
    reader.push_leaf(leaf, first)?;
    Ok(())
}

/// Reads the parameter in parentheses after the keyword of a typed one.
#[cycle(params)]
fn inner(reader: &mut Reader<'_>, depth: u32) -> Result<(), TextFault>
    requires { depth < 64 }
    ensures { MatchResult result
        (λ _. TakesInner depth reader.old reader.new)
        (λ e. StopsIn e (inner_symbols depth) [] (reading reader.old)) }
{
    expect(reader, Mark::Open)?;
    item(reader, depth + 1)?;
    expect(reader, Mark::Close)?;
    Ok(())
}

/// Reads the typed parameter that begins with this token, its keyword.
#[cycle(params)]
fn typed<'a>(reader: &mut Reader<'a>, first: Token<'a>, depth: u32) -> Result<(), TextFault>
    requires depth { depth < 64 }
    requires keyword { leaf_of first.sort ≡ Some Keyword }
    requires stands { StandsIn reader.old.built.text first }
    ensures { MatchResult result
        (λ _. TakesValue depth (located first.entry) reader.old reader.new)
        (λ e. StopsIn e (Value depth ∷ []) (located first.entry ∷ []) (reading reader.old)) }
{
    let mark = reader.pending_len();
    reader.push_leaf(Leaf::Keyword, first)?;
    inner(reader, depth)?;
    reader.close_typed(mark)?;
    Ok(())
}

/// Reads the rest of a list whose opening parenthesis is read.
#[cycle(params)]
fn list(reader: &mut Reader<'_>, depth: u32) -> Result<(), TextFault>
    requires { depth < 64 }
    ensures { (t : Token) → Predict.is_mark Open (located t).lookahead ≡ true → MatchResult result
        (λ _. TakesValue depth (located t) reader.old reader.new)
        (λ e. StopsIn e (Value depth ∷ []) (located t ∷ []) (reading reader.old)) }
{
    let mark = reader.pending_len();
    items(reader, depth + 1)?;
    reader.close_list(mark)?;
    Ok(())
}

/// Reads the parameter that begins with this token, with `depth` parentheses open around it.
#[cycle(params)]
fn value<'a>(reader: &mut Reader<'a>, first: Token<'a>, depth: u32) -> Result<(), TextFault>
    requires depth { depth ≤ 64 }
    requires stands { StandsIn reader.old.built.text first }
    ensures { MatchResult result
        (λ _. TakesValue depth (located first.entry) reader.old reader.new)
        (λ e. StopsIn e (Value depth ∷ []) (located first.entry ∷ []) (reading reader.old)) }
{
    match first.sort {
        Sort::Keyword(_) => {
            if depth >= LEVELS {
                return Err(fault_at(FaultKind::TooDeep, first));
            }
            typed(reader, first, depth)
        }
        Sort::Mark(Mark::Open) => {
            if depth >= LEVELS {
                return Err(fault_at(FaultKind::TooDeep, first));
            }
            list(reader, depth)
        }
        _ => leaf(reader, first, depth),
    }
}

/// Reads the next parameter, if it has no layout before it and begins with no keyword. `depth`
/// parentheses are open around it. Returns whether it did; otherwise nothing is read.
#[cycle(params)]
#[inline(always)]
fn next_item(reader: &mut Reader<'_>, depth: u32) -> Result<bool, TextFault>
    requires { depth ≤ 64 }
    ensures { MatchResult result
        (λ is. TakesNext is depth reader.old reader.new)
        (λ e. StopsAnyway e depth (reading reader.old)) }
{
    if reader.push_next()? {
        return Ok(true);
    }
    if depth >= LEVELS {
        return Ok(false);
    }
    if !reader.skip_mark(Mark::Open) {
        return Ok(false);
    }
    list(reader, depth)?;
    Ok(true)
}

/// Reads the next parameter, with `depth` parentheses open around it. It may come after layout and
/// begin with a keyword.
#[cycle(params)]
fn item_any(reader: &mut Reader<'_>, depth: u32) -> Result<(), TextFault>
    requires { depth ≤ 64 }
    ensures { MatchResult result
        (λ _. TakesItem depth reader.old reader.new)
        (λ e. StopsIn e (Value depth ∷ []) [] (reading reader.old)) }
{
    let first = take(reader)?;
    value(reader, first, depth)?;
    Ok(())
}

/// Reads the next parameter, with `depth` parentheses open around it.
#[cycle(params)]
#[inline(always)]
fn item(reader: &mut Reader<'_>, depth: u32) -> Result<(), TextFault>
    requires { depth ≤ 64 }
    ensures { MatchResult result
        (λ _. TakesItem depth reader.old reader.new)
        (λ e. StopsIn e (Value depth ∷ []) [] (reading reader.old)) }
{
    if next_item(reader, depth)? {
        return Ok(());
    }
    item_any(reader, depth)
}

/// Reads the first parameter of a list, or its closing parenthesis. Returns whether it was a
/// parameter. Either may come after layout, and the parameter may begin with a keyword.
#[cycle(params)]
fn first_item_any(reader: &mut Reader<'_>, depth: u32) -> Result<bool, TextFault>
    requires { depth ≤ 64 }
    ensures { MatchResult result
        (λ some. BeginsItems some depth reader.old reader.new)
        (λ e. StopsIn e (Items depth ∷ []) [] (reading reader.old)) }
{
    let first = take(reader)?;
    if is_mark(first, Mark::Close) {
        return Ok(false);
    }
    value(reader, first, depth)?;
    Ok(true)
}

/// Reads the first parameter of a list, or its closing parenthesis. Returns whether it was a
/// parameter.
#[cycle(params)]
#[inline(always)]
fn first_item(reader: &mut Reader<'_>, depth: u32) -> Result<bool, TextFault>
    requires { depth ≤ 64 }
    ensures { MatchResult result
        (λ some. BeginsItems some depth reader.old reader.new)
        (λ e. StopsIn e (Items depth ∷ []) [] (reading reader.old)) }
{
    if next_item(reader, depth)? {
        return Ok(true);
    }
    first_item_any(reader, depth)
}

/// Reads the parameters of a list after its opening parenthesis, and the closing one. `depth`
/// parentheses are open, including that of the list.
#[cycle(params)]
pub fn items(reader: &mut Reader<'_>, depth: u32) -> Result<(), TextFault>
    requires { depth ≤ 64 }
    ensures { MatchResult result
        (λ _. TakesItems depth reader.old reader.new)
        (λ e. StopsIn e (Items depth ∷ []) [] (reading reader.old)) }
{
    if !first_item(reader, depth)? {
        return Ok(());
    }
    while goes_on(reader)? {
        item(reader, depth)?;
    }
    Ok(())
}

/// Reads the parameters of a record in their parentheses, with `depth` parentheses open around
/// them.
pub fn record_params(reader: &mut Reader<'_>, depth: u32) -> Result<(), TextFault>
    requires { depth < 64 }
    ensures { MatchResult result
        (λ _. TakesParams depth reader.old reader.new)
        (λ e. StopsIn e (params_symbols depth) [] (reading reader.old)) }
{
    expect(reader, Mark::Open)?;
    items(reader, depth + 1)
}
