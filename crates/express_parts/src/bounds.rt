//! Bounds, widths and supertype expressions (ISO 10303-11, 8.1, 8.2 and 9.2.5): the parts in
//! brackets.

ghost use Rattle.std.specs.Prelude.{
  ◌≡◌,
  ℕ,
  [],
  ◌∷◌,
  ◌+◌,
  ◌<◌,
  ◌≤◌,
  ◌++◌,
  List,
  Bool,
  false,
  IsTrue,
  ◌↔◌,
  codes,
  IfOk,
  IfSome,
  MatchOption,
  MatchResult,
};
ghost use Rattle.express_lexer.specs.declared.marks.Mark.TheVariants as marks;
ghost use Rattle.express_syntax.specs.declared.keyword.Keyword.TheVariants as keywords;
ghost use Rattle.express_syntax.specs.declared.expression.Sign as signs;
ghost use Rattle.express_syntax.specs.Trees.{word_of_sign};
ghost use Rattle.express_syntax.specs.Words;
ghost use Rattle.express_syntax.specs.Words.{word_of, words_of, integer, mark, keyword, name};
ghost use Rattle.express_syntax.specs.ExpressionViews.{capitals};
ghost use Rattle.express_syntax.specs.Grammar.{depth_limit};
ghost use Rattle.express_syntax.specs.Views.{
  if_some,
  run_of,
  names_of,
  bound_of,
  bounds_of,
  width_of,
  supertype_of,
};
ghost use Rattle.express_syntax.specs.WrittenSchemas.{
  words_of_names,
  words_of_bound,
  words_of_bounds,
  words_of_some_bounds,
  words_of_width,
  words_of_expression,
  words_of_supertype,
};
ghost use Rattle.express_syntax.specs.Profile.{
  Maybe,
  IsFilled,
  IsBoundText,
  IsSupertypeText,
  FitsBound,
  FitsBounds,
  FitsWidth,
  FitsSupertype,
};
ghost use Rattle.express_syntax.specs.Sources.{
  IsRunOf,
  IsBoundOf,
  IsBoundsOf,
  IsWidthOf,
  IsSupertypeOf,
};
ghost use Rattle.express_syntax.specs.Runs.{words_of_run, FitsRun, IsSome};
ghost use Rattle.express_token_runs.specs.steps.OpenRuns.{part_of, may_of, end_of};
ghost use Rattle.express_syntax.specs.steps.Predict.{
  BoundsOrOf,
  Running,
  in_parentheses,
  bounds_symbols,
};
ghost use Rattle.express_syntax.specs.steps.Steps.{Passes, ParsesWhere, ParsesBehind, StopsIn};

use express_lexer::lexer::Lexer;
use express_lexer::marks::Mark;
use express_syntax::expression::{LEVELS, Sign};
use express_syntax::fault::{FaultKind, SyntaxFault};
use express_syntax::keyword::Keyword;
use express_syntax::lexeme::Lexeme;
use express_syntax::passage::Run;
use express_syntax::tree::{Bound, Bounds, Supertype, Width};
use express_token_runs::reader::Reader;
use express_token_runs::runs::{Buffer, Ends, gather};
use express_token_runs::tokens::{fault_at, is_keyword, is_mark, next_item, refuse};
use std::alloc::{AllocError, Global};
use step_literals::literal::{Decimal, Word};

/// Reads a run of tokens after an opening bracket or after the colon of bounds, and the mark that
/// ends it.
fn next_run<'a>(
    lexer: &mut Lexer<'a>,
    part: Ends,
    around: u32,
    buffer: &mut Buffer<'a>,
) -> Result<Run<'a>, SyntaxFault>
    requires around { around ≤ 64 }
    ensures read { MatchResult result
        (λ r. (words_of_run (run_of r) ≡ words_of buffer.new.lexemes.items)
        × FitsRun depth_limit (may_of (part_of part)) around (run_of r) × IsSome (run_of r)
        × Passes (Running (part_of part) around [] false ∷ []) [] []
        (words_of buffer.new.lexemes.items
        ++ mark (end_of (part_of part)) ∷ []) lexer.old lexer.new)
        (λ e. StopsIn e (Running (part_of part) around [] false ∷ []) [] lexer.old) }
    ensures text { IfOk result (λ r. IsRunOf lexer.old.text r) }
{
    buffer.clear();
    let first = next_item(lexer)?;
    gather(lexer, part, around, buffer, first)
}

/// Returns the bound that consists of this token, if any.
fn plain_bound(lexeme: Lexeme<'_>) -> Option<Bound<'_>>
    ensures known { MatchOption result (IsBoundText (word_of lexeme.entry ∷ []) → ⊥)
        (λ b. (words_of_bound (bound_of b) ≡ word_of lexeme.entry ∷ [])
        × ((may : Words.Word → Bool) (n : ℕ) → FitsBound depth_limit may n (bound_of b))) }
    ensures text { (text : List ℕ) → IfSome result (λ b. IsBoundOf text b) }
{
    match lexeme {
        Lexeme::Integer(digits) => Some(Bound::Value(None, digits)),
        Lexeme::Mark(Mark::Unknown) => Some(Bound::Unlimited),
        _ => None,
    }
}

/// Returns the integer that the lexeme is, if any.
fn integer_at(lexeme: Lexeme<'_>) -> Option<Decimal<'_>>
    ensures { MatchOption result ((t : List ℕ) → word_of lexeme.entry ≡ integer t → ⊥)
        (λ d. word_of lexeme.entry ≡ integer d.text.now) }
{
    match lexeme {
        Lexeme::Integer(digits) => Some(digits),
        _ => None,
    }
}

/// Returns the sign that the lexeme is, if any.
fn sign_at(lexeme: Lexeme<'_>) -> Option<Sign>
    ensures { MatchOption result ((s : signs.Sign) → word_of lexeme.entry ≡ word_of_sign s → ⊥)
        (λ s. word_of lexeme.entry ≡ word_of_sign s) }
{
    match lexeme {
        Lexeme::Mark(Mark::Plus) => Some(Sign::Plus),
        Lexeme::Mark(Mark::Minus) => Some(Sign::Minus),
        _ => None,
    }
}

/// Returns the name that the lexeme is, if any.
fn name_at(lexeme: Lexeme<'_>) -> Option<Word<'_>>
    ensures { MatchOption result ((n : List ℕ) → word_of lexeme.entry ≡ name n → ⊥)
        (λ w. word_of lexeme.entry ≡ name (capitals w)) }
{
    match lexeme {
        Lexeme::Name(word) => Some(word),
        _ => None,
    }
}

/// Whether the lexeme is this mark.
fn shows_mark(lexeme: Lexeme<'_>, wanted: Mark) -> bool
    ensures { IsTrue result ↔ (word_of lexeme.entry ≡ mark wanted) }
{
    match lexeme {
        Lexeme::Mark(found) => found == wanted,
        _ => false,
    }
}

/// Returns the bound that consists of these tokens, if any.
fn known_bound<'a>(lexemes: &[Lexeme<'a>]) -> Option<Bound<'a>>
    ensures known { MatchOption result (IsBoundText (words_of lexemes.now) → ⊥)
        (λ b. (words_of_bound (bound_of b) ≡ words_of lexemes.now)
        × ((may : Words.Word → Bool) (n : ℕ) → FitsBound depth_limit may n (bound_of b))) }
    ensures text { (text : List ℕ) → IfSome result (λ b. IsBoundOf text b) }
{
    match lexemes {
        [lexeme] => plain_bound(*lexeme),
        [first, second] => {
            let sign = sign_at(*first)?;
            let digits = integer_at(*second)?;
            Some(Bound::Value(Some(sign), digits))
        }
        _ => None,
    }
}

/// Returns the integer that these tokens are, if they are one.
fn known_width<'a>(lexemes: &[Lexeme<'a>]) -> Option<Decimal<'a>>
    ensures { MatchOption result ((t : List ℕ) → words_of lexemes.now ≡ integer t ∷ [] → ⊥)
        (λ d. words_of lexemes.now ≡ integer d.text.now ∷ []) }
{
    match lexemes {
        [lexeme] => integer_at(*lexeme),
        _ => None,
    }
}

/// Whether the word is ONEOF, regardless of case.
fn is_one_of(word: Word<'_>) -> bool
    ensures { IsTrue result ↔ (capitals word.entry ≡ codes "ONEOF") }
{
    word.spelling().eq_ignore_ascii_case(b"ONEOF")
}

/// Returns the names if these tokens are names in parentheses, otherwise `None`.
fn known_names<'a>(
    alloc: Global,
    lexemes: &[Lexeme<'a>],
) -> Result<Option<Vec<Word<'a>>>, AllocError>
    ensures { IfOk result
        (λ r. MatchOption r ((names : List (List ℕ)) → IsFilled names
        → words_of lexemes.now ≡ words_of_names names → ⊥)
        (λ names. IsFilled (names_of names.items)
        × (words_of lexemes.now ≡ words_of_names (names_of names.items)))) }
{
    let [opening, inner @ ..] = lexemes else {
        return Ok(None);
    };
    if !shows_mark(*opening, Mark::Open) {
        return Ok(None);
    }
    let mut names = Vec::new(alloc);
    let mut left = inner;
    loop {
        let [first, next, more @ ..] = left else {
            return Ok(None);
        };
        let Some(name) = name_at(*first) else {
            return Ok(None);
        };
        names.push(name)?;
        if shows_mark(*next, Mark::Comma) {
            left = more;
            continue;
        }
        if !shows_mark(*next, Mark::Close) {
            return Ok(None);
        }
        if !more.is_empty() {
            return Ok(None);
        }
        names.shrink_to_fit();
        return Ok(Some(names));
    }
}

/// Returns the supertype expression that these tokens are, if it has a tree, otherwise `None`.
fn known_supertype<'a>(
    alloc: Global,
    lexemes: &[Lexeme<'a>],
) -> Result<Option<Supertype<'a>>, AllocError>
    ensures known { IfOk result
        (λ r. MatchOption r (IsSupertypeText (words_of lexemes.now) → ⊥)
        (λ s. FitsSupertype depth_limit (supertype_of s)
        × (words_of_supertype (supertype_of s) ≡ words_of_expression (words_of lexemes.now)))) }
    ensures text { (text : List ℕ) → IfOk result
        (λ r. IfSome r (λ s. IsSupertypeOf text s)) }
{
    let [first, names @ ..] = lexemes else {
        return Ok(None);
    };
    let Some(name) = name_at(*first) else {
        return Ok(None);
    };
    if names.is_empty() {
        return Ok(Some(Supertype::OfOne(name)));
    }
    if !is_one_of(name) {
        return Ok(None);
    }
    let known = known_names(alloc, names)?;
    match known {
        Some(names) => Ok(Some(Supertype::OfOneOf(names))),
        None => Ok(None),
    }
}

/// Reads a bound and the mark that ends it.
fn bound<'a>(reader: &mut Reader<'a>, part: Ends, around: u32) -> Result<Bound<'a>, SyntaxFault>
    requires around { around ≤ 64 }
    ensures read { ParsesWhere result (Running (part_of part) around [] false ∷ [])
        (λ b. words_of_bound (bound_of b) ++ mark (end_of (part_of part)) ∷ [])
        (λ b. FitsBound depth_limit (may_of (part_of part)) around (bound_of b)) reader.old
        reader.new }
    ensures text { IfOk result (λ b. IsBoundOf reader.old.text b) }
{
    let tokens = next_run(&mut reader.lexer, part, around, &mut reader.buffer)?;
    if let Some(bound) = known_bound(&reader.buffer.lexemes) {
        return Ok(bound);
    }
    let boxed = Box::new(reader.alloc, tokens)?;
    Ok(Bound::Other(boxed))
}

/// Reads the bounds of an aggregate type after their opening bracket, and OF. `around` brackets and
/// aggregate types are open around the bounds.
pub fn bounds<'a>(reader: &mut Reader<'a>, around: u32) -> Result<Bounds<'a>, SyntaxFault>
    requires around { around < 64 }
    ensures read { ParsesBehind (mark marks.OpenBracket ∷ []) result (bounds_symbols around)
        (λ b. words_of_bounds (bounds_of b) ++ keyword keywords.Of ∷ [])
        (λ b. FitsBounds depth_limit around (bounds_of b)) reader.old reader.new }
    ensures text { IfOk result (λ b. IsBoundsOf reader.old.text b) }
{
    let lower = bound(reader, Ends::Lower, around + 1)?;
    let upper = bound(reader, Ends::Upper, around + 1)?;
    reader.expect_keyword(Keyword::Of)?;
    Ok(Bounds { lower, upper })
}

/// Reads the bounds of an aggregate type, if any, and OF.
pub fn some_bounds<'a>(
    reader: &mut Reader<'a>,
    around: u32,
) -> Result<Option<Bounds<'a>>, SyntaxFault>
    requires around { around ≤ 64 }
    ensures read { ParsesWhere result (BoundsOrOf around ∷ [])
        (λ b. words_of_some_bounds (if_some bounds_of b) ++ keyword keywords.Of ∷ [])
        (λ b. Maybe (FitsBounds depth_limit around) (if_some bounds_of b)) reader.old reader.new }
    ensures text { IfOk result (λ b. Maybe (IsBoundsOf reader.old.text) b) }
{
    let item = reader.take()?;
    if is_keyword(item, Keyword::Of) {
        return Ok(None);
    }
    if !is_mark(item, Mark::OpenBracket) {
        return Err(refuse(item));
    }
    if around >= LEVELS {
        return Err(fault_at(FaultKind::TooDeep, item));
    }
    let bounds = bounds(reader, around)?;
    Ok(Some(bounds))
}

/// Reads the indices of an array after their opening bracket, and OF. Returns the indices in a box.
pub(crate) fn boxed_indices<'a>(
    reader: &mut Reader<'a>,
    around: u32,
) -> Result<Box<Bounds<'a>>, SyntaxFault>
    requires around { around < 64 }
    ensures read { ParsesBehind (mark marks.OpenBracket ∷ []) result (bounds_symbols around)
        (λ b. words_of_bounds (bounds_of b.value) ++ keyword keywords.Of ∷ [])
        (λ b. FitsBounds depth_limit around (bounds_of b.value)) reader.old reader.new }
    ensures text { IfOk result (λ b. IsBoundsOf reader.old.text b.value) }
{
    let bounds = bounds(reader, around)?;
    let boxed = Box::new(reader.alloc, bounds)?;
    Ok(boxed)
}

/// Reads the bounds of an aggregate type, if any, and OF. Returns the bounds in a box.
pub(crate) fn boxed_bounds<'a>(
    reader: &mut Reader<'a>,
    around: u32,
) -> Result<Box<Option<Bounds<'a>>>, SyntaxFault>
    requires around { around ≤ 64 }
    ensures read { ParsesWhere result (BoundsOrOf around ∷ [])
        (λ b. words_of_some_bounds (if_some bounds_of b.value) ++ keyword keywords.Of ∷ [])
        (λ b. Maybe (FitsBounds depth_limit around) (if_some bounds_of b.value)) reader.old
        reader.new }
    ensures text { IfOk result (λ b. Maybe (IsBoundsOf reader.old.text) b.value) }
{
    let bounds = some_bounds(reader, around)?;
    let boxed = Box::new(reader.alloc, bounds)?;
    Ok(boxed)
}

/// Reads a width after its opening parenthesis, and the closing one.
pub fn width<'a>(reader: &mut Reader<'a>, around: u32) -> Result<Width<'a>, SyntaxFault>
    requires around { around < 64 }
    ensures read { ParsesBehind (mark marks.Open ∷ []) result
        (Running in_parentheses (around + 1) [] false ∷ [])
        (λ w. words_of_width (width_of w))
        (λ w. FitsWidth depth_limit around (width_of w)) reader.old reader.new }
    ensures text { IfOk result (λ w. IsWidthOf reader.old.text w) }
{
    let tokens = next_run(
        &mut reader.lexer,
        Ends::Parentheses,
        around + 1,
        &mut reader.buffer,
    )?;
    if let Some(width) = known_width(&reader.buffer.lexemes) {
        return Ok(Width::Value(width));
    }
    Ok(Width::Other(tokens))
}

/// Reads a supertype expression after its opening parenthesis, and the closing one.
pub fn supertype<'a>(reader: &mut Reader<'a>) -> Result<Supertype<'a>, SyntaxFault>
    ensures read { ParsesBehind
        (keyword keywords.Supertype ∷ keyword keywords.Of ∷ mark marks.Open ∷ [])
        result (Running in_parentheses 1 [] false ∷ [])
        (λ s. words_of_supertype (supertype_of s))
        (λ s. FitsSupertype depth_limit (supertype_of s)) reader.old reader.new }
    ensures text { IfOk result (λ s. IsSupertypeOf reader.old.text s) }
{
    let tokens = next_run(&mut reader.lexer, Ends::Parentheses, 1, &mut reader.buffer)?;
    let known = known_supertype(reader.alloc, &reader.buffer.lexemes)?;
    if let Some(supertype) = known {
        return Ok(supertype);
    }
    Ok(Supertype::OfOther(tokens))
}
