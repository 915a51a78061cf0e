//! The data types of values (ISO 10303-11, 8.1 and 8.2).

ghost use Rattle.std.specs.Prelude.{
  ◌≡◌,
  ℕ,
  [],
  ◌∷◌,
  ◌++◌,
  ◌≤◌,
  ◌<◌,
  ◌+◌,
  List,
  true,
  false,
  IfOk,
  MatchResult,
  MatchOption,
};
ghost use Rattle.express_lexer.specs.declared.marks.Mark.TheVariants as marks;
ghost use Rattle.express_syntax.specs.declared.keyword.Keyword.TheVariants as keywords;
ghost use Rattle.express_syntax.specs.Words.{mark, keyword};
ghost use Rattle.express_syntax.specs.Grammar.{depth_limit};
ghost use Rattle.express_token_runs.specs.steps.Items.{located_of};
ghost use Rattle.express_syntax.specs.Texts.{token};
ghost use Rattle.express_syntax.specs.Views.{data_type_of, width_of, fixed_of, bounds_of, if_some};
ghost use Rattle.express_syntax.specs.WrittenSchemas.{
  said,
  words_of_data_type,
  words_of_width,
  words_of_fixed,
  words_of_some_bounds,
};
ghost use Rattle.express_syntax.specs.Profile.{FitsDataType, FitsWidth, FitsBounds, Maybe};
ghost use Rattle.express_syntax.specs.Sources.{
  IsBoundsOf,
  IsWidthOf,
  IsFixedWidthOf,
  IsDataTypeOf,
};
ghost use Rattle.express_syntax.specs.steps.Predict;
ghost use Rattle.express_syntax.specs.steps.Predict.{
  Symbol,
  Just,
  DataTypeThen,
  WidthOr,
  FixedWidthOr,
  FixedOr,
  BoundsOrOf,
  UniqueOr,
  OptionalOr,
  bounds_symbols,
  ending_mark,
};
ghost use Rattle.express_parts.specs.steps.DataTypeParts;
ghost use Rattle.express_parts.specs.steps.DataTypeParts.{PassesDataType, PassesBehind, TakesWidth};
ghost use Rattle.express_parts.specs.steps.Endings.{ending_of};
ghost use Rattle.express_syntax.specs.steps.Steps.{Passes, Parses, ParsesWhere, ParsesFrom, StopsIn};

use crate::bounds::{boxed_bounds, boxed_indices, width};
use crate::builders;
use express_lexer::marks::Mark;
use express_syntax::expression::LEVELS;
use express_syntax::fault::{self, SyntaxFault};
use express_syntax::keyword::Keyword;
use express_syntax::lexeme::Lexeme;
use express_syntax::tree::{Bounds, DataType, FixedWidth, Width};
use express_token_runs::reader::Reader;
use express_token_runs::tokens::{Item, fault_at, is_keyword, is_mark, refuse};

/// The mark after a data type.
#[derive(Clone, Copy, Debug, PartialEq, Eq)]
pub enum Ending {
    Semicolon,
    /// The `:=` of a derived attribute.
    Assignment,
}

impl Ending {
    fn mark(self) -> Mark
        ensures { result ≡ ending_mark (ending_of self) }
    {
        match self {
            Ending::Semicolon => Mark::Semicolon,
            Ending::Assignment => Mark::Assign,
        }
    }
}

/// Whether an aggregate type begins with this word.
fn is_aggregate(found: Keyword) -> bool
    ensures { result ≡ DataTypeParts.is_aggregate found }
{
    match found {
        Keyword::Array => true,
        Keyword::List => true,
        Keyword::Bag => true,
        Keyword::Set => true,
        _ => false,
    }
}

/// Whether a token is the mark after a data type.
fn is_end(item: Item<'_>, end: Ending) -> bool
    ensures { result ≡ Predict.is_mark (ending_mark (ending_of end))
        (located_of item.entry).lookahead }
{
    is_mark(item, end.mark())
}

/// Reads the mark after a data type.
fn expect_end(reader: &mut Reader<'_>, end: Ending) -> Result<(), SyntaxFault>
    ensures { Parses result (Just (ending_mark (ending_of end)) ∷ [])
        (λ _. mark (ending_mark (ending_of end)) ∷ []) reader.old reader.new }
{
    reader.expect(end.mark())
}

/// Reads the mark after a data type and returns the data type.
fn ended<'a>(
    reader: &mut Reader<'_>,
    data_type: DataType<'a>,
    end: Ending,
) -> Result<DataType<'a>, SyntaxFault>
    ensures read { ParsesWhere result (Just (ending_mark (ending_of end)) ∷ [])
        (λ k. mark (ending_mark (ending_of end)) ∷ [])
        (λ k. (k ≡ data_type.entry)) reader.old reader.new }
    ensures text { (text : List ℕ) → IsDataTypeOf text data_type.entry
        → IfOk result (λ k. IsDataTypeOf text k) }
{
    expect_end(reader, end)?;
    Ok(data_type)
}

/// Reads either the mark after a data type, or a width.
fn width_or_end<'a>(
    reader: &mut Reader<'a>,
    depth: u32,
    end: Ending,
) -> Result<Option<Width<'a>>, SyntaxFault>
    requires depth { depth ≤ 64 }
    ensures read { MatchResult result
        (λ o. (y : Symbol) (us : List Symbol) → TakesWidth y us depth (ending_of end)
        → MatchOption o (Passes (y ∷ []) [] [] (mark (ending_mark (ending_of end)) ∷ []) reader.old
        reader.new) (λ w. FitsWidth depth_limit depth (width_of w)
        × Passes (y ∷ []) us [] (words_of_width (width_of w)) reader.old reader.new))
        (λ e. (y : Symbol) (us : List Symbol) → TakesWidth y us depth (ending_of end)
        → StopsIn e (y ∷ []) [] reader.old) }
    ensures text { IfOk result (λ w. Maybe (IsWidthOf reader.old.text) w) }
{
    let first = reader.take()?;
    if is_mark(first, Mark::Open) {
        if depth >= LEVELS {
            return Err(fault_at(fault::FaultKind::TooDeep, first));
        }
        let width = width(reader, depth)?;
        return Ok(Some(width));
    }
    if !is_end(first, end) {
        return Err(refuse(first));
    }
    Ok(None)
}

/// Reads FIXED after a width, if it is there, and the mark after the data type. Returns whether
/// FIXED is there.
fn fixed(reader: &mut Reader<'_>, end: Ending) -> Result<bool, SyntaxFault>
    ensures { Parses result (FixedOr (ending_of end) ∷ [])
        (λ f. said keywords.Fixed f
        ++ mark (ending_mark (ending_of end)) ∷ []) reader.old reader.new }
{
    let first = reader.take()?;
    if is_keyword(first, Keyword::Fixed) {
        expect_end(reader, end)?;
        return Ok(true);
    }
    if !is_end(first, end) {
        return Err(refuse(first));
    }
    Ok(false)
}

/// Reads the rest of a REAL, and the mark after the data type.
fn real<'a>(reader: &mut Reader<'a>, depth: u32, end: Ending) -> Result<DataType<'a>, SyntaxFault>
    requires depth { depth ≤ 64 }
    ensures read { MatchResult result
        (λ k. PassesBehind (keyword keywords.Real) (WidthOr depth (ending_of end) ∷ []) depth
        (ending_of end) (data_type_of k) reader.old reader.new)
        (λ e. StopsIn e (WidthOr depth (ending_of end) ∷ []) [] reader.old) }
    ensures text { IfOk result (λ k. IsDataTypeOf reader.old.text k) }
{
    let Some(width) = width_or_end(reader, depth, end)? else {
        return Ok(builders::real(None));
    };
    expect_end(reader, end)?;
    let boxed = Box::new(reader.alloc(), width)?;
    Ok(builders::real(Some(boxed)))
}

/// Reads the rest of a STRING or BINARY, and the mark after the data type.
fn fixed_width<'a>(
    reader: &mut Reader<'a>,
    depth: u32,
    end: Ending,
) -> Result<Option<Box<FixedWidth<'a>>>, SyntaxFault>
    requires depth { depth ≤ 64 }
    ensures read { ParsesWhere result (FixedWidthOr depth (ending_of end) ∷ [])
        (λ f. words_of_fixed (if_some (λ b. fixed_of b.value) f)
        ++ mark (ending_mark (ending_of end)) ∷ [])
        (λ f. Maybe (λ p. FitsWidth depth_limit depth p.0) (if_some (λ b. fixed_of b.value) f))
        reader.old reader.new }
    ensures text { IfOk result (λ f. Maybe (λ b. IsFixedWidthOf reader.old.text b.value) f) }
{
    let Some(width) = width_or_end(reader, depth, end)? else {
        return Ok(None);
    };
    let is_fixed = fixed(reader, end)?;
    let boxed = Box::new(reader.alloc(), FixedWidth { width, is_fixed })?;
    Ok(Some(boxed))
}

/// Reads a data type whose first token is already taken, a word that begins no aggregate type.
fn simple<'a>(
    reader: &mut Reader<'a>,
    first: Item<'a>,
    found: Keyword,
    depth: u32,
    end: Ending,
) -> Result<DataType<'a>, SyntaxFault>
    requires depth { depth ≤ 64 }
    requires first { (located_of first).lookahead ≡ token (keyword found) }
    requires found { DataTypeParts.is_aggregate found ≡ false }
    ensures read { MatchResult result
        (λ k. PassesDataType (DataTypeThen depth (ending_of end) ∷ []) (located_of first.entry ∷ [])
        [] depth (ending_of end) (data_type_of k) reader.old reader.new)
        (λ e. StopsIn e (DataTypeThen depth (ending_of end) ∷ []) (located_of first.entry ∷ [])
        reader.old) }
    ensures text { IfOk result (λ k. IsDataTypeOf reader.old.text k) }
{
    match found {
        Keyword::Integer => ended(reader, DataType::Integer, end),
        Keyword::Number => ended(reader, DataType::Number, end),
        Keyword::Boolean => ended(reader, DataType::Boolean, end),
        Keyword::Logical => ended(reader, DataType::Logical, end),
        Keyword::Real => real(reader, depth, end),
        Keyword::String => {
            let width = fixed_width(reader, depth, end)?;
            Ok(DataType::String(width))
        }
        Keyword::Binary => {
            let width = fixed_width(reader, depth, end)?;
            Ok(DataType::Binary(width))
        }
        _ => Err(refuse(first)),
    }
}

/// Reads the data type of an aggregate's elements, whose first token is already taken. Returns
/// whether UNIQUE precedes the data type.
#[cycle(data_types)]
fn element_from<'a>(
    reader: &mut Reader<'a>,
    first: Item<'a>,
    depth: u32,
    end: Ending,
) -> Result<(bool, Box<DataType<'a>>), SyntaxFault>
    requires depth { depth ≤ 64 }
    ensures read { MatchResult result
        (λ x. PassesDataType (UniqueOr depth (ending_of end) ∷ []) (located_of first.entry ∷ [])
        (said keywords.Unique x.0) depth (ending_of end) (data_type_of x.1.value) reader.old
        reader.new)
        (λ e. StopsIn e (UniqueOr depth (ending_of end) ∷ []) (located_of first.entry ∷ [])
        reader.old) }
    ensures text { IfOk result (λ x. IsDataTypeOf reader.old.text x.1.value) }
{
    if is_keyword(first, Keyword::Unique) {
        let unique = data_type(reader, depth, end)?;
        let placed = Box::new(reader.alloc(), unique)?;
        return Ok((true, placed));
    }
    let other = data_type_from(reader, first, depth, end)?;
    let boxed = Box::new(reader.alloc(), other)?;
    Ok((false, boxed))
}

/// Reads the data type of an aggregate's elements. Returns whether UNIQUE precedes the data type.
#[cycle(data_types)]
fn element<'a>(
    reader: &mut Reader<'a>,
    depth: u32,
    end: Ending,
) -> Result<(bool, Box<DataType<'a>>), SyntaxFault>
    requires depth { depth ≤ 64 }
    ensures read { MatchResult result
        (λ x. PassesDataType (UniqueOr depth (ending_of end) ∷ []) [] (said keywords.Unique x.0)
        depth (ending_of end) (data_type_of x.1.value) reader.old reader.new)
        (λ e. StopsIn e (UniqueOr depth (ending_of end) ∷ []) [] reader.old) }
    ensures text { IfOk result (λ x. IsDataTypeOf reader.old.text x.1.value) }
{
    let first = reader.take()?;
    element_from(reader, first, depth, end)
}

/// Reads the data type of an array's elements. Returns whether OPTIONAL and whether UNIQUE precede
/// the data type.
#[cycle(data_types)]
fn optional_element<'a>(
    reader: &mut Reader<'a>,
    depth: u32,
    end: Ending,
) -> Result<(bool, bool, Box<DataType<'a>>), SyntaxFault>
    requires depth { depth ≤ 64 }
    ensures read { MatchResult result
        (λ x. PassesDataType (OptionalOr depth (ending_of end) ∷ []) [] (said keywords.Optional x.0
        ++ said keywords.Unique x.1) depth (ending_of end) (data_type_of x.2.value) reader.old
        reader.new)
        (λ e. StopsIn e (OptionalOr depth (ending_of end) ∷ []) [] reader.old) }
    ensures text { IfOk result (λ x. IsDataTypeOf reader.old.text x.2.value) }
{
    let first = reader.take()?;
    if is_keyword(first, Keyword::Optional) {
        let (is_unique, optional) = element(reader, depth, end)?;
        return Ok((true, is_unique, optional));
    }
    let (unique, other) = element_from(reader, first, depth, end)?;
    Ok((false, unique, other))
}

/// Reads an array, after ARRAY.
#[cycle(data_types)]
fn array<'a>(reader: &mut Reader<'a>, depth: u32, end: Ending) -> Result<DataType<'a>, SyntaxFault>
    requires depth { depth < 64 }
    ensures read { MatchResult result
        (λ k. PassesBehind (keyword keywords.Array) (Just marks.OpenBracket ∷ (bounds_symbols depth
        ++ OptionalOr (depth + 1) (ending_of end) ∷ [])) depth (ending_of end) (data_type_of k)
        reader.old reader.new)
        (λ e. StopsIn e (Just marks.OpenBracket ∷ (bounds_symbols depth
        ++ OptionalOr (depth + 1) (ending_of end) ∷ [])) [] reader.old) }
    ensures text { IfOk result (λ k. IsDataTypeOf reader.old.text k) }
{
    reader.expect(Mark::OpenBracket)?;
    let bounds = boxed_indices(reader, depth)?;
    let (is_optional, is_unique, element) = optional_element(reader, depth + 1, end)?;
    Ok(builders::array(is_optional, is_unique, bounds, element))
}

/// Reads a list, after LIST.
#[cycle(data_types)]
fn list<'a>(reader: &mut Reader<'a>, depth: u32, end: Ending) -> Result<DataType<'a>, SyntaxFault>
    requires depth { depth < 64 }
    ensures read { MatchResult result
        (λ k. PassesBehind (keyword keywords.List)
        (BoundsOrOf depth ∷ UniqueOr (depth + 1) (ending_of end) ∷ []) depth (ending_of end)
        (data_type_of k) reader.old reader.new)
        (λ e. StopsIn e (BoundsOrOf depth ∷ UniqueOr (depth + 1) (ending_of end) ∷ []) []
        reader.old) }
    ensures text { IfOk result (λ k. IsDataTypeOf reader.old.text k) }
{
    let bounds = boxed_bounds(reader, depth)?;
    let (is_unique, element) = element(reader, depth + 1, end)?;
    Ok(builders::list(is_unique, bounds, element))
}

/// Reads the rest of a BAG or SET.
#[cycle(data_types)]
fn collection<'a>(
    reader: &mut Reader<'a>,
    depth: u32,
    end: Ending,
) -> Result<(Box<Option<Bounds<'a>>>, Box<DataType<'a>>), SyntaxFault>
    requires depth { depth < 64 }
    ensures read { MatchResult result
        (λ x. Maybe (FitsBounds depth_limit depth) (if_some bounds_of x.0.value)
        × PassesDataType (BoundsOrOf depth ∷ DataTypeThen (depth + 1) (ending_of end) ∷ []) []
        (words_of_some_bounds (if_some bounds_of x.0.value)
        ++ keyword keywords.Of ∷ []) (depth + 1) (ending_of end) (data_type_of x.1.value) reader.old
        reader.new)
        (λ e. StopsIn e (BoundsOrOf depth ∷ DataTypeThen (depth + 1) (ending_of end) ∷ []) []
        reader.old) }
    ensures text { IfOk result (λ x. Maybe (IsBoundsOf reader.old.text) x.0.value
        × IsDataTypeOf reader.old.text x.1.value) }
{
    let bounds = boxed_bounds(reader, depth)?;
    let element = data_type(reader, depth + 1, end)?;
    let boxed = Box::new(reader.alloc(), element)?;
    Ok((bounds, boxed))
}

/// Reads an aggregate type whose first token is already taken.
#[cycle(data_types)]
fn aggregate<'a>(
    reader: &mut Reader<'a>,
    first: Item<'a>,
    found: Keyword,
    depth: u32,
    end: Ending,
) -> Result<DataType<'a>, SyntaxFault>
    requires depth { depth ≤ 64 }
    requires first { (located_of first).lookahead ≡ token (keyword found) }
    requires found { DataTypeParts.is_aggregate found ≡ true }
    ensures read { MatchResult result
        (λ k. PassesDataType (DataTypeThen depth (ending_of end) ∷ []) (located_of first.entry ∷ [])
        [] depth (ending_of end) (data_type_of k) reader.old reader.new)
        (λ e. StopsIn e (DataTypeThen depth (ending_of end) ∷ []) (located_of first.entry ∷ [])
        reader.old) }
    ensures text { IfOk result (λ k. IsDataTypeOf reader.old.text k) }
{
    if depth >= LEVELS {
        return Err(fault_at(fault::FaultKind::TooDeep, first));
    }
    match found {
        Keyword::Array => array(reader, depth, end),
        Keyword::List => list(reader, depth, end),
        Keyword::Bag => {
            let (bounds, element) = collection(reader, depth, end)?;
            Ok(builders::bag(bounds, element))
        }
        _ => {
            let (bounds, element) = collection(reader, depth, end)?;
            Ok(builders::set(bounds, element))
        }
    }
}

/// Reads a data type whose first token is already taken, and the mark after it, with `depth`
/// aggregate types around it.
#[cycle(data_types)]
pub fn data_type_from<'a>(
    reader: &mut Reader<'a>,
    first: Item<'a>,
    depth: u32,
    end: Ending,
) -> Result<DataType<'a>, SyntaxFault>
    requires depth { depth ≤ 64 }
    ensures read { ParsesFrom (located_of first.entry) result
        (DataTypeThen depth (ending_of end) ∷ [])
        (λ k. words_of_data_type (data_type_of k) ++ mark (ending_mark (ending_of end)) ∷ [])
        (λ k. FitsDataType depth_limit depth (data_type_of k)) reader.old reader.new }
    ensures text { IfOk result (λ k. IsDataTypeOf reader.old.text k) }
{
    match first.lexeme {
        Lexeme::Name(word) => ended(reader, DataType::Named(word), end),
        Lexeme::Keyword(found) => {
            if is_aggregate(found) {
                return aggregate(reader, first, found, depth, end);
            }
            simple(reader, first, found, depth, end)
        }
        _ => Err(refuse(first)),
    }
}

/// Reads a data type and the mark after it, with `depth` aggregate types around it.
#[cycle(data_types)]
pub fn data_type<'a>(
    reader: &mut Reader<'a>,
    depth: u32,
    end: Ending,
) -> Result<DataType<'a>, SyntaxFault>
    requires depth { depth ≤ 64 }
    ensures read { ParsesWhere result (DataTypeThen depth (ending_of end) ∷ [])
        (λ k. words_of_data_type (data_type_of k) ++ mark (ending_mark (ending_of end)) ∷ [])
        (λ k. FitsDataType depth_limit depth (data_type_of k)) reader.old reader.new }
    ensures text { IfOk result (λ k. IsDataTypeOf reader.old.text k) }
{
    let first = reader.take()?;
    data_type_from(reader, first, depth, end)
}
