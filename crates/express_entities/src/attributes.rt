//! Attributes and uniqueness rules (ISO 10303-11, 9.2.1 and 9.2.2.1).

ghost use Rattle.std.specs.Prelude.{◌≡◌, false, [], ◌∷◌, ◌++◌, List, map, IfOk, MatchResult};
ghost use Rattle.express_lexer.specs.declared.marks.Mark.TheVariants as marks;
ghost use Rattle.express_syntax.specs.declared.keyword.Keyword.TheVariants as keywords;
ghost use Rattle.express_syntax.specs.Words;
ghost use Rattle.express_syntax.specs.Words.{keyword, name, mark};
ghost use Rattle.express_syntax.specs.ExpressionViews.{capitals};
ghost use Rattle.express_syntax.specs.Grammar.{depth_limit};
ghost use Rattle.express_token_runs.specs.steps.Items.{located_of};
ghost use Rattle.express_syntax.specs.Views.{
  if_some,
  data_type_of,
  attribute_of,
  explicit_of,
  derived_of,
  collection_of,
  inverse_of,
  unique_of,
};
ghost use Rattle.express_syntax.specs.WrittenSchemas.{
  said,
  with_commas,
  words_of_data_type,
  words_of_attribute,
  words_of_explicit,
  words_of_derived,
  words_of_collection,
  words_of_holder,
  words_of_inverse,
  words_of_unique,
};
ghost use Rattle.express_syntax.specs.Profile.{
  IsFilled,
  FitsDataType,
  FitsExplicit,
  FitsDerived,
  FitsCollection,
  FitsInverse,
  FitsUnique,
};
ghost use Rattle.express_syntax.specs.Sources.{
  IsDataTypeOf,
  IsExplicitOf,
  IsDerivedOf,
  IsCollectionOf,
  IsInverseOf,
};
ghost use Rattle.express_syntax.specs.steps.Predict.{
  Symbol,
  derived,
  inverses,
  AnAttribute,
  Explicits,
  OptionalDataType,
  Inverted,
  Holder,
  Uniques,
  UniqueNamed,
  redeclared_symbols,
  behind_attribute,
  is_mark,
};
ghost use Rattle.express_syntax.specs.steps.Steps.{Passes, Parses, ParsesWhere, ParsesBehind, StopsIn};
ghost use Rattle.express_entities.specs.steps.Lists.{IsListed, ListsOn, UniqueOn};

use express_lexer::marks::Mark;
use express_parts::bounds::some_bounds;
use express_parts::data_types::{Ending, data_type, data_type_from};
use express_parts::rules::body;
use express_syntax::fault::SyntaxFault;
use express_syntax::keyword::Keyword;
use express_syntax::lexeme::Lexeme;
use express_syntax::tree::{
    Attribute, AttributeList, Collection, DataType, Derived, Explicit, Inverse, Unique,
};
use express_token_runs::reader::Reader;
use express_token_runs::tokens::{Item, is_keyword, is_mark, refuse};
use step_literals::literal::Word;

/// Reads a redeclared attribute, after SELF.
pub fn redeclared<'a>(reader: &mut Reader<'a>) -> Result<Attribute<'a>, SyntaxFault>
    ensures { MatchResult result
        (λ a. (ws : List Words.Word)
        × (words_of_attribute (attribute_of a) ≡ keyword keywords.SelfWord ∷ ws)
        × Passes redeclared_symbols [] [] ws reader.old reader.new)
        (λ e. StopsIn e redeclared_symbols [] reader.old) }
{
    reader.expect(Mark::Backslash)?;
    let entity = reader.expect_name()?;
    reader.expect(Mark::Dot)?;
    let name = reader.expect_name()?;
    Ok(Attribute::Redeclared(entity, name))
}

/// Reads an attribute.
pub fn attribute<'a>(reader: &mut Reader<'a>) -> Result<Attribute<'a>, SyntaxFault>
    ensures { Parses result (AnAttribute ∷ [])
        (λ a. words_of_attribute (attribute_of a)) reader.old reader.new }
{
    let item = reader.take()?;
    if is_keyword(item, Keyword::SelfWord) {
        return redeclared(reader);
    }
    match item.lexeme {
        Lexeme::Name(name) => Ok(Attribute::Unqualified(name)),
        _ => Err(refuse(item)),
    }
}

/// Reads the attributes after `first`, each after a comma. `next` is the token after `first`.
/// Returns all attributes, `first` included, and the token after the last.
fn attributes<'a>(
    reader: &mut Reader<'a>,
    first: Attribute<'a>,
    next: Item<'a>,
) -> Result<(Vec<Attribute<'a>>, Item<'a>), SyntaxFault>
    ensures { (y : Symbol) → IsListed y → MatchResult result
        (λ p. ListsOn y (attribute_of first.entry) (located_of next.entry) reader.old
        (map attribute_of p.0.items) (located_of p.1) reader.new
        × (is_mark marks.Comma (located_of p.1).lookahead ≡ false))
        (λ e. StopsIn e (y ∷ []) (located_of next.entry ∷ []) reader.old) }
{
    let mut list = Vec::new(reader.alloc());
    list.push(first)?;
    let mut item = next;
    loop {
        if !is_mark(item, Mark::Comma) {
            list.shrink_to_fit();
            return Ok((list, item));
        }
        let other = attribute(reader)?;
        list.push(other)?;
        item = reader.take()?;
    }
}

/// Reads a data type, and returns whether OPTIONAL precedes it.
fn optional_data_type<'a>(reader: &mut Reader<'a>) -> Result<(bool, DataType<'a>), SyntaxFault>
    ensures read { ParsesWhere result (OptionalDataType ∷ [])
        (λ p. said keywords.Optional p.0 ++ words_of_data_type (data_type_of p.1)
        ++ mark marks.Semicolon ∷ [])
        (λ p. FitsDataType depth_limit 0 (data_type_of p.1)) reader.old reader.new }
    ensures text { IfOk result (λ p. IsDataTypeOf reader.old.text p.1) }
{
    let item = reader.take()?;
    if is_keyword(item, Keyword::Optional) {
        let data_type = data_type(reader, 0, Ending::Semicolon)?;
        return Ok((true, data_type));
    }
    let data_type = data_type_from(reader, item, 0, Ending::Semicolon)?;
    Ok((false, data_type))
}

/// Reads explicit attributes, after the first of them.
pub fn explicit<'a>(
    reader: &mut Reader<'a>,
    first: Attribute<'a>,
) -> Result<Explicit<'a>, SyntaxFault>
    ensures read { ParsesBehind (words_of_attribute (attribute_of first.entry)) result
        (Explicits ∷ []) (λ x. words_of_explicit (explicit_of x))
        (λ x. FitsExplicit depth_limit (explicit_of x)) reader.old reader.new }
    ensures text { IfOk result (λ x. IsExplicitOf reader.old.text x) }
{
    let next = reader.take()?;
    let (attributes, end) = attributes(reader, first, next)?;
    if !is_mark(end, Mark::Colon) {
        return Err(refuse(end));
    }
    let (is_optional, data_type) = optional_data_type(reader)?;
    Ok(Explicit {
        attributes: AttributeList::of(attributes),
        is_optional,
        data_type,
    })
}

/// Reads a derived attribute, after its name.
pub fn derived<'a>(
    reader: &mut Reader<'a>,
    attribute: Attribute<'a>,
) -> Result<Derived<'a>, SyntaxFault>
    ensures read { ParsesBehind (words_of_attribute (attribute_of attribute.entry)) result
        (behind_attribute derived)
        (λ x. words_of_derived (derived_of x))
        (λ x. FitsDerived depth_limit (derived_of x)) reader.old reader.new }
    ensures text { IfOk result (λ x. IsDerivedOf reader.old.text x) }
{
    reader.expect(Mark::Colon)?;
    let data_type = data_type(reader, 0, Ending::Assignment)?;
    let body = body(reader)?;
    Ok(Derived {
        attribute,
        data_type,
        body,
    })
}

/// Reads the collection of an inverse attribute, and the entity.
fn collection<'a>(reader: &mut Reader<'a>) -> Result<(Collection<'a>, Word<'a>), SyntaxFault>
    ensures read { ParsesWhere result (Inverted ∷ [])
        (λ p. words_of_collection (collection_of p.0) ++ name (capitals p.1) ∷ [])
        (λ p. FitsCollection depth_limit (collection_of p.0)) reader.old reader.new }
    ensures text { IfOk result (λ p. IsCollectionOf reader.old.text p.0) }
{
    let item = reader.take()?;
    if is_keyword(item, Keyword::Set) {
        let bounds = some_bounds(reader, 0)?;
        let entity = reader.expect_name()?;
        return Ok((Collection::Set(bounds), entity));
    }
    if is_keyword(item, Keyword::Bag) {
        let bounds = some_bounds(reader, 0)?;
        let entity = reader.expect_name()?;
        return Ok((Collection::Bag(bounds), entity));
    }
    match item.lexeme {
        Lexeme::Name(entity) => Ok((Collection::One, entity)),
        _ => Err(refuse(item)),
    }
}

/// Reads the rest of an inverse attribute after the first name that follows FOR. That name is the
/// entity that declares the inverted attribute, or the inverted attribute itself.
fn holder<'a>(
    reader: &mut Reader<'a>,
    first: Word<'a>,
) -> Result<(Option<Word<'a>>, Word<'a>), SyntaxFault>
    ensures { MatchResult result
        (λ p. (ws : List Words.Word)
        × (words_of_holder (if_some capitals p.0)
        ++ name (capitals p.1) ∷ mark marks.Semicolon ∷ [] ≡ name (capitals first.entry) ∷ ws)
        × Passes (Holder ∷ []) [] [] ws reader.old reader.new)
        (λ e. StopsIn e (Holder ∷ []) [] reader.old) }
{
    let item = reader.take()?;
    if is_mark(item, Mark::Semicolon) {
        return Ok((None, first));
    }
    if !is_mark(item, Mark::Dot) {
        return Err(refuse(item));
    }
    let inverted = reader.expect_name()?;
    reader.expect(Mark::Semicolon)?;
    Ok((Some(first), inverted))
}

/// Reads an inverse attribute, after its name.
pub fn inverse<'a>(
    reader: &mut Reader<'a>,
    attribute: Attribute<'a>,
) -> Result<Inverse<'a>, SyntaxFault>
    ensures read { ParsesBehind (words_of_attribute (attribute_of attribute.entry)) result
        (behind_attribute inverses)
        (λ x. words_of_inverse (inverse_of x))
        (λ x. FitsInverse depth_limit (inverse_of x)) reader.old reader.new }
    ensures text { IfOk result (λ x. IsInverseOf reader.old.text x) }
{
    reader.expect(Mark::Colon)?;
    let (collection, entity) = collection(reader)?;
    reader.expect_keyword(Keyword::For)?;
    let first = reader.expect_name()?;
    let (holder, inverted) = holder(reader, first)?;
    Ok(Inverse {
        attribute,
        collection,
        entity,
        holder,
        inverted,
    })
}

/// Reads the attributes of a uniqueness rule after the first, and the semicolon. `next` is the
/// token after the first.
fn attributes_of_unique<'a>(
    reader: &mut Reader<'a>,
    first: Attribute<'a>,
    next: Item<'a>,
) -> Result<Vec<Attribute<'a>>, SyntaxFault>
    ensures { MatchResult result
        (λ l. UniqueOn (attribute_of first.entry) (located_of next.entry) reader.old
        (map attribute_of l.items) reader.new)
        (λ e. StopsIn e (Uniques ∷ []) (located_of next.entry ∷ []) reader.old) }
{
    let (attributes, end) = attributes(reader, first, next)?;
    if !is_mark(end, Mark::Semicolon) {
        return Err(refuse(end));
    }
    Ok(attributes)
}

/// Reads the attributes of a uniqueness rule after the first, and the semicolon.
fn unique_attributes<'a>(
    reader: &mut Reader<'a>,
    first: Attribute<'a>,
) -> Result<Vec<Attribute<'a>>, SyntaxFault>
    ensures { ParsesBehind (words_of_attribute (attribute_of first.entry)) result (Uniques ∷ [])
        (λ l. with_commas (map words_of_attribute (map attribute_of l.items))
        ++ mark marks.Semicolon ∷ [])
        (λ l. IsFilled (map attribute_of l.items)) reader.old reader.new }
{
    let next = reader.take()?;
    attributes_of_unique(reader, first, next)
}

/// Reads a uniqueness rule without a label, after its first attribute.
pub fn unique<'a>(reader: &mut Reader<'a>, first: Attribute<'a>) -> Result<Unique<'a>, SyntaxFault>
    ensures { ParsesBehind (words_of_attribute (attribute_of first.entry)) result (Uniques ∷ [])
        (λ x. words_of_unique (unique_of x))
        (λ x. FitsUnique (unique_of x)) reader.old reader.new }
{
    let attributes = unique_attributes(reader, first)?;
    Ok(Unique {
        label: None,
        attributes,
    })
}

/// Reads a uniqueness rule after the name that begins it: its label, or its first attribute.
pub fn unique_named<'a>(reader: &mut Reader<'a>, first: Word<'a>) -> Result<Unique<'a>, SyntaxFault>
    ensures { ParsesBehind (name (capitals first.entry) ∷ []) result (UniqueNamed ∷ [])
        (λ x. words_of_unique (unique_of x))
        (λ x. FitsUnique (unique_of x)) reader.old reader.new }
{
    let next = reader.take()?;
    if is_mark(next, Mark::Colon) {
        let attribute = attribute(reader)?;
        let attributes = unique_attributes(reader, attribute)?;
        return Ok(Unique {
            label: Some(first),
            attributes,
        });
    }
    let attributes = attributes_of_unique(reader, Attribute::Unqualified(first), next)?;
    Ok(Unique {
        label: None,
        attributes,
    })
}
