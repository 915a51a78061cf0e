//! Strings that name types.

ghost use Rattle.std.specs.Prelude.{
  ◌≡◌,
  ◌↔◌,
  ◌<◌,
  ◌∷◌,
  ◌++◌,
  ℕ,
  List,
  map,
  MatchOption,
  IfOk,
  IsTrue,
};
ghost use Rattle.step_literals.specs.Words.{upper};
ghost use Rattle.step_literals.specs.declared.literal.items.Item.TheVariants.{Code};
ghost use Rattle.express_syntax.specs.Trees.{literal as of_literal};
ghost use Rattle.express_syntax.specs.ExpressionViews.{capitals, literal_of, tree_of};
ghost use Rattle.schema_semantics.specs.Names.{Name};
ghost use Rattle.schema_semantics.specs.Reasons.{IsString};
ghost use Rattle.schema_names.specs.Numbers.{number_of, HasNumber};
ghost use Rattle.schema_names.specs.Schemas.{the_schema};
ghost use Rattle.schema_expression_types.specs.steps.Said.{IsSaid};
ghost use Rattle.schema_expression_types.specs.steps.Characters.{AreBytes, AreCharacters, SaysIn};

use express_syntax::expression::{Expr, Literal};
use schema_names::names::Names;
use std::alloc::{AllocError, Global};
use step_literals::literal::{Item, Word};

/// Returns the characters of a plain or encoded string, or `None` for other literals.
fn characters(alloc: Global, literal: &Literal<'_>) -> Result<Option<Vec<Item>>, AllocError>
    ensures { IfOk result (λ read. MatchOption read
        ((cs : List ℕ) → IsString (literal_of literal.now) cs → ⊥)
        (λ items. AreCharacters (literal_of literal.now) items.items)) }
{
    match literal {
        Literal::String(string) => Ok(Some(string.characters().collect(alloc)?)),
        Literal::Encoded(string) => Ok(Some(string.characters().collect(alloc)?)),
        _ => Ok(None),
    }
}

/// Returns the code of a character, if it fits into 8 bits.
fn byte_of(item: Item) -> Option<u8>
    ensures { MatchOption result ((x : ℕ) → item ≡ Code x → x < 256 → ⊥)
        (λ byte. item ≡ Code byte) }
{
    match item {
        Item::Code(code) => u8::try_from(code).ok(),
        _ => None,
    }
}

/// Returns the codes of the characters, if each fits into 8 bits.
fn bytes_of(alloc: Global, items: &[Item]) -> Result<Option<Vec<u8>>, AllocError>
    ensures { IfOk result (λ read. MatchOption read
        ((cs : List ℕ) → AreBytes cs → items.now ≡ map Code cs → ⊥)
        (λ bytes. items.now ≡ map Code bytes.items)) }
{
    let mut bytes = Vec::new(alloc);
    for item in items {
        let Some(byte) = byte_of(*item) else {
            return Ok(None);
        };
        bytes.push(byte)?;
    }
    Ok(Some(bytes))
}

/// Whether `text` has no lowercase letter.
fn is_in_capitals(text: &[u8]) -> bool
    ensures { IsTrue result ↔ (upper text.now ≡ text.now) }
{
    !text.iter().any(|byte| byte.is_ascii_lowercase())
}

/// Returns the rest of `text` after the name of the schema and a dot, if it begins with them.
/// `text` is in capitals.
fn behind_schema<'t>(schema: Word<'_>, text: &'t [u8]) -> Option<&'t [u8]>
    requires { upper text.now ≡ text.now }
    ensures { MatchOption result ((n : List ℕ) → text.now ≡ capitals schema.entry ++ 46 ∷ n → ⊥)
        (λ name. text.now ≡ capitals schema.entry ++ 46 ∷ name.now) }
{
    let (front, rest) = text.split_at_checked(schema.spelling().len())?;
    if !front.eq_ignore_ascii_case(schema.spelling()) {
        return None;
    }
    rest.strip_prefix(b".")
}

/// Returns the number of the declaration of a name in capitals, if any.
fn find(names: &Names<'_, '_>, name: &[u8]) -> Option<u32>
    requires { upper name.now ≡ name.now }
    ensures { result ≡ number_of (the_schema names.now) name.now }
{
    match Word::read(name) {
        Ok(word) => names.find(word),
        Err(_) => None,
    }
}

/// Returns the number of the type or entity whose name follows the schema's name and a dot in
/// `text`, all in capitals.
fn said_in(names: &Names<'_, '_>, text: &[u8]) -> Option<u32>
    ensures { SaysIn (the_schema names.now) text.now result }
{
    if !is_in_capitals(text) {
        return None;
    }
    find(names, behind_schema(names.schema.name, text)?)
}

/// Returns the number of the type or entity that a literal names, if any.
fn said_literal(
    alloc: Global,
    names: &Names<'_, '_>,
    literal: &Literal<'_>,
) -> Result<Option<u32>, AllocError>
    ensures { IfOk result (IsSaid (the_schema names.now) (of_literal (literal_of literal.now))) }
{
    let Some(items) = characters(alloc, literal)? else {
        return Ok(None);
    };
    let Some(text) = bytes_of(alloc, &items)? else {
        return Ok(None);
    };
    Ok(said_in(names, &text))
}

/// Returns the number of the type or entity that an expression names, if any (ISO 10303-11, 15.25).
///
/// Such an expression is a string, plain or encoded, in parentheses or not: the schema's name, a
/// dot and the name of the type or entity, all in capitals. Takes time proportional to the length
/// of the string.
pub fn said_type(
    alloc: Global,
    names: &Names<'_, '_>,
    expression: &Expr<'_>,
) -> Result<Option<u32>, AllocError>
    ensures { IfOk result (IsSaid (the_schema names.now) (tree_of expression.now)) }
{
    match expression {
        Expr::Literal(literal) => said_literal(alloc, names, literal),
        Expr::Parenthesized(inner) => said_type(alloc, names, inner),
        _ => Ok(None),
    }
}
