//! Whether a parameter of one token fits an underlying type.

ghost use Rattle.std.specs.Prelude.{◌≡◌, Some};
ghost use Rattle.step_literals.specs.Words.{upper};
ghost use Rattle.express_syntax.specs.Schemas.{Schema};
ghost use Rattle.conformance.specs.ParameterFits.{
  needs,
  other_kind,
  is_integer,
  is_truth,
  is_listed,
  misfit_number,
  misfit_string,
  misfit_binary,
  misfit_element,
};
ghost use Rattle.schema_names.specs.Schemas.{the_schema};
ghost use Rattle.schema_underlying_types.specs.BaseViews.{base_seen, items_at};

use crate::bounds::{bits_have_width, text_has_width};
use conformance::finding::FindingKind;
use schema_underlying_types::base::Base;
use schema_underlying_types::lookup::Bases;
use step_literals::literal::{Bits, Decimal, Text, Word};

/// Returns `kind` if `holds` is false, otherwise `None`.
pub fn needs(holds: bool, kind: FindingKind) -> Option<FindingKind>
    ensures { result ≡ needs holds kind }
{
    if holds { None } else { Some(kind) }
}

/// Returns the finding of a value whose kind isn't that of `base`.
pub fn other_kind(base: Base) -> FindingKind
    ensures { (s : Schema) → result ≡ other_kind (base_seen s base) }
{
    match base {
        Base::Select(_) => FindingKind::NoSelectItem,
        _ => FindingKind::WrongKind,
    }
}

/// Whether `number` is spelled as an integer, without a point (ISO 10303-21, 6.4.1).
fn is_integer(number: &Decimal<'_>) -> bool
    ensures { result ≡ is_integer number.now.text.now }
{
    !number.spelling().contains(&b'.')
}

/// Returns the finding of a number where `base` is required, if any.
pub fn misfit_number(base: Base, number: &Decimal<'_>) -> Option<FindingKind>
    ensures { (s : Schema) → result ≡ misfit_number (base_seen s base) number.now.text.now }
{
    match base {
        Base::Integer => needs(is_integer(number), FindingKind::WrongKind),
        Base::Number => None,
        _ => Some(other_kind(base)),
    }
}

/// Returns the finding of a string where `base` is required, if any.
pub fn misfit_string(base: Base, text: &Text<'_>) -> Option<FindingKind>
    ensures { (s : Schema) → result ≡ misfit_string (base_seen s base) text.now.text.now }
{
    match base {
        Base::String(None) => None,
        Base::String(Some(width)) => needs(text_has_width(width, text), FindingKind::TooWide),
        _ => Some(other_kind(base)),
    }
}

/// Returns the finding of a binary where `base` is required, if any.
pub fn misfit_binary(base: Base, bits: &Bits<'_>) -> Option<FindingKind>
    ensures { (s : Schema) → result ≡ misfit_binary (base_seen s base) bits.now.text.now }
{
    match base {
        Base::Binary(None) => None,
        Base::Binary(Some(width)) => needs(bits_have_width(width, bits), FindingKind::TooWide),
        _ => Some(other_kind(base)),
    }
}

/// Whether `word` is an element of BOOLEAN or, if `with_unknown`, of LOGICAL (ISO 10303-21, 11.1).
fn is_truth(with_unknown: bool, word: Word<'_>) -> bool
    ensures { result ≡ is_truth with_unknown (upper word.entry.text.now) }
{
    let text = word.spelling();
    text.eq_ignore_ascii_case(b"T")
        || text.eq_ignore_ascii_case(b"F")
        || (with_unknown && text.eq_ignore_ascii_case(b"U"))
}

/// Whether the declaration numbered `number` is an enumeration with the item `word`.
fn has_item(bases: &Bases<'_, '_, '_>, number: u32, word: Word<'_>) -> bool
    ensures { result ≡ is_listed (upper word.entry.text.now)
        (items_at (the_schema bases.now.names.now) number) }
{
    bases.names.has_item(number, word)
}

/// Returns the finding of the enumeration value `word` where `base` is required, if any.
pub fn misfit_element(bases: &Bases<'_, '_, '_>, base: Base, word: Word<'_>) -> Option<FindingKind>
    ensures { result ≡ misfit_element (base_seen (the_schema bases.now.names.now) base)
        (upper word.entry.text.now) }
{
    match base {
        Base::Boolean => needs(is_truth(false, word), FindingKind::UnknownElement),
        Base::Logical => needs(is_truth(true, word), FindingKind::UnknownElement),
        Base::Enumeration(number) => {
            needs(has_item(bases, number, word), FindingKind::UnknownElement)
        }
        _ => Some(other_kind(base)),
    }
}
