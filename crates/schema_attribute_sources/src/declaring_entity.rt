//! The entity that declares an attribute, among some entities (ISO 10303-11, 9.2.1).

ghost use Rattle.std.specs.Prelude.{◌≡◌};
ghost use Rattle.std.specs.List.{find, list_any};
ghost use Rattle.express_syntax.specs.ExpressionViews.{capitals};
ghost use Rattle.schema_names.specs.Schemas.{the_schema};
ghost use Rattle.schema_explicit_attributes.specs.declared.own_attributes.Meant.TheVariants.{All};
ghost use Rattle.schema_explicit_attributes.specs.steps.Owned.{declares_at};
ghost use Rattle.schema_attribute_sources.specs.steps.Declaring.{declares_beside, AreDeclaring};

use schema_explicit_attributes::own_attributes::{Meant, declares_at};
use schema_names::names::Names;
use step_literals::literal::Word;

/// The entities that declare an attribute of a name, among some entities.
#[derive(Clone, Copy)]
pub(crate) enum Declarer {
    Nobody,
    /// Only the entity with this number.
    One(u32),
    Several,
}

/// Returns the first of the entities that declares an attribute `name`, if any.
pub(crate) fn first_declaring(names: &Names<'_, '_>, numbers: &[u32], name: Word<'_>) -> Option<u32>
    ensures { result ≡ find (declares_at (the_schema names.now) All (capitals name.entry))
        numbers.now }
{
    for number in numbers {
        if declares_at(names, *number, Meant::All, name) {
            return Some(*number);
        }
    }
    None
}

/// Whether `number` isn't `first` and declares an attribute `name`.
fn declares_beside(names: &Names<'_, '_>, first: u32, number: u32, name: Word<'_>) -> bool
    ensures { result ≡ declares_beside (the_schema names.now) (capitals name.entry) first number }
{
    if number == first {
        return false;
    }
    declares_at(names, number, Meant::All, name)
}

/// Whether one of `numbers` isn't `first` and declares an attribute `name`.
fn another_declares(names: &Names<'_, '_>, first: u32, numbers: &[u32], name: Word<'_>) -> bool
    ensures { result
        ≡ list_any (declares_beside (the_schema names.now) (capitals name.entry) first)
        numbers.now }
{
    for number in numbers {
        if declares_beside(names, first, *number, name) {
            return true;
        }
    }
    false
}

/// Returns which of the entities declare an attribute `name`. An entity may occur repeatedly.
pub(crate) fn declaring(names: &Names<'_, '_>, numbers: &[u32], name: Word<'_>) -> Declarer
    ensures { AreDeclaring (declares_at (the_schema names.now) All (capitals name.entry))
        numbers.now result }
{
    let Some(first) = first_declaring(names, numbers, name) else {
        return Declarer::Nobody;
    };
    if another_declares(names, first, numbers, name) {
        return Declarer::Several;
    }
    Declarer::One(first)
}
