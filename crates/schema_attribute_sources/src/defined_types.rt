//! The types in terms of which a defined type is defined (ISO 10303-11, 8.3.2).

ghost use Rattle.std.specs.Prelude.{◌≡◌, ◌<◌, ◌↔◌, IsTrue, length};
ghost use Rattle.std.specs.Option.{option_map};
ghost use Rattle.express_syntax.specs.ExpressionViews.{capitals};
ghost use Rattle.express_syntax.specs.Schemas.{named};
ghost use Rattle.express_syntax.specs.Views.{
  data_type_of,
  underlying_of,
  if_some,
  declaration_of as declaration_seen,
};
ghost use Rattle.schema_semantics.specs.Faults.{IsResolved};
ghost use Rattle.schema_semantics.specs.Names.{Name, IsOrLeads, Renames};
ghost use Rattle.schema_names.specs.Numbers.{HasNumber};
ghost use Rattle.schema_names.specs.Schemas.{the_schema};
ghost use Rattle.schema_attribute_sources.specs.steps.Defined.{name_behind, name_of, renamed_in, renamed_at};

use express_syntax::tree::{DataType, Declaration, Underlying};
use schema_names::names::Names;
use step_literals::literal::Word;

/// Returns the name of a named data type, otherwise `None`.
fn name_of<'a>(data_type: &DataType<'a>) -> Option<Word<'a>>
    ensures { if_some capitals result ≡ name_of (data_type_of data_type.now) }
{
    match data_type {
        DataType::Named(word) => Some(*word),
        DataType::Integer | DataType::Number | DataType::Boolean | DataType::Logical => None,
        DataType::Real(_) | DataType::String(_) | DataType::Binary(_) => None,
        DataType::Array { .. } | DataType::List { .. } => None,
        DataType::Bag { .. } | DataType::Set { .. } => None,
    }
}

/// Returns the name after the `=` of a defined type, if any.
fn name_behind<'a>(underlying: &Underlying<'a>) -> Option<Word<'a>>
    ensures { if_some capitals result ≡ name_behind (underlying_of underlying.now) }
{
    match underlying {
        Underlying::DataType(data_type) => name_of(data_type),
        _ => None,
    }
}

/// Returns the name after the `=` of a defined type, if any, and `None` for other declarations.
fn renamed_in<'a>(declaration: &Declaration<'a>) -> Option<Word<'a>>
    ensures { if_some capitals result ≡ renamed_in (declaration_seen declaration.now) }
{
    match declaration {
        Declaration::Type(declared) => name_behind(&declared.underlying),
        _ => None,
    }
}

/// Returns the number of the type whose name is after the `=` of the defined type `number`, if any
/// (ISO 10303-11, 8.3.2).
pub fn renamed(names: &Names<'_, '_>, number: u32) -> Option<u32>
    requires { number < length names.now.schema.now.declarations.items }
    ensures { result ≡ renamed_at (the_schema names.now) number }
{
    match renamed_in(names.declaration(number)) {
        Some(name) => names.find(name),
        None => None,
    }
}

/// Whether `other` is `number`, or one of the types in terms of which `number` is defined: the name
/// after its `=`, or after that of such a type (ISO 10303-11, 8.3.2).
///
/// Takes time proportional to the count of these types.
pub fn is_defined_by(names: &Names<'_, '_>, number: u32, other: u32) -> bool
    requires resolved { IsResolved (the_schema names.now) }
    requires within { number < length names.now.schema.now.declarations.items }
    ensures { (m n : Name) → HasNumber (the_schema names.now) m number
        → HasNumber (the_schema names.now) n other
        → IsTrue result ↔ IsOrLeads (Renames (the_schema names.now)) (named m) (named n) }
{
    let mut at = number;
    for _step in 0..names.len() {
        if at == other {
            return true;
        }
        let Some(next) = renamed(names, at) else {
            return false;
        };
        at = next;
    }
    false
}
