//! The names in data types.
//!
//! Each `check_` function fails with the first name that doesn't refer to what its context
//! requires.

ghost use Rattle.express_syntax.specs.Views.{data_type_of, underlying_of, supertype_of};
ghost use Rattle.schema_semantics.specs.Faults.{
  demands_of_data_type,
  demands_of_underlying,
  demands_of_supertype,
};
ghost use Rattle.schema_names.specs.Schemas.{the_schema};
ghost use Rattle.schema_faults.specs.steps.Checks.{Checks};

use crate::names::{check_entities, check_type, check_types};
use express_syntax::tree::{DataType, Supertype, Underlying};
use schema_names::names::Names;
use step_literals::literal::Word;

/// Checks the name in a data type, if any, through all aggregates (ISO 10303-11, 8).
pub(crate) fn check_data_type<'a>(
    names: &Names<'a, '_>,
    data_type: &DataType<'a>,
) -> Result<(), Word<'a>>
    ensures { Checks (the_schema names.now)
        (demands_of_data_type (data_type_of data_type.now)) result }
{
    match data_type {
        DataType::Named(word) => check_type(names, *word),
        DataType::Array { element, .. } => check_data_type(names, element),
        DataType::List { element, .. } => check_data_type(names, element),
        DataType::Bag { element, .. } => check_data_type(names, element),
        DataType::Set { element, .. } => check_data_type(names, element),
        DataType::Integer | DataType::Number | DataType::Boolean | DataType::Logical => Ok(()),
        DataType::Real(_) | DataType::String(_) | DataType::Binary(_) => Ok(()),
    }
}

/// Checks the names in an underlying type (ISO 10303-11, 8.3 and 8.4).
pub(crate) fn check_underlying<'a>(
    names: &Names<'a, '_>,
    underlying: &Underlying<'a>,
) -> Result<(), Word<'a>>
    ensures { Checks (the_schema names.now)
        (demands_of_underlying (underlying_of underlying.now)) result }
{
    match underlying {
        Underlying::Enumeration(_) => Ok(()),
        Underlying::Select(items) => check_types(names, items),
        Underlying::DataType(data_type) => check_data_type(names, data_type),
    }
}

/// Checks the operands of ONEOF (ISO 10303-11, 9.2.5).
pub(crate) fn check_supertype<'a>(
    names: &Names<'a, '_>,
    supertype: &Supertype<'a>,
) -> Result<(), Word<'a>>
    ensures { Checks (the_schema names.now)
        (demands_of_supertype (supertype_of supertype.now)) result }
{
    match supertype {
        Supertype::OfOneOf(operands) => check_entities(names, operands),
        Supertype::Unsaid | Supertype::Bare => Ok(()),
        Supertype::OfOne(_) | Supertype::OfOther(_) => Ok(()),
    }
}
