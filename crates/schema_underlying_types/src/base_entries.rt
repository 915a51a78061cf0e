//! The requirements of a data type or a declaration, at the outermost level.

ghost use Rattle.std.specs.Prelude.{◌≡◌, ◌+◌, ◌<◌, ◌^◌, IfOk};
ghost use Rattle.express_syntax.specs.Views.{
  bounds_of,
  data_type_of,
  underlying_of,
  declaration_of,
  if_some,
};
ghost use Rattle.schema_names.specs.Schemas.{the_schema};
ghost use Rattle.schema_underlying_types.specs.BaseEntries.{
  entry,
  entry_of,
  named_in,
  is_known,
  if_known,
  indexed,
  bounded,
  base_in,
  base_behind,
  base_at,
  first_of,
};

use crate::base::{Aggregate, Base, Collection};
use crate::measures::{limit_of, lower_of, upper_of, value_of};
use express_syntax::tree::{Bounds, DataType, Declaration, Underlying};
use schema_names::names::Names;
use std::alloc::AllocError;

/// Returns the base of the declaration `number`, or INTEGER if there is none.
pub(crate) fn entry(declared: &[Base], number: u32) -> Base
    ensures { result ≡ entry declared.now number }
{
    match declared.get(number as usize) {
        Some(base) => *base,
        None => Base::Integer,
    }
}

/// Returns the base of the declaration `number`, or INTEGER without a number.
pub(crate) fn entry_of(declared: &[Base], number: Option<u32>) -> Base
    ensures { result ≡ entry_of declared.now number }
{
    match number {
        Some(number) => entry(declared, number),
        None => Base::Integer,
    }
}

/// Returns the base of the declaration that a data type names, or INTEGER if the type isn't a name.
fn named_in<'a>(names: &Names<'a, '_>, declared: &[Base], data_type: &DataType<'a>) -> Base
    ensures { result ≡ named_in (the_schema names.now) declared.now (data_type_of data_type.now) }
{
    match data_type {
        DataType::Named(name) => entry_of(declared, names.find(*name)),
        DataType::Integer | DataType::Number | DataType::Boolean | DataType::Logical => {
            Base::Integer
        }
        DataType::Real(_) | DataType::String(_) | DataType::Binary(_) => Base::Integer,
        DataType::Array { .. } | DataType::List { .. } => Base::Integer,
        DataType::Bag { .. } | DataType::Set { .. } => Base::Integer,
    }
}

/// Whether the name in `data_type`, if any, is that of a type or an entity.
pub(crate) fn is_known<'a>(names: &Names<'a, '_>, data_type: &DataType<'a>) -> bool
    ensures { result ≡ is_known (the_schema names.now) (data_type_of data_type.now) }
{
    match data_type {
        DataType::Named(name) => names.find(*name).is_some(),
        DataType::Array { element, .. } => is_known(names, element),
        DataType::List { element, .. } => is_known(names, element),
        DataType::Bag { element, .. } => is_known(names, element),
        DataType::Set { element, .. } => is_known(names, element),
        _ => true,
    }
}

/// Returns `aggregate` if its element type is known, otherwise INTEGER.
pub(crate) fn if_known(is_known: bool, aggregate: Aggregate) -> Base
    ensures { result ≡ if_known is_known aggregate }
{
    if is_known {
        Base::Aggregate(aggregate)
    } else {
        Base::Integer
    }
}

/// Returns an ARRAY.
fn indexed(bounds: &Bounds<'_>, is_optional: bool, is_unique: bool, element: u32) -> Aggregate
    ensures { result ≡ indexed (bounds_of bounds.now) is_optional is_unique element }
{
    Aggregate {
        collection: Collection::Array,
        lower: value_of(&bounds.lower),
        upper: value_of(&bounds.upper),
        is_optional,
        is_unique,
        element,
    }
}

/// Returns an aggregate whose elements must not be omitted.
pub(crate) fn bounded(
    collection: Collection,
    bounds: &Option<Bounds<'_>>,
    is_unique: bool,
    element: u32,
) -> Aggregate
    ensures { result ≡ bounded collection (if_some bounds_of bounds.now) is_unique element }
{
    Aggregate {
        collection,
        lower: lower_of(bounds),
        upper: upper_of(bounds),
        is_optional: false,
        is_unique,
        element,
    }
}

/// Returns the base of a data type. `named` is the base of its name, and `element` the number of
/// the data type of its elements.
fn base_in(is_known: bool, named: Base, element: u32, data_type: &DataType<'_>) -> Base
    ensures { result ≡ base_in is_known named element (data_type_of data_type.now) }
{
    match data_type {
        DataType::Integer => Base::Integer,
        DataType::Number | DataType::Real(_) => Base::Number,
        DataType::Boolean => Base::Boolean,
        DataType::Logical => Base::Logical,
        DataType::String(width) => Base::String(limit_of(width)),
        DataType::Binary(width) => Base::Binary(limit_of(width)),
        DataType::Named(_) => named,
        DataType::Array {
            bounds,
            is_optional,
            is_unique,
            ..
        } => if_known(is_known, indexed(bounds, *is_optional, *is_unique, element)),
        DataType::List {
            bounds,
            is_unique,
            ..
        } => if_known(
            is_known,
            bounded(Collection::List, bounds, *is_unique, element),
        ),
        DataType::Bag { bounds, .. } => {
            if_known(is_known, bounded(Collection::Bag, bounds, false, element))
        }
        DataType::Set { bounds, .. } => {
            if_known(is_known, bounded(Collection::Set, bounds, true, element))
        }
    }
}

/// Returns the base of a data type. `is_known` says whether the name in it, if any, is known, and
/// `element` is the number of the data type of its elements.
pub(crate) fn base_of<'a>(
    names: &Names<'a, '_>,
    declared: &[Base],
    is_known: bool,
    element: u32,
    data_type: &DataType<'a>,
) -> Base
    ensures { result ≡ base_in is_known
        (named_in (the_schema names.now) declared.now (data_type_of data_type.now))
        element (data_type_of data_type.now) }
{
    base_in(
        is_known,
        named_in(names, declared, data_type),
        element,
        data_type,
    )
}

/// Returns `number + 1`. Fails if the sum exceeds 32 bits.
pub(crate) fn number_behind(number: usize) -> Result<u32, AllocError>
    requires { number < 2 ^ 63 }
    ensures { IfOk result (λ n. n ≡ number + 1) }
{
    match u32::try_from(number + 1) {
        Ok(number) => Ok(number),
        Err(_) => Err(AllocError),
    }
}

/// Returns the first number of `row`, or 0 if `row` is empty.
fn first_of(row: &[u32]) -> u32
    ensures { result ≡ first_of row.now }
{
    match row.first() {
        Some(number) => *number,
        None => 0,
    }
}

/// Returns the base of the defined type `number`, whose data types are in `row`.
fn base_behind<'a>(
    names: &Names<'a, '_>,
    declared: &[Base],
    row: &[u32],
    number: u32,
    underlying: &Underlying<'a>,
) -> Result<Base, AllocError>
    ensures { IfOk result (λ b. b ≡ base_behind (the_schema names.now)
        (named_in (the_schema names.now) declared.now) (first_of row.now) number
        (underlying_of underlying.now)) }
{
    match underlying {
        Underlying::Enumeration(_) => Ok(Base::Enumeration(number)),
        Underlying::Select(_) => Ok(Base::Select(number)),
        Underlying::DataType(data_type) => {
            let element = number_behind(first_of(row) as usize)?;
            Ok(base_of(
                names,
                declared,
                is_known(names, data_type),
                element,
                data_type,
            ))
        }
    }
}

/// Returns the base of the declaration `number`, whose data types are in `row`.
pub(crate) fn base_at<'a>(
    names: &Names<'a, '_>,
    declared: &[Base],
    row: &[u32],
    number: u32,
    declaration: &Declaration<'a>,
) -> Result<Base, AllocError>
    ensures { IfOk result (λ b. b ≡ base_at (the_schema names.now)
        (named_in (the_schema names.now) declared.now) (first_of row.now) number
        (declaration_of declaration.now)) }
{
    match declaration {
        Declaration::Type(declaration) => {
            base_behind(names, declared, row, number, &declaration.underlying)
        }
        Declaration::Entity(_) => Ok(Base::Entity(number)),
        Declaration::Skipped(_) => Ok(Base::Integer),
    }
}
