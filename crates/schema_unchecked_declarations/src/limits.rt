//! Unchecked bounds, widths and precisions (ISO 10303-11, 8.1 and 8.2).

ghost use Rattle.std.specs.Prelude.{OnOk};
ghost use Rattle.express_syntax.specs.Views.{
  if_some,
  bound_of,
  bounds_of,
  width_of,
  fixed_of,
  data_type_of,
  underlying_of,
  collection_of,
};
ghost use Rattle.schema_semantics.specs.Parts.{
  parts_of_bound,
  parts_of_bounds,
  parts_of_some_bounds,
  parts_of_width,
  parts_of_some_width,
  parts_of_data_type,
  parts_of_underlying,
  parts_of_collection,
};
ghost use Rattle.schema_unchecked_declarations.specs.UncheckedLists.{Adds, label_name, unchecked_in};

use crate::list::{Label, Unchecked, add_part};
use express_syntax::tree::{Bound, Bounds, Collection, DataType, FixedWidth, Underlying, Width};
use schema_semantics::unchecked::{PartKind, Reason};
use std::alloc::{AllocError, Global};

/// Adds a bound, unless it is `?` or an integer within the range of `i64` (ISO 10303-11, 8.2).
fn add_bound(
    alloc: Global,
    list: &mut Vec<Unchecked>,
    label: Label<'_>,
    bound: &Bound<'_>,
) -> Result<(), AllocError>
    ensures { OnOk result (Adds (parts_of_bound (label_name label.entry) (bound_of bound.now))
        (unchecked_in list.old.items) (unchecked_in list.new.items)) }
{
    if matches!(bound, Bound::Unlimited) {
        return Ok(());
    }
    match bound.value() {
        Some(_) => Ok(()),
        None => add_part(alloc, list, PartKind::Bound, label, Reason::Profile),
    }
}

/// Adds the lower bound, then the upper one, each if it is unchecked.
fn add_bounds(
    alloc: Global,
    list: &mut Vec<Unchecked>,
    label: Label<'_>,
    bounds: &Bounds<'_>,
) -> Result<(), AllocError>
    ensures { OnOk result (Adds (parts_of_bounds (label_name label.entry) (bounds_of bounds.now))
        (unchecked_in list.old.items) (unchecked_in list.new.items)) }
{
    add_bound(alloc, list, label, &bounds.lower)?;
    add_bound(alloc, list, label, &bounds.upper)
}

/// Adds the unchecked bounds, if there are bounds.
fn add_some_bounds(
    alloc: Global,
    list: &mut Vec<Unchecked>,
    label: Label<'_>,
    bounds: &Option<Bounds<'_>>,
) -> Result<(), AllocError>
    ensures { OnOk result (Adds
        (parts_of_some_bounds (label_name label.entry) (if_some bounds_of bounds.now))
        (unchecked_in list.old.items) (unchecked_in list.new.items)) }
{
    match bounds {
        Some(bounds) => add_bounds(alloc, list, label, bounds),
        None => Ok(()),
    }
}

/// Adds the width of a string or a binary, unless it is an integer within the range of `i64`
/// (ISO 10303-11, 8.1.6 and 8.1.7).
fn add_width(
    alloc: Global,
    list: &mut Vec<Unchecked>,
    label: Label<'_>,
    width: &Width<'_>,
) -> Result<(), AllocError>
    ensures { OnOk result (Adds (parts_of_width (label_name label.entry) (width_of width.now))
        (unchecked_in list.old.items) (unchecked_in list.new.items)) }
{
    match width {
        Width::Value(digits) => match digits.whole() {
            Some(_) => Ok(()),
            None => add_part(alloc, list, PartKind::Width, label, Reason::Profile),
        },
        Width::Other(_) => add_part(alloc, list, PartKind::Width, label, Reason::Profile),
    }
}

/// Adds the width of a string or a binary, if there is one and it is unchecked.
fn add_some_width(
    alloc: Global,
    list: &mut Vec<Unchecked>,
    label: Label<'_>,
    width: &Option<Box<FixedWidth<'_>>>,
) -> Result<(), AllocError>
    ensures { OnOk result (Adds
        (parts_of_some_width (label_name label.entry) (if_some (λ b. fixed_of b.value) width.now))
        (unchecked_in list.old.items) (unchecked_in list.new.items)) }
{
    match width {
        Some(fixed) => add_width(alloc, list, label, &fixed.width),
        None => Ok(()),
    }
}

/// Adds the unchecked limits of a data type and of its elements, outermost first (ISO 10303-11, 8).
/// The precision of a REAL limits no value in an exchange file (ISO 10303-11, 8.1.2).
pub fn add_data_type(
    alloc: Global,
    list: &mut Vec<Unchecked>,
    label: Label<'_>,
    data_type: &DataType<'_>,
) -> Result<(), AllocError>
    ensures { OnOk result (Adds (parts_of_data_type (label_name label.entry)
        (data_type_of data_type.now))
        (unchecked_in list.old.items) (unchecked_in list.new.items)) }
{
    match data_type {
        DataType::String(width) => add_some_width(alloc, list, label, width),
        DataType::Binary(width) => add_some_width(alloc, list, label, width),
        DataType::Array {
            bounds,
            element,
            ..
        } => {
            add_bounds(alloc, list, label, bounds)?;
            add_data_type(alloc, list, label, element)
        }
        DataType::List {
            bounds,
            element,
            ..
        }
        | DataType::Bag { bounds, element }
        | DataType::Set { bounds, element } => {
            add_some_bounds(alloc, list, label, bounds)?;
            add_data_type(alloc, list, label, element)
        }
        DataType::Integer | DataType::Number | DataType::Real(_) => Ok(()),
        DataType::Boolean | DataType::Logical | DataType::Named(_) => Ok(()),
    }
}

/// Adds the unchecked limits of an underlying type. An enumeration or a SELECT has none
/// (ISO 10303-11, 8.3 and 8.4).
pub fn add_underlying(
    alloc: Global,
    list: &mut Vec<Unchecked>,
    label: Label<'_>,
    underlying: &Underlying<'_>,
) -> Result<(), AllocError>
    ensures { OnOk result (Adds
        (parts_of_underlying (label_name label.entry) (underlying_of underlying.now))
        (unchecked_in list.old.items) (unchecked_in list.new.items)) }
{
    match underlying {
        Underlying::DataType(data_type) => add_data_type(alloc, list, label, data_type),
        Underlying::Enumeration(_) | Underlying::Select(_) => Ok(()),
    }
}

/// Adds the unchecked bounds of an inverse attribute (ISO 10303-11, 9.2.1.3).
pub(crate) fn add_collection(
    alloc: Global,
    list: &mut Vec<Unchecked>,
    label: Label<'_>,
    collection: &Collection<'_>,
) -> Result<(), AllocError>
    ensures { OnOk result (Adds
        (parts_of_collection (label_name label.entry) (collection_of collection.now))
        (unchecked_in list.old.items) (unchecked_in list.new.items)) }
{
    match collection {
        Collection::Set(bounds) => add_some_bounds(alloc, list, label, bounds),
        Collection::Bag(bounds) => add_some_bounds(alloc, list, label, bounds),
        Collection::One => Ok(()),
    }
}
