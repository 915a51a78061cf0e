//! Trees of values, laid out as rows of one column.

ghost use Rattle.std.specs.Prelude.{
  ◌≡◌,
  ◌<◌,
  ◌++◌,
  ◌∷◌,
  [],
  length,
  map,
  IfOk,
  IfErr,
  OnOk,
};
ghost use Rattle.step_values.specs.steps.Targets.{LeadTo, ReferTo};
ghost use Rattle.step_values.specs.Values.{reference};
ghost use Rattle.step_values.specs.Views.{value_of, values_of};
ghost use Rattle.value_equality.specs.steps.ComputedClosure.{
  IsRefusal,
  references_pass,
  all_references_pass,
  rows_pass,
};
ghost use Rattle.value_equality.specs.steps.ComputedPlaces.{Finds, is_found};
ghost use Rattle.value_equality.specs.Views.{rows_of, values_within};

use crate::fault::PlainFault;
use crate::row::PlainRow;
use population_rows::index::RowIndex;
use std::alloc::Global;
use step_values::row_builder::RowBuilder;
use step_values::rows::ValueRows;
use step_values::value::PlainValue;

/// Returns the values of rows, laid out over the names of all rows.
///
/// # Errors
///
/// - `UnknownReference` if a reference is to none of the names;
/// - `Memory` if memory runs out.
pub(crate) fn laid_down<'a>(
    alloc: Global,
    names: &[u64],
    places: &RowIndex,
    rows: &[PlainRow<'a>],
) -> Result<ValueRows<'a>, PlainFault>
    requires places { Finds places.now names.now }
    requires few { length names.now < 4294967296 }
    ensures rows { IfOk result (λ v. v.rows ≡ map values_within rows.now) }
    ensures leads { IfOk result (λ v. LeadTo names.now v.targets) }
    ensures closed { IfOk result (λ v. ReferTo names.now v.rows) }
    ensures fault { IfErr result
        (IsRefusal (rows_pass (is_found places.now) (rows_of rows.now))) }
{
    let mut builder = RowBuilder::new(alloc, names);
    builder.reserve(rows.len(), rows.len())?;
    for row in rows {
        push_values(&mut builder, places, &row.values)?;
        builder.close_row()?;
    }
    Ok(builder.finish())
}

/// Pushes a value with all its parts.
#[cycle(push)]
fn push_value<'n, 'a>(
    builder: &mut RowBuilder<'n, 'a>,
    places: &RowIndex,
    value: &PlainValue<'a>,
) -> Result<(), PlainFault>
    requires places { Finds places.now builder.old.names }
    requires few { length builder.old.names < 4294967296 }
    ensures pushed { OnOk result (builder.new ≡ record builder.old {
      pending = builder.old.pending ++ value_of value.now ∷ [];
    }) }
    ensures fault { IfErr result
        (IsRefusal (references_pass (is_found places.now) (value_of value.now))) }
{
    match value {
        PlainValue::Unset => builder.push_unset()?,
        PlainValue::Derived => builder.push_derived()?,
        PlainValue::Number(number) => builder.push_number(*number)?,
        PlainValue::Text(text) => builder.push_text(*text)?,
        PlainValue::Bits(bits) => builder.push_bits(*bits)?,
        PlainValue::Element(word) => builder.push_element(*word)?,
        PlainValue::Reference(name) => push_reference(builder, places, *name)?,
        PlainValue::Typed(word, inner) => {
            push_value(builder, places, inner)?;
            builder.close_typed(*word)?;
        }
        PlainValue::Sequence(values) => {
            let mark = builder.pending_len();
            push_values(builder, places, values)?;
            builder.close_sequence(mark)?;
        }
        PlainValue::Bag(values) => {
            let mark = builder.pending_len();
            push_values(builder, places, values)?;
            builder.close_bag(mark)?;
        }
    }
    Ok(())
}

/// Pushes values one after another.
#[cycle(push)]
fn push_values<'n, 'a>(
    builder: &mut RowBuilder<'n, 'a>,
    places: &RowIndex,
    values: &[PlainValue<'a>],
) -> Result<(), PlainFault>
    requires places { Finds places.now builder.old.names }
    requires few { length builder.old.names < 4294967296 }
    ensures pushed { OnOk result (builder.new ≡ record builder.old {
      pending = builder.old.pending ++ map value_of values.now;
    }) }
    ensures fault { IfErr result
        (IsRefusal (all_references_pass (is_found places.now) (values_of values.now))) }
{
    for value in values {
        push_value(builder, places, value)?;
    }
    Ok(())
}

/// Pushes a reference to the row of a name.
fn push_reference<'n, 'a>(
    builder: &mut RowBuilder<'n, 'a>,
    places: &RowIndex,
    name: u64,
) -> Result<(), PlainFault>
    requires places { Finds places.now builder.old.names }
    requires few { length builder.old.names < 4294967296 }
    ensures pushed { OnOk result (builder.new ≡ record builder.old {
      pending = builder.old.pending ++ reference name ∷ [];
    }) }
    ensures fault { IfErr result (IsRefusal (is_found places.now name)) }
{
    match places.find(name) {
        None => Err(PlainFault::UnknownReference),
        Some(place) => Ok(builder.push_reference(name, place)?),
    }
}
