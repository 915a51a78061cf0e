//! The values of all instances.

ghost use Rattle.std.specs.Prelude.{◌≡◌, [], ◌∷◌, IfOk, OnOk, map, length, option_copied};
ghost use Rattle.step_records.specs.Cells.{all_of};
ghost use Rattle.step_exchange.specs.Views.{
  record_in,
  form_of,
  form_in,
  rows_with,
};
ghost use Rattle.step_values.specs.steps.Targets.{LeadTo, ReferTo};
ghost use Rattle.population_rows.specs.Index.{found};
ghost use Rattle.schema_names.specs.Schemas.{the_schema};
ghost use Rattle.schema_underlying_types.specs.Tables.{AreBases};
ghost use Rattle.conformance.specs.Bases.{Domain, IsDomain};
ghost use Rattle.conformance.specs.Entities.{records, parameters};
ghost use Rattle.parameter_fits.specs.steps.References.{AreFound};
ghost use Rattle.population_findings.specs.steps.Rows.{rows_in};
ghost use Rattle.population_reader.specs.steps.Making.{
  value_by,
  values_by,
  row_by,
  rows_by,
  IsReady,
  AreReady,
  IsRowReady,
  AreRowsReady,
  AreReadyIn,
  values_in,
  found_by,
  IsMaker,
  Adds,
  AddsRows,
};

use parameter_fits::values::push_of_type;
use population_findings::keywords::is_internal;
use population_rows::form::{Form, SlotForm};
use population_rows::index::RowIndex;
use population_rows::rows::{Rows, form_at};
use schema_underlying_types::lookup::Bases;
use std::alloc::{AllocError, Global};
use step_exchange::structure::Exchange;
use step_records::param::{Param, Params, cut};
use step_values::row_builder::RowBuilder;
use step_values::rows::ValueRows;

/// The number of cells that room is reserved for per instance, including those of nested values.
const CELLS: usize = 4;

/// What values are built from: the requirements of data types, and the row of each name.
#[derive(Clone, Copy)]
pub struct Maker<'a, 't, 'r> {
    pub bases: Bases<'a, 't, 'r>,
    pub index: &'r RowIndex,
}

/// Pushes the value of the attribute `slot`, whose parameter is `param`. If the attribute is
/// derived, the value is derived, however `param` is spelled; otherwise it is a value of the first
/// of the data types.
fn push_slot<'a>(
    maker: &Maker<'_, '_, '_>,
    builder: &mut RowBuilder<'_, 'a>,
    slot: &SlotForm,
    param: Param<'a, '_>,
) -> Result<(), AllocError>
    requires maker { IsMaker maker.now builder.old.names }
    requires ready { IsReady (the_schema maker.now.bases.names.now) (found_by maker.now) slot.now
        param }
    ensures { OnOk result (Adds maker.now builder.old builder.new
        (λ d. value_by (the_schema maker.now.bases.names.now) d slot.now param.entry ∷ [])) }
{
    if slot.is_derived {
        return builder.push_derived();
    }
    let number = slot.data_types[0];
    push_of_type(&maker.bases, builder, number, maker.index, param)
}

/// Pushes the values of the attributes `slots`, whose parameters are those of a record.
fn push_record<'a>(
    maker: &Maker<'_, '_, '_>,
    builder: &mut RowBuilder<'_, 'a>,
    slots: &[SlotForm],
    values: &Params<'a, '_>,
) -> Result<(), AllocError>
    requires maker { IsMaker maker.now builder.old.names }
    requires ready { AreReady (the_schema maker.now.bases.names.now) (found_by maker.now) slots.now
        (all_of values.now) }
    ensures { OnOk result (Adds maker.now builder.old builder.new
        (λ d. values_by (the_schema maker.now.bases.names.now) d slots.now (all_of values.now))) }
{
    for i in 0..slots.len() {
        let Some(param) = values.item(i) else {
            return Ok(());
        };
        push_slot(maker, builder, &slots[i], param)?;
    }
    Ok(())
}

/// Pushes the values of the attributes `slots`, whose parameters are those of `partials` in the
/// order of the file.
fn push_partials<'a>(
    maker: &Maker<'_, '_, '_>,
    builder: &mut RowBuilder<'_, 'a>,
    slots: &[SlotForm],
    partials: &Params<'a, '_>,
) -> Result<(), AllocError>
    requires maker { IsMaker maker.now builder.old.names }
    requires ready { AreReady (the_schema maker.now.bases.names.now) (found_by maker.now) slots.now
        (parameters (map record_in partials.now)) }
    ensures { OnOk result (Adds maker.now builder.old builder.new
        (λ d. values_by (the_schema maker.now.bases.names.now) d slots.now
        (parameters (map record_in partials.now)))) }
{
    let mut left = slots;
    for i in 0..partials.len() {
        let (_, values) = partials.at(i).parts().split(1);
        let (own, behind) = cut(left, values.len());
        push_record(maker, builder, own, &values)?;
        left = behind;
    }
    Ok(())
}

/// Pushes the values of the attributes `slots` of an instance.
fn push_instance<'a>(
    maker: &Maker<'_, '_, '_>,
    builder: &mut RowBuilder<'_, 'a>,
    slots: &[SlotForm],
    parts: &Params<'a, '_>,
) -> Result<(), AllocError>
    requires maker { IsMaker maker.now builder.old.names }
    requires ready { AreReady (the_schema maker.now.bases.names.now) (found_by maker.now) slots.now
        (parameters (records (form_of parts.now))) }
    ensures { OnOk result (Adds maker.now builder.old builder.new
        (λ d. values_by (the_schema maker.now.bases.names.now) d slots.now
        (parameters (records (form_of parts.now))))) }
{
    if !is_internal(parts) {
        return push_partials(maker, builder, slots, parts);
    }
    let (_, values) = parts.split(1);
    push_record(maker, builder, slots, &values)
}

/// Builds the row of an instance of `form`; an instance without a form has no values.
fn push_row<'a>(
    maker: &Maker<'_, '_, '_>,
    builder: &mut RowBuilder<'_, 'a>,
    form: Option<&Form>,
    instance: &Param<'a, '_>,
) -> Result<(), AllocError>
    requires maker { IsMaker maker.now builder.old.names }
    requires whole { builder.old.pending ≡ [] }
    requires ready { IsRowReady (the_schema maker.now.bases.names.now) (found_by maker.now)
        (option_copied form) (form_in instance.now) }
    ensures { OnOk result (AddsRows maker.now builder.old builder.new
        (λ d. row_by (the_schema maker.now.bases.names.now) d (option_copied form.entry)
        (form_in instance.now) ∷ [])) }
{
    if let Some(form) = form {
        push_instance(maker, builder, &form.slots, &instance.parts())?;
    }
    builder.close_row()
}

/// Builds the rows of the instances called `names`, in order.
fn push_rows<'a>(
    maker: &Maker<'_, '_, '_>,
    builder: &mut RowBuilder<'_, 'a>,
    rows: &Rows,
    names: &[u64],
    instances: &Params<'a, '_>,
) -> Result<(), AllocError>
    requires maker { IsMaker maker.now builder.old.names }
    requires whole { builder.old.pending ≡ [] }
    requires matched { length rows.now.form_of.items ≡ length names.now }
    requires ready { AreRowsReady (the_schema maker.now.bases.names.now) (found_by maker.now)
        rows.now.forms.items (rows_with names.now instances.now) rows.now.form_of.items }
    ensures { OnOk result (AddsRows maker.now builder.old builder.new
        (λ d. rows_by (the_schema maker.now.bases.names.now) d rows.now.forms.items
        (rows_with names.now instances.now) rows.now.form_of.items)) }
{
    for i in 0..names.len() {
        let Some(instance) = instances.item(i) else {
            return Ok(());
        };
        push_row(maker, builder, form_at(rows, i), &instance)?;
    }
    Ok(())
}

/// Returns what the values of instances with these `rows` are built from.
fn maker_of<'b, 't, 'a>(bases: &Bases<'a, 't, 'b>, rows: &'b Rows) -> Maker<'a, 't, 'b>
    ensures bases { result.bases ≡ bases.now }
    ensures index { result.index.now ≡ rows.now.index }
{
    Maker {
        bases: *bases,
        index: &rows.index,
    }
}

/// Returns a builder of the rows of the instances called `names`. Room for the rows is reserved if
/// memory suffices; otherwise the builder grows with the rows.
fn builder_of<'n, 'a>(alloc: Global, names: &'n [u64]) -> RowBuilder<'n, 'a>
    ensures { result ≡ record { names = names.now; rows = []; pending = [] } }
{
    let mut builder = RowBuilder::new(alloc, names);
    let _ = builder.reserve(names.len().saturating_mul(CELLS), names.len());
    builder
}

/// Returns the values of the attributes of each instance of `exchange`, in the order of its form.
pub fn values_of<'b, 'a>(
    alloc: Global,
    bases: &Bases<'_, '_, 'b>,
    rows: &'b Rows,
    exchange: &Exchange<'a>,
) -> Result<ValueRows<'a>, AllocError>
    requires bases { AreBases bases.now }
    requires index { AreFound exchange.now.names (found rows.now.index) }
    requires matched { length rows.now.form_of.items ≡ length exchange.now.names }
    requires ready { AreReadyIn (the_schema bases.now.names.now) rows.now exchange.now }
    ensures rows { let s = the_schema bases.now.names.now in
        IfOk result (λ v. (d : Domain) → IsDomain s d
        → v.rows ≡ values_in s d rows.now exchange.now) }
    ensures leads { IfOk result (λ v. LeadTo exchange.now.names v.targets) }
    ensures refers { IfOk result (λ v. ReferTo exchange.now.names v.rows) }
{
    let maker = maker_of(bases, rows);
    let names = exchange.names.as_slice();
    let (_, instances) = exchange.trees.trees().split(exchange.header_len);
    let mut builder = builder_of(alloc, names);
    push_rows(&maker, &mut builder, rows, names, &instances)?;
    Ok(builder.finish())
}
