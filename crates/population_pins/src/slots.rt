//! The values that can be, or can contain, a LIST or ARRAY OF UNIQUE, by form of instances.

ghost use Rattle.std.specs.Prelude.{◌≡◌, ◌∷◌, [], IfOk, OnOk};
ghost use Rattle.std.specs.List.{AllZip};
ghost use Rattle.express_syntax.specs.Profile.{Every};
ghost use Rattle.schema_names.specs.Schemas.{the_schema};
ghost use Rattle.schema_redeclarations.specs.declared.uses.AttributeUse.{AttributeUse as Use};
ghost use Rattle.schema_redeclarations.specs.Uses.{of_place, uses_at};
ghost use Rattle.schema_underlying_types.specs.BaseViews.{type_at};
ghost use Rattle.schema_underlying_types.specs.Tables.{AreBases, NamesKnownType};
ghost use Rattle.population_forms.specs.steps.Slots.{uses_by};
ghost use Rattle.population_pins.specs.steps.Slots.{
  slots_of,
  asked,
  AddsSlots,
  AreKnown,
  IsUniqueRow,
  IsRowOf,
  slots_at,
};

use crate::unique_holders::may_hold;
use population_rows::form::Form;
use schema_redeclarations::uses::{AttributeUse, Uses};
use schema_underlying_types::base::Base;
use schema_underlying_types::lookup::Bases;
use std::alloc::{AllocError, Global};

/// What a data type requires of a value of the instances of a form, if the value can be, or can
/// contain, a LIST or ARRAY OF UNIQUE.
#[derive(Clone, Copy)]
pub(crate) struct UniqueSlot {
    /// The position of the value among those of an instance.
    pub position: usize,
    /// What a data type requires with which the attribute is declared or redeclared.
    pub base: Base,
}

/// Returns the declarations of explicit attributes by the entity with this number; empty if there
/// is none.
fn uses_at(uses: &Uses, number: u32) -> &[AttributeUse]
    ensures { result.now ≡ uses_at uses.now number }
{
    match uses.explicit.get(number as usize) {
        Some(row) => row,
        None => &[],
    }
}

/// Adds what a data type requires of the value at a position, if it can be, or can contain, a LIST
/// or ARRAY OF UNIQUE.
fn add_slot(
    bases: &Bases<'_, '_, '_>,
    slots: &mut Vec<UniqueSlot>,
    position: usize,
    data_type: u32,
) -> Result<(), AllocError>
    requires bases { AreBases bases.now }
    requires known { NamesKnownType (the_schema bases.now.names.now)
        (type_at (the_schema bases.now.names.now) data_type) }
    ensures { OnOk result (AddsSlots (the_schema bases.now.names.now) slots.old.items
        slots.new.items
        (λ d. slots_of d position (type_at (the_schema bases.now.names.now) data_type ∷ []))) }
{
    let base = bases.of_number(data_type);
    if may_hold(bases, base) {
        slots.push(UniqueSlot { position, base })?;
    }
    Ok(())
}

/// Adds what a declaration requires of the value at a position, if it declares or redeclares the
/// explicit attribute `place`.
fn add_use(
    bases: &Bases<'_, '_, '_>,
    slots: &mut Vec<UniqueSlot>,
    position: usize,
    place: u32,
    each: AttributeUse,
) -> Result<(), AllocError>
    requires bases { AreBases bases.now }
    requires known { NamesKnownType (the_schema bases.now.names.now)
        (type_at (the_schema bases.now.names.now) each.data_type) }
    ensures { OnOk result (AddsSlots (the_schema bases.now.names.now) slots.old.items
        slots.new.items (λ d. slots_of d position
        (asked (the_schema bases.now.names.now) (of_place place (each ∷ []))))) }
{
    if each.place == place {
        add_slot(bases, slots, position, each.data_type)
    } else {
        Ok(())
    }
}

/// Adds what the declarations of an entity require of the value at a position.
fn add_uses(
    bases: &Bases<'_, '_, '_>,
    slots: &mut Vec<UniqueSlot>,
    position: usize,
    place: u32,
    uses: &[AttributeUse],
) -> Result<(), AllocError>
    requires bases { AreBases bases.now }
    requires known { Every (λ (u : Use). NamesKnownType (the_schema bases.now.names.now)
        (type_at (the_schema bases.now.names.now) u.data_type)) uses.now }
    ensures { OnOk result (AddsSlots (the_schema bases.now.names.now) slots.old.items
        slots.new.items (λ d. slots_of d position
        (asked (the_schema bases.now.names.now) (of_place place uses.now)))) }
{
    for i in 0..uses.len() {
        add_use(bases, slots, position, place, uses[i])?;
    }
    Ok(())
}

/// Adds what the declarations of these types require of the value at a position.
fn add_place(
    bases: &Bases<'_, '_, '_>,
    slots: &mut Vec<UniqueSlot>,
    uses: &Uses,
    types: &[u32],
    position: usize,
    place: u32,
) -> Result<(), AllocError>
    requires bases { AreBases bases.now }
    requires known { AreKnown (the_schema bases.now.names.now) uses.now }
    ensures { OnOk result (AddsSlots (the_schema bases.now.names.now) slots.old.items
        slots.new.items (λ d. slots_of d position (asked (the_schema bases.now.names.now)
        (uses_by uses.now types.now place)))) }
{
    for i in 0..types.len() {
        add_uses(bases, slots, position, place, uses_at(uses, types[i]))?;
    }
    Ok(())
}

/// Returns what the data types require of the values of instances of a form that can be, or can
/// contain, a LIST or ARRAY OF UNIQUE.
fn slots_of_form(
    alloc: Global,
    bases: &Bases<'_, '_, '_>,
    uses: &Uses,
    form: &Form,
) -> Result<Vec<UniqueSlot>, AllocError>
    requires bases { AreBases bases.now }
    requires known { AreKnown (the_schema bases.now.names.now) uses.now }
    ensures { IfOk result (λ v. IsUniqueRow (the_schema bases.now.names.now) uses.now form.now
        v.items) }
{
    let mut slots = Vec::new(alloc);
    for i in 0..form.slots.len() {
        add_place(bases, &mut slots, uses, &form.types, i, form.slots[i].place)?;
    }
    Ok(slots)
}

/// Returns what the data types require of the values of instances that can be, or can contain, a
/// LIST or ARRAY OF UNIQUE, by form.
pub(crate) fn slots_by_form(
    alloc: Global,
    bases: &Bases<'_, '_, '_>,
    uses: &Uses,
    forms: &[Form],
) -> Result<Vec<Vec<UniqueSlot>>, AllocError>
    requires bases { AreBases bases.now }
    requires known { AreKnown (the_schema bases.now.names.now) uses.now }
    ensures { IfOk result (λ rows. AllZip (IsRowOf (the_schema bases.now.names.now) uses.now)
        forms.now rows.items) }
{
    let mut rows = Vec::with_capacity(alloc, forms.len())?;
    for i in 0..forms.len() {
        let row = slots_of_form(alloc, bases, uses, &forms[i])?;
        rows.push(row)?;
    }
    Ok(rows)
}

/// Returns what the data types require of the values of the form with this number; empty if there
/// is no such form.
pub(crate) fn slots_at(rows: &[Vec<UniqueSlot>], form: Option<u32>) -> &[UniqueSlot]
    ensures { result.now ≡ slots_at rows.now form }
{
    let Some(number) = form else {
        return &[];
    };
    match rows.get(number as usize) {
        Some(row) => row,
        None => &[],
    }
}
