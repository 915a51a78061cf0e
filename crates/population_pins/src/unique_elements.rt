//! The LISTs and ARRAYs OF UNIQUE of a population.

ghost use Rattle.std.specs.Prelude.{◌≡◌, OnOk, map};
ghost use Rattle.schema_semantics.specs.Names.{OneOf};
ghost use Rattle.schema_names.specs.Schemas.{the_schema};
ghost use Rattle.schema_types.specs.TypeTables.{IsMade};
ghost use Rattle.conformance.specs.Bases.{Domain, IsDomain};
ghost use Rattle.conformance.specs.Entities.{Entities, AreEntities};
ghost use Rattle.schema_underlying_types.specs.Tables.{AreBases, IsNumberedBase};
ghost use Rattle.conformance.specs.Elements.{HasUniqueValue};
ghost use Rattle.typed_populations.specs.PopulationViews.{population_seen};
ghost use Rattle.population_pins.specs.steps.Gathering.{Gathers};
ghost use Rattle.population_pins.specs.steps.Elements.{Asks};
ghost use Rattle.population_pins.specs.steps.Slots.{slot_seen, HaveNumbers, HasUniqueAt};

use crate::slots::{UniqueSlot, slots_at, slots_by_form};
use crate::unique_lists::gather_in_value;
use crate::weak_pin_lists::Gathered;
use population_forms::tables::SchemaTables;
use schema_underlying_types::lookup::Bases;
use std::alloc::{AllocError, Global};
use step_values::slot::Slots;
use typed_populations::population::Population;

/// Adds a list of the elements of each LIST and ARRAY OF UNIQUE that the value at a position is or
/// contains, if there is such a value. Pins what occurs inside these elements.
fn gather_at(
    bases: &Bases<'_, '_, '_>,
    weak: &mut Gathered,
    slot: UniqueSlot,
    values: &Slots<'_, '_>,
) -> Result<(), AllocError>
    requires bases { AreBases bases.now }
    requires numbered { IsNumberedBase (the_schema bases.now.names.now) slot.base }
    ensures { (d : Domain) → IsDomain (the_schema bases.now.names.now) d → OnOk result (Gathers
        (λ q. HasUniqueAt (the_schema bases.now.names.now) d (Asks q) values.now
        (slot_seen (the_schema bases.now.names.now) slot)) weak.old weak.new) }
{
    match values.item(slot.position) {
        Some(value) => gather_in_value(bases, weak, slot.base, &value),
        None => Ok(()),
    }
}

/// Adds a list of the elements of each LIST and ARRAY OF UNIQUE in an instance with these values.
/// Pins what occurs inside these elements.
fn gather_in_slots(
    bases: &Bases<'_, '_, '_>,
    weak: &mut Gathered,
    slots: &[UniqueSlot],
    values: &Slots<'_, '_>,
) -> Result<(), AllocError>
    requires bases { AreBases bases.now }
    requires numbered { HaveNumbers (the_schema bases.now.names.now) slots.now }
    ensures { (d : Domain) → IsDomain (the_schema bases.now.names.now) d → OnOk result (Gathers
        (λ q. OneOf (HasUniqueAt (the_schema bases.now.names.now) d (Asks q) values.now)
        (map (slot_seen (the_schema bases.now.names.now)) slots.now)) weak.old weak.new) }
{
    for i in 0..slots.len() {
        gather_at(bases, weak, slots[i], values)?;
    }
    Ok(())
}

/// Adds a list of the elements of each LIST and ARRAY OF UNIQUE in the values of instances
/// (ISO 10303-11, 8.2.1 and 8.2.2). Pins what occurs inside these elements.
///
/// The instances are visited once, and only the values of attributes that can contain such a
/// collection.
pub(crate) fn gather_elements(
    alloc: Global,
    population: &Population<'_, '_, '_, '_>,
    weak: &mut Gathered,
) -> Result<(), AllocError>
    requires made { IsMade population.now.types.now }
    ensures { (d : Domain) (en : Entities) → IsDomain (the_schema population.now.types.now.names) d
        → AreEntities (the_schema population.now.types.now.names) en
        → OnOk result (Gathers (λ q. OneOf
        (HasUniqueValue (the_schema population.now.types.now.names) d en
        (Asks q)) (population_seen population.now)) weak.old weak.new) }
{
    let tables = SchemaTables::of(alloc, population.types)?;
    let bases = tables.bases(population.types);
    let rows = slots_by_form(alloc, &bases, &tables.uses, population.forms())?;
    for row in 0..population.len() {
        let instance = population.instance(row);
        let slots = slots_at(&rows, instance.form);
        gather_in_slots(&bases, weak, slots, &instance.values)?;
    }
    Ok(())
}
