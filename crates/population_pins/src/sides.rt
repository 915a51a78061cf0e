//! Pinning the instances on the sides of inverse attributes (ISO 10303-11, 9.2.1.3).

ghost use Rattle.std.specs.Prelude.{OnOk};
ghost use Rattle.schema_semantics.specs.Names.{OneOf};
ghost use Rattle.conformance.specs.Pins.{IsInverseSide};
ghost use Rattle.schema_names.specs.Schemas.{the_schema};
ghost use Rattle.schema_constraints.specs.RuleViews.{AreNumbered, rules_seen};
ghost use Rattle.typed_populations.specs.PopulationViews.{population_seen};
ghost use Rattle.population_pins.specs.steps.Pinning.{Pins};
ghost use Rattle.population_pins.specs.steps.Sides.{IsOnSide, IsOnSideOf};

use crate::pinned_names::{pin, pin_all};
use population_inverses::extents::Extents;
use population_inverses::inverses::{numbers_by_form, row_at};
use std::alloc::{AllocError, Global};

/// Pins an instance and those that its inverse attribute holds, if it holds any.
fn pin_side(pinned: &mut Vec<u64>, name: u64, held: &[u64]) -> Result<(), AllocError>
    ensures { OnOk result (Pins (IsOnSide name held.now) pinned.old pinned.new) }
{
    if held.is_empty() {
        return Ok(());
    }
    pin(pinned, name)?;
    pin_all(pinned, held)
}

/// Pins an instance, and the instances that its inverse attributes with these numbers hold, if any.
fn pin_sides_of(
    extents: &Extents<'_, '_, '_, '_, '_>,
    pinned: &mut Vec<u64>,
    name: u64,
    numbers: &[usize],
) -> Result<(), AllocError>
    ensures { OnOk result (Pins (IsOnSideOf (the_schema extents.now.population.now.types.now.names)
        (population_seen extents.now.population.now) extents.now.rules.now.inverses.items name
        numbers.now) pinned.old pinned.new) }
{
    for number in numbers {
        pin_side(pinned, name, extents.inverse_by_number(name, *number))?;
    }
    Ok(())
}

/// Pins the instances on the sides of inverse attributes: those that refer by the inverted
/// attribute to an instance that has the inverse attribute, and those to which they refer.
pub(crate) fn pin_sides(
    alloc: Global,
    extents: &Extents<'_, '_, '_, '_, '_>,
    pinned: &mut Vec<u64>,
) -> Result<(), AllocError>
    requires numbered { AreNumbered
        (the_schema extents.now.population.now.types.now.names) extents.now.rules.now }
    ensures { OnOk result (Pins (λ y. OneOf
        (IsInverseSide (population_seen extents.now.population.now) y)
        (rules_seen (the_schema extents.now.population.now.types.now.names)
        extents.now.rules.now).inverses) pinned.old pinned.new) }
{
    let population = extents.population;
    let numbers = numbers_by_form(alloc, &extents.rules.inverses, population.forms())?;
    for row in 0..population.len() {
        let instance = population.instance(row);
        pin_sides_of(
            extents,
            pinned,
            instance.name,
            row_at(&numbers, instance.form),
        )?;
    }
    Ok(())
}
