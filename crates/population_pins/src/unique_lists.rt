//! The LISTs and ARRAYs OF UNIQUE that a value is or contains (ISO 10303-11, 8.2.1 and 8.2.2).

ghost use Rattle.std.specs.Prelude.{OnOk};
ghost use Rattle.express_syntax.specs.Schemas.{Schema};
ghost use Rattle.conformance.specs.Bases.{Domain, IsDomain};
ghost use Rattle.schema_names.specs.Schemas.{the_schema};
ghost use Rattle.schema_underlying_types.specs.BaseViews.{base_seen};
ghost use Rattle.schema_underlying_types.specs.Tables.{AreBases, IsNumberedBase};
ghost use Rattle.conformance.specs.Elements.{HasUnique, HasUniqueAmong};
ghost use Rattle.population_pins.specs.steps.Gathering.{Gathers};
ghost use Rattle.population_pins.specs.steps.Elements.{Asks};
ghost use Rattle.population_pins.specs.steps.Holding.{IsUnique, HasInElements};

use crate::elements::pin_inside;
use crate::unique_holders::{is_unique, may_hold};
use crate::weak_pin_lists::Gathered;
use parameter_fits::contents::item;
use schema_underlying_types::base::Base;
use schema_underlying_types::lookup::Bases;
use std::alloc::AllocError;
use step_values::slot::{Node, Slot, Slots};

/// Adds a list of these elements, and pins what occurs inside them.
fn gather(weak: &mut Gathered, values: &Slots<'_, '_>) -> Result<(), AllocError>
    ensures { OnOk result (Gathers (λ q. Asks q values.now) weak.old weak.new) }
{
    weak.lists.add(values)?;
    pin_inside(&mut weak.names, values)
}

/// Adds a list of these elements, and pins what occurs inside them, if they are those of a LIST or
/// ARRAY OF UNIQUE; otherwise nothing.
fn gather_if_unique(
    weak: &mut Gathered,
    base: Base,
    values: &Slots<'_, '_>,
) -> Result<(), AllocError>
    ensures { (s : Schema) → OnOk result (Gathers
        (λ q. IsUnique (Asks q) (base_seen s base) values.now)
        weak.old weak.new) }
{
    if !is_unique(base) {
        return Ok(());
    }
    gather(weak, values)
}

/// Adds a list of the elements of each LIST and ARRAY OF UNIQUE that a value is or contains, and
/// pins what occurs inside these elements. `base` is what is required of the value.
#[cycle(walk)]
pub(crate) fn gather_in_value(
    bases: &Bases<'_, '_, '_>,
    weak: &mut Gathered,
    base: Base,
    value: &Slot<'_, '_>,
) -> Result<(), AllocError>
    requires bases { AreBases bases.now }
    requires numbered { IsNumberedBase (the_schema bases.now.names.now) base }
    ensures { (d : Domain) → IsDomain (the_schema bases.now.names.now) d → OnOk result (Gathers
        (λ q. HasUnique (the_schema bases.now.names.now) d (Asks q)
        (base_seen (the_schema bases.now.names.now) base) value.now) weak.old weak.new) }
{
    match value.node() {
        Node::Typed(word, inner) => match item(bases, base, word) {
            Some(within) => gather_in_value(bases, weak, within, &inner),
            None => Ok(()),
        },
        Node::Sequence(values) => {
            gather_if_unique(weak, base, &values)?;
            gather_in_elements(bases, weak, base, &values)
        }
        Node::Bag(values) => gather_in_elements(bases, weak, base, &values),
        _ => Ok(()),
    }
}

/// Adds a list of the elements of each LIST and ARRAY OF UNIQUE in the elements of an aggregate,
/// and pins what occurs inside these elements.
#[cycle(walk)]
fn gather_in_elements(
    bases: &Bases<'_, '_, '_>,
    weak: &mut Gathered,
    base: Base,
    values: &Slots<'_, '_>,
) -> Result<(), AllocError>
    requires bases { AreBases bases.now }
    requires numbered { IsNumberedBase (the_schema bases.now.names.now) base }
    ensures { (d : Domain) → IsDomain (the_schema bases.now.names.now) d → OnOk result (Gathers
        (λ q. HasInElements (the_schema bases.now.names.now) d (Asks q)
        (base_seen (the_schema bases.now.names.now) base) values.now) weak.old weak.new) }
{
    let Base::Aggregate(aggregate) = base else {
        return Ok(());
    };
    let element = bases.of_number(aggregate.element);
    gather_in_each(bases, weak, element, values)
}

/// Adds a list of the elements of each LIST and ARRAY OF UNIQUE that one of these values is or
/// contains, and pins what occurs inside these elements.
#[cycle(walk)]
fn gather_in_each(
    bases: &Bases<'_, '_, '_>,
    weak: &mut Gathered,
    base: Base,
    values: &Slots<'_, '_>,
) -> Result<(), AllocError>
    requires bases { AreBases bases.now }
    requires numbered { IsNumberedBase (the_schema bases.now.names.now) base }
    ensures { (d : Domain) → IsDomain (the_schema bases.now.names.now) d → OnOk result (Gathers
        (λ q. HasUniqueAmong (the_schema bases.now.names.now) d (Asks q)
        (base_seen (the_schema bases.now.names.now) base) values.now) weak.old weak.new) }
{
    if !may_hold(bases, base) {
        return Ok(());
    }
    for i in 0..values.len() {
        gather_in_value(bases, weak, base, &values.at(i))?;
    }
    Ok(())
}
