//! Pinning what occurs inside the elements of a collection.

ghost use Rattle.std.specs.Prelude.{OnOk};
ghost use Rattle.conformance.specs.Elements.{AnElement, StandsWithin};
ghost use Rattle.population_pins.specs.steps.Pinning.{Pins};

use crate::targets::{pin_each_target, pin_targets};
use std::alloc::AllocError;
use step_values::slot::{Node, Slot, Slots};

/// Pins the instances that occur in a value, unless the value is itself a reference.
fn pin_within(pinned: &mut Vec<u64>, value: &Slot<'_, '_>) -> Result<(), AllocError>
    ensures { OnOk result (Pins (λ y. StandsWithin y value.now) pinned.old pinned.new) }
{
    match value.node() {
        Node::Typed(_, inner) => pin_targets(pinned, &inner),
        Node::Sequence(values) => pin_each_target(pinned, &values),
        Node::Bag(values) => pin_each_target(pinned, &values),
        _ => Ok(()),
    }
}

/// Pins the instances that occur inside one of these elements, and aren't that element themselves.
pub(crate) fn pin_inside(pinned: &mut Vec<u64>, values: &Slots<'_, '_>) -> Result<(), AllocError>
    ensures { OnOk result (Pins (λ y. AnElement (StandsWithin y) values.now) pinned.old
        pinned.new) }
{
    for i in 0..values.len() {
        pin_within(pinned, &values.at(i))?;
    }
    Ok(())
}
