//! Pinning the targets of a value's references.

ghost use Rattle.std.specs.Prelude.{OnOk};
ghost use Rattle.conformance.specs.SeparatingMaps.{Occurs, OccursIn};
ghost use Rattle.population_pins.specs.steps.Pinning.{Pins};

use crate::pinned_names::pin;
use std::alloc::AllocError;
use step_values::slot::{Node, Slot, Slots};

/// Pins the instances to which a value refers, at any depth.
#[cycle(targets)]
pub fn pin_targets(pinned: &mut Vec<u64>, value: &Slot<'_, '_>) -> Result<(), AllocError>
    ensures { OnOk result (Pins (λ y. Occurs y value.now) pinned.old pinned.new) }
{
    match value.node() {
        Node::Reference(name, _) => pin(pinned, name),
        Node::Typed(_, inner) => pin_targets(pinned, &inner),
        Node::Sequence(values) => pin_each_target(pinned, &values),
        Node::Bag(values) => pin_each_target(pinned, &values),
        _ => Ok(()),
    }
}

/// Pins the instances to which one of these values refers, at any depth.
#[cycle(targets)]
pub fn pin_each_target(pinned: &mut Vec<u64>, values: &Slots<'_, '_>) -> Result<(), AllocError>
    ensures { OnOk result (Pins (λ y. OccursIn y values.now) pinned.old pinned.new) }
{
    for i in 0..values.len() {
        pin_targets(pinned, &values.at(i))?;
    }
    Ok(())
}
