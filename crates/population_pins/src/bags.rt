//! Pinning what occurs in SETs and BAGs (ISO 10303-11, 8.2.3 and 8.2.4). With `in_sets` those of one
//! value pin nothing.

ghost use Rattle.std.specs.Prelude.{◌≡◌, OnOk};
ghost use Rattle.conformance.specs.CollectionMembers.{pins_members, InBag, InBagOf};
ghost use Rattle.step_values.specs.steps.Slots.{kind_of, node_value};
ghost use Rattle.population_pins.specs.steps.Bags.{is_of_parts};
ghost use Rattle.population_pins.specs.steps.Pinning.{Pins};

use crate::targets::pin_each_target;
use std::alloc::AllocError;
use step_values::slot::{Kind, Node, Slot, Slots};

/// Whether a value can have parts.
fn has_parts(value: &Slot<'_, '_>) -> bool
    ensures { result ≡ is_of_parts (kind_of value.now) }
{
    matches!(value.kind(), Kind::Typed | Kind::List | Kind::Bag)
}

/// Whether a SET or BAG of these values pins what occurs in it.
fn pins_members(in_sets: bool, values: &Slots<'_, '_>) -> bool
    ensures { result ≡ pins_members in_sets values.now }
{
    !in_sets || values.len() > 1
}

/// Pins the instances that occur, at any depth, in a SET or BAG that pins them and that is the value
/// or is inside it.
#[cycle(bags)]
#[inline(always)]
pub fn pin_in_bags(
    pinned: &mut Vec<u64>,
    in_sets: bool,
    value: &Slot<'_, '_>,
) -> Result<(), AllocError>
    ensures { OnOk result (Pins (λ y. InBag in_sets y value.now) pinned.old pinned.new) }
{
    // most values have no parts
    if !has_parts(value) {
        return Ok(());
    }
    pin_in_bags_of_node(pinned, in_sets, &value.node())
}

/// Pins the instances that occur, at any depth, in a SET or BAG that pins them and that is the value
/// of a node or is inside it.
#[cycle(bags)]
#[inline(never)]
fn pin_in_bags_of_node(
    pinned: &mut Vec<u64>,
    in_sets: bool,
    node: &Node<'_, '_>,
) -> Result<(), AllocError>
    ensures { OnOk result
        (Pins (λ y. InBag in_sets y (node_value node.now)) pinned.old pinned.new) }
{
    match node {
        Node::Typed(_, inner) => pin_in_bags(pinned, in_sets, inner),
        Node::Sequence(values) => pin_in_bags_of_each(pinned, in_sets, values),
        Node::Bag(values) => {
            if pins_members(in_sets, values) {
                pin_each_target(pinned, values)
            } else {
                pin_in_bags_of_each(pinned, in_sets, values)
            }
        }
        _ => Ok(()),
    }
}

/// Pins the instances that occur, at any depth, in a SET or BAG that pins them and that is one of
/// these values or is inside one.
#[cycle(bags)]
fn pin_in_bags_of_each(
    pinned: &mut Vec<u64>,
    in_sets: bool,
    values: &Slots<'_, '_>,
) -> Result<(), AllocError>
    ensures { OnOk result (Pins (λ y. InBagOf in_sets y values.now) pinned.old pinned.new) }
{
    for i in 0..values.len() {
        pin_in_bags(pinned, in_sets, &values.at(i))?;
    }
    Ok(())
}
