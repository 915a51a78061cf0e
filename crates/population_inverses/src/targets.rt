//! The instances that a value refers to.

ghost use Rattle.std.specs.Prelude.{◌≡◌, ◌++◌, OnOk};
ghost use Rattle.population_inverses.specs.steps.Targets.{targets, targets_of_each};

use std::alloc::AllocError;
use step_values::slot::{Node, Slot, Slots};

/// Adds the names that `value` refers to, at any depth and in order, each as often as it occurs.
#[cycle(targets)]
pub(crate) fn add_targets(names: &mut Vec<u64>, value: &Slot<'_, '_>) -> Result<(), AllocError>
    ensures { OnOk result (names.new.items ≡ names.old.items ++ targets value.now) }
{
    match value.node() {
        Node::Reference(name, _) => {
            names.push(name)?;
            Ok(())
        }
        Node::Typed(_, inner) => add_targets(names, &inner),
        Node::Sequence(values) => add_targets_of_each(names, &values),
        Node::Bag(values) => add_targets_of_each(names, &values),
        _ => Ok(()),
    }
}

/// Adds the names that `values` refer to, at any depth and in order, each as often as it occurs.
#[cycle(targets)]
fn add_targets_of_each(names: &mut Vec<u64>, values: &Slots<'_, '_>) -> Result<(), AllocError>
    ensures { OnOk result (names.new.items ≡ names.old.items ++ targets_of_each values.now) }
{
    for i in 0..values.len() {
        add_targets(names, &values.at(i))?;
    }
    Ok(())
}
