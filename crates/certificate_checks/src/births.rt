//! The classes of a table that are split off others.

ghost use Rattle.std.specs.Prelude.{map, IfOk, OnOk};
ghost use Rattle.value_equality.specs.TableViews.{origin_of};
ghost use Rattle.certificate_checks.specs.steps.ComputedSplits.{AddsBirth, AreBirthsOf};

use split_checks::births::Birth;
use std::alloc::{AllocError, Global};
use value_equality::table::Origin;

/// Returns the classes that are split off others, each with its parent and its round.
pub(crate) fn births_of(alloc: Global, classes: &[Origin]) -> Result<Vec<Birth>, AllocError>
    ensures { IfOk result (λ v. AreBirthsOf (map origin_of classes.now) v.items) }
{
    let mut births = Vec::new(alloc);
    for class in 0..classes.len() {
        push_birth(&mut births, class, classes[class])?;
    }
    Ok(births)
}

/// Adds a class, if it is split off another one.
fn push_birth(births: &mut Vec<Birth>, class: usize, origin: Origin) -> Result<(), AllocError>
    ensures { OnOk result (AddsBirth class (origin_of origin) births.old.items births.new.items) }
{
    match origin {
        Origin::Start => Ok(()),
        Origin::Split { parent, round } => {
            births.push(Birth {
                class,
                parent,
                round,
            })?;
            Ok(())
        }
    }
}
