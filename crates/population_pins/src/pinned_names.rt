//! Names that are pinned, in a list, each as often as something pins it.

ghost use Rattle.std.specs.Prelude.{◌≡◌, OnOk};
ghost use Rattle.schema_semantics.specs.Names.{Among};
ghost use Rattle.population_pins.specs.steps.Pinning.{Pins};

use std::alloc::AllocError;

/// Pins an instance.
pub fn pin(pinned: &mut Vec<u64>, name: u64) -> Result<(), AllocError>
    ensures { OnOk result (Pins (λ y. y ≡ name) pinned.old pinned.new) }
{
    pinned.push(name)?;
    Ok(())
}

/// Pins instances.
pub fn pin_all(pinned: &mut Vec<u64>, names: &[u64]) -> Result<(), AllocError>
    ensures { OnOk result (Pins (λ y. Among y names.now) pinned.old pinned.new) }
{
    for name in names {
        pin(pinned, *name)?;
    }
    Ok(())
}
