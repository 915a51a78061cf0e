//! What the weak rules pin, as it is collected.

ghost use Rattle.std.specs.Prelude.{◌≡◌, ℕ, IfOk};
ghost use Rattle.population_pins.specs.PopulationPins.{is_pinned};
ghost use Rattle.population_pins.specs.steps.Pinning.{has_name};

use crate::lists::UniqueLists;
use crate::pin_names::Pins;
use crate::weak_pins::WeakPins;
use std::alloc::{AllocError, Global};
use std::collections::BTreeSet;

/// What the weak rules pin, and the lists by which the gentle rules do, collected instance by
/// instance.
#[derive(Drop)]
pub(crate) struct Gathered {
    /// The names that are pinned, in any order, each as often as something pins it.
    pub(crate) names: Vec<u64>,
    pub(crate) lists: UniqueLists,
}

impl Gathered {
    /// Returns the pins, each name once. Names are sorted together, because sorting them one by one
    /// takes several times as long.
    pub(crate) fn into_pins(self, alloc: Global) -> Result<WeakPins, AllocError>
        ensures names { IfOk result (λ w. (y : ℕ) → is_pinned w.pins y ≡ has_name self.names y) }
        ensures lists { IfOk result (λ w. w.lists ≡ self.lists) }
    {
        let Gathered { names, lists } = self;
        let names = BTreeSet::from_iter(alloc, names)?;
        Ok(WeakPins {
            pins: Pins { names },
            lists,
        })
    }
}
