//! The instances that keep their identity.

ghost use Rattle.std.specs.Prelude.{◌≡◌, ℕ, IsTrue, ◌↔◌};
ghost use Rattle.population_pins.specs.PopulationPins.{is_pinned};

use std::collections::BTreeSet;

/// The instances that keep their identity, by name.
#[derive(Drop)]
pub struct Pins {
    pub(crate) names: BTreeSet<u64>,
}

impl Pins {
    /// Returns the names of the pinned instances, in order. It allocates no memory.
    pub fn names(&self) -> &BTreeSet<u64>
        ensures { result.now ≡ self.now.names }
    {
        &self.names
    }

    /// Whether the instance with this name is pinned. It allocates no memory.
    pub fn is_pinned(&self, name: u64) -> bool
        ensures { result ≡ is_pinned self.now name }
    {
        self.names.contains(&name)
    }

    /// Whether both pin exactly the same names. It allocates no memory.
    pub fn are_same(&self, other: &Pins) -> bool
        ensures { IsTrue result ↔ ((y : ℕ) → is_pinned self.now y ≡ is_pinned other.now y) }
    {
        // their contracts say that the names ascend
        let _these = self.names.len();
        let _others = other.names.len();
        self.names == other.names
    }
}
