//! Maps of instance names, by which references are replaced.

ghost use Rattle.std.specs.Prelude.{◌≡◌, ℕ, IsTrue, true};

/// A map from the instance names of an exchange structure to the names that replace them in
/// references.
pub trait Leads {
    ghost led: { Self → ℕ → ℕ };

    /// Returns the name that `name` is mapped to.
    fn lead(&self, name: u64) -> u64
        ensures { result ≡ led self.now name };

    /// Whether each name is known to be mapped to itself.
    fn is_itself(&self) -> bool
        ensures { result ≡ true → (y : ℕ) → led self.now y ≡ y };
}

/// The map that maps each name to itself.
#[derive(Clone, Copy)]
pub struct Itself;

impl Leads for Itself {
    ghost led = { λ _. λ y. y };

    fn lead(&self, name: u64) -> u64 {
        name
    }

    fn is_itself(&self) -> bool {
        true
    }
}
