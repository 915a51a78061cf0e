//! The names of instances, in the order of the file.

ghost use Rattle.std.specs.Prelude.{◌≡◌, ◌≤◌, [], ◌∷◌, ◌++◌, length, IfOk};
ghost use Rattle.step_structures.specs.Fits;
ghost use Rattle.step_records.specs.steps.Names.{AreFirst};

use indexmap::IndexSet;
use std::alloc::{AllocError, Global};
use std::hash::RandomState;
use std::marker::Model;

/// Names of instances, in the order in which they came.
///
/// In most files names rise, and then none is looked up. A name that isn't greater than all before
/// it is looked up in a set, after the names before it are inserted there, each once. The set's
/// hash keys are random, so no file can be crafted to make look-ups slow.
#[derive(Drop)]
pub struct Names {
    list: Vec<u64>,
    greatest: u64,
    // The first `looked_up` names of the list.
    set: IndexSet<u64, RandomState>,
    looked_up: usize,
}

impl Model for Names {
    ghost use Rattle.std.specs.Prelude.{ℕ, List};
    ghost use Rattle.step_records.specs.steps.Names.{IsKept};

    ghost Value = { List ℕ };

    ghost view = { λ n. n.list.items };

    ghost invariant = { λ n. IsKept n.list.items n.greatest n.set.keys n.looked_up };
}

// Inserts the names of a list that aren't in the set yet.
fn look_up(
    set: &mut IndexSet<u64, RandomState>,
    looked_up: &mut usize,
    list: &[u64],
) -> Result<(), AllocError>
    requires { AreFirst set.old.keys looked_up.old list.now }
    ensures first { AreFirst set.new.keys looked_up.new list.now }
    ensures all { IfOk result (λ _. length list.now ≤ looked_up.new) }
{
    while *looked_up < list.len() {
        set.insert(list[*looked_up])?;
        *looked_up += 1;
    }
    Ok(())
}

impl Names {
    /// Returns an empty list of names. It allocates no memory.
    pub fn new(alloc: Global, keys: RandomState) -> Self
        ensures { result ≡ [] }
    {
        Names {
            list: Vec::new(alloc),
            greatest: 0,
            set: IndexSet::with_hasher(alloc, keys),
            looked_up: 0,
        }
    }

    /// Reserves room for more names.
    ///
    /// `AllocError` means that there isn't that much memory. The names are unchanged either way.
    pub fn reserve(&mut self, names: usize) -> Result<(), AllocError>
        ensures { self.new ≡ self.old }
    {
        self.list.reserve(names)
    }

    /// Returns the number of names.
    pub fn len(&self) -> usize
        ensures { result ≡ length self.now }
    {
        self.list.len()
    }

    /// Returns the names, in the order in which they came.
    pub fn as_slice(&self) -> &[u64]
        ensures { result.now ≡ self.now }
    {
        &self.list
    }

    /// Whether `name` is one of the names. If memory runs out, no name is lost.
    pub fn contains(&mut self, name: u64) -> Result<bool, AllocError>
        ensures same { self.new ≡ self.old }
        ensures found { IfOk result (λ is. is ≡ Fits.has_name name self.old) }
    {
        if name > self.greatest {
            return Ok(false);
        }
        look_up(&mut self.set, &mut self.looked_up, &self.list)?;
        Ok(self.set.contains(&name))
    }

    /// Appends a name. If memory runs out, the names are unchanged.
    pub fn push(&mut self, name: u64) -> Result<(), AllocError>
        ensures { IfOk result (λ _. self.new ≡ self.old ++ name ∷ []) }
    {
        self.list.push(name)?;
        self.greatest = self.greatest.max(name);
        Ok(())
    }
}
