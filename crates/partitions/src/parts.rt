//! Places in classes.

ghost use Rattle.std.specs.Prelude.{◌≡◌, ◌<◌, ℕ, IfOk, length, slice_index};
ghost use Rattle.partitions.specs.Layouts.{IsLaid, class_in, count, size, parent_of};
ghost use Rattle.partitions.specs.Refinements.{AreMembers};
ghost use Rattle.partitions.specs.Views.{layout};

use std::alloc::{AllocError, Global};

/// A partition of places into classes, both numbered from 0 on. The places of a class are adjacent
/// in `order`. Those that are chosen to be split off come last among them.
#[derive(Drop)]
pub struct Parts {
    /// By place, its class.
    pub(crate) class: Vec<u32>,
    /// By place, its index in `order`.
    pub(crate) index: Vec<u32>,
    /// The places, class by class.
    pub(crate) order: Vec<u32>,
    /// By class, the index in `order` at which its places begin.
    pub(crate) first: Vec<u32>,
    /// By class, the index in `order` at which its chosen places begin.
    pub(crate) middle: Vec<u32>,
    /// By class, the index in `order` at which its places end.
    pub(crate) end: Vec<u32>,
    /// By class, the class that it was split off.
    pub(crate) parent: Vec<u32>,
}

impl Parts {
    /// Returns the number of classes.
    pub fn count(&self) -> usize
        ensures { result ≡ count (layout self.now) }
    {
        self.first.len()
    }

    /// Returns the number of places.
    pub fn len(&self) -> u32
        requires { IsLaid (layout self.now) }
        ensures { result ≡ size (layout self.now) }
    {
        self.class.len() as u32
    }

    /// Returns the number of the class of a place.
    pub fn class(&self, place: u32) -> u32
        requires { place < size (layout self.now) }
        ensures { result ≡ class_in (layout self.now) place }
    {
        self.class[place as usize]
    }

    /// Returns the class that `class` was split off. Class 0 was split off none, so its result has
    /// no meaning.
    pub fn parent(&self, class: u32) -> u32
        requires laid { IsLaid (layout self.now) }
        requires known { class < count (layout self.now) }
        ensures { result ≡ parent_of (layout self.now) class }
    {
        self.parent[class as usize]
    }

    /// Returns the places of a class, each once, in unspecified order.
    pub fn members(&self, class: u32) -> &[u32]
        requires laid { IsLaid (layout self.now) }
        requires known { class < count (layout self.now) }
        ensures { AreMembers (layout self.now) class result.now }
    {
        let first = self.first[class as usize];
        let end = self.end[class as usize];
        &self.order[first as usize..end as usize]
    }
}

/// Returns the numbers below `size`, in order.
pub(crate) fn numbers(alloc: Global, size: u32) -> Result<Vec<u32>, AllocError>
    ensures length { IfOk result (λ v. length v.items ≡ size) }
    ensures each { IfOk result (λ v. (k : ℕ) → k < size → slice_index v.items k ≡ k) }
{
    let mut all = Vec::with_capacity(alloc, size as usize)?;
    for i in 0..size {
        all.push(i)?;
    }
    Ok(all)
}

/// Returns `size` zeros.
pub(crate) fn zeros(alloc: Global, size: u32) -> Result<Vec<u32>, AllocError>
    ensures length { IfOk result (λ v. length v.items ≡ size) }
    ensures each { IfOk result (λ v. (k : ℕ) → k < size → slice_index v.items k ≡ 0) }
{
    let mut all = Vec::with_capacity(alloc, size as usize)?;
    for i in 0..size {
        all.push(0)?;
        let _index = i;
    }
    Ok(all)
}
