//! References, found by the names of the instances that they refer to.

ghost use Rattle.std.specs.Prelude.{◌≡◌, ℕ, true, IfOk, map};
ghost use Rattle.graphs.specs.Referrers.{
  referrers_of,
  AreByTarget,
  AreBelow,
  AreFrom,
  Begin,
  End,
  AreEnds,
};

use std::alloc::{AllocError, Global};
use std::marker::Model;

/// The number of references that are tested one by one before a binary search, since most targets
/// have few.
const FEW: usize = 4;

/// A reference: the name of the instance that is referred to, and the name of the one that refers.
#[derive(Clone, Copy, Debug, PartialEq, Eq)]
pub struct Reference {
    pub target: u64,
    pub referrer: u64,
}

/// References, sorted by their targets. References to one target keep the order in which they came.
#[derive(Drop)]
pub struct Referrers {
    references: Vec<Reference>,
    referrers: Vec<u64>,
}

impl Model for Referrers {
    ghost use Rattle.std.specs.Prelude.{List, ◌≡◌, map};
    ghost use Rattle.graphs.specs.declared.referrers.Reference.{Reference};
    ghost use Rattle.graphs.specs.Referrers.{AreByTarget};

    ghost Value = { List Reference };

    ghost view = { λ x. x.references.items };

    ghost invariant = { λ x. AreByTarget x.references.items
        × (x.referrers.items ≡ map (λ r. r.referrer) x.references.items) };
}

impl Referrers {
    /// Returns the index of these references: for each target its referrers, in their order in
    /// `references`.
    ///
    /// It takes time by the number of references times its logarithm, however many refer to one
    /// target.
    pub fn of(alloc: Global, references: Vec<Reference>) -> Result<Referrers, AllocError>
        ensures { IfOk result
            (λ x. (target : ℕ) → referrers_of target x ≡ referrers_of target references.items) }
    {
        let mut references = references;
        references.sort_by_key(|reference| reference.target)?;
        let referrers = names_of(alloc, &references)?;
        Ok(Referrers {
            references,
            referrers,
        })
    }

    /// Returns the names of the instances that refer to `target`, once for each reference, in the
    /// order in which the references came. It allocates no memory.
    pub fn find(&self, target: u64) -> &[u64]
        ensures { result.now ≡ referrers_of target self.now }
    {
        let (found, _) = self.find_near(target, 0);
        found
    }

    /// Returns the names of the instances that refer to `target`, and the index at which the
    /// references to it end. If they begin at index `near`, no search is needed: the references to
    /// the next target begin where those to the last one end. It allocates no memory.
    pub fn find_near(&self, target: u64, near: usize) -> (&[u64], usize)
        ensures { result.0.now ≡ referrers_of target self.now }
    {
        let (first, end) = ends(&self.references, target, near);
        if end < first {
            return (&[], end);
        }
        (&self.referrers[first..end], end)
    }
}

/// Whether the last reference before index `at` shows that all references before `at` have targets
/// below `target`.
fn are_below(references: &[Reference], target: u64, at: usize) -> bool
    requires { AreByTarget references.now }
    ensures { result ≡ true → AreBelow target at references.now }
{
    if at == 0 {
        return true;
    }
    if at > references.len() {
        return false;
    }
    references[at - 1].target < target
}

/// Whether the reference at index `at` shows that no reference from `at` on has a target below
/// `target`.
fn are_from(references: &[Reference], target: u64, at: usize) -> bool
    requires { AreByTarget references.now }
    ensures { result ≡ true → AreFrom target at references.now }
{
    if at >= references.len() {
        return true;
    }
    references[at].target >= target
}

/// Returns the index at which the references to `target` begin, or would begin: `near` if they
/// begin there.
fn begin_near(references: &[Reference], target: u64, near: usize) -> usize
    requires { AreByTarget references.now }
    ensures { Begin target result references.now }
{
    if are_below(references, target, near) && are_from(references, target, near) {
        return near;
    }
    references.partition_point(|reference| reference.target < target)
}

/// Returns the index at which the references to `target` end, if they begin at `first` or would
/// begin there.
fn end_behind(references: &[Reference], first: usize, target: u64) -> usize
    requires sorted { AreByTarget references.now }
    requires begin { Begin target first references.now }
    ensures { End target result references.now }
{
    let few = references.len().min(first.saturating_add(FEW));
    for end in first..few {
        if references[end].target != target {
            return end;
        }
    }
    references.partition_point(|reference| reference.target <= target)
}

/// Returns the indices at which the references to `target` begin and end. If they begin at `near`,
/// no search for the beginning is needed.
fn ends(references: &[Reference], target: u64, near: usize) -> (usize, usize)
    requires { AreByTarget references.now }
    ensures { AreEnds target result.0 result.1 references.now }
{
    let first = begin_near(references, target, near);
    (first, end_behind(references, first, target))
}

/// Returns the referrers of these references, in turn.
fn names_of(alloc: Global, references: &[Reference]) -> Result<Vec<u64>, AllocError>
    ensures { IfOk result (λ v. v.items ≡ map (λ r. r.referrer) references.now) }
{
    let mut referrers = Vec::with_capacity(alloc, references.len())?;
    for reference in references {
        referrers.push(reference.referrer)?;
    }
    Ok(referrers)
}
