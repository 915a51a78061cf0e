//! The instances that are elements of the same LIST or ARRAY OF UNIQUE.

ghost use Rattle.std.specs.Prelude.{
  ◌≡◌,
  ◌<◌,
  ◌≤◌,
  ◌++◌,
  [],
  length,
  slice_get,
  Some,
  MatchResult,
  OnOk,
};
ghost use Rattle.population_pins.specs.Lists.{names_in, stand_in, with_list};
ghost use Rattle.population_pins.specs.steps.Runs.{AreWithin, list_at, lists_at};

use std::alloc::{AllocError, Global};
use std::marker::Model;
use step_values::slot::{Node, Slot, Slots};

/// Where the names of one list are among those of all.
#[derive(Clone, Copy)]
struct Run {
    first: usize,
    /// One past the last of them.
    end: usize,
}

/// The instances that are elements of LISTs and ARRAYs OF UNIQUE, list by list. Lists with fewer
/// than two instances are left out.
#[derive(Drop)]
pub struct UniqueLists {
    /// The names of all lists, list by list.
    names: Vec<u64>,
    runs: Vec<Run>,
}

impl Model for UniqueLists {
    ghost use Rattle.std.specs.Prelude.{ℕ, List};
    ghost use Rattle.population_pins.specs.steps.Runs.{AreWithin, lists_at};

    ghost Value = { List (List ℕ) };

    ghost view = { λ l. lists_at l.names.items l.runs.items };

    ghost invariant = { λ l. AreWithin l.names.items l.runs.items };
}

/// Adds the name of an element that is an instance; for other elements nothing.
fn push_element(names: &mut Vec<u64>, value: &Slot<'_, '_>) -> Result<(), AllocError>
    ensures { MatchResult result
        (λ _. names.new.items ≡ names.old.items ++ names_in value.now)
        (λ _. names.new.items ≡ names.old.items) }
{
    if let Node::Reference(name, _) = value.node() {
        names.push(name)?;
    }
    Ok(())
}

/// Adds the names of these elements that are instances. If memory runs out, some may be added, and
/// none is removed.
fn push_elements(names: &mut Vec<u64>, values: &Slots<'_, '_>) -> Result<(), AllocError>
    ensures added { OnOk result (names.new.items ≡ names.old.items ++ stand_in values.now) }
    ensures longer { length names.old.items ≤ length names.new.items }
{
    for i in 0..values.len() {
        push_element(names, &values.at(i))?;
    }
    Ok(())
}

/// Adds a list of these elements, if two or more of them are instances.
fn push_list(
    names: &mut Vec<u64>,
    runs: &mut Vec<Run>,
    values: &Slots<'_, '_>,
) -> Result<(), AllocError>
    ensures within { AreWithin names.old.items runs.old.items
        → AreWithin names.new.items runs.new.items }
    ensures lists { AreWithin names.old.items runs.old.items
        → OnOk result (lists_at names.new.items runs.new.items
        ≡ with_list (lists_at names.old.items runs.old.items) (stand_in values.now)) }
{
    let first = names.len();
    push_elements(names, values)?;
    let end = names.len();
    let count = end - first;
    if count < 2 {
        names.truncate(first);
        return Ok(());
    }
    runs.push(Run { first, end })?;
    Ok(())
}

/// Returns the names of a list.
fn names_at(names: &[u64], run: Run) -> &[u64]
    requires order { run.first ≤ run.end }
    requires within { run.end ≤ length names.now }
    ensures { result.now ≡ list_at names.now run }
{
    &names[run.first..run.end]
}

/// Returns the names of the list with this number.
fn list_in<'n>(names: &'n [u64], runs: &[Run], index: usize) -> &'n [u64]
    requires within { AreWithin names.now runs.now }
    requires index { index < length runs.now }
    ensures { slice_get (lists_at names.now runs.now) index ≡ Some result.now }
{
    let run = runs[index];
    names_at(names, run)
}

impl UniqueLists {
    /// Returns no lists. It allocates no memory.
    pub fn new(alloc: Global) -> UniqueLists
        ensures { result ≡ [] }
    {
        UniqueLists {
            names: Vec::new(alloc),
            runs: Vec::new(alloc),
        }
    }

    /// Adds a list of these elements. Elements that aren't instances are left out, and so are lists
    /// with fewer than two instances, which have no two that can be merged.
    pub(crate) fn add(&mut self, values: &Slots<'_, '_>) -> Result<(), AllocError>
        ensures { OnOk result (self.new ≡ with_list self.old (stand_in values.now)) }
    {
        push_list(&mut self.names, &mut self.runs, values)
    }

    /// Returns the number of lists.
    pub fn len(&self) -> usize
        ensures { result ≡ length self.now }
    {
        self.runs.len()
    }

    /// Returns the instances of a list, in order.
    pub fn list(&self, index: usize) -> &[u64]
        requires { index < length self.now }
        ensures { slice_get self.now index ≡ Some result.now }
    {
        list_in(&self.names, &self.runs, index)
    }
}
