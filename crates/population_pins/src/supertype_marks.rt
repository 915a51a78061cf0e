//! Marks of the supertypes of a form's types, which cost as much as the supertypes of its leaves.

ghost use Rattle.std.specs.Prelude.{◌≡◌, ℕ, List, [], ◌∷◌, ◌++◌, length, IfOk, OnOk};
ghost use Rattle.graphs.specs.Graphs.{Graph, graph_of, next};
ghost use Rattle.population_forms.specs.steps.Marked.{is_above};
ghost use Rattle.population_pins.specs.steps.SupertypeLists.{
  IsTransitive,
  AreMarked,
  AreClear,
  Lists,
  AreAmong,
  is_marked,
};

use graphs::rows::{add_new, unmark};
use std::alloc::{AllocError, Global};

/// The supertypes of some types, as a list and as marks.
#[derive(Drop)]
pub(crate) struct SupertypeMarks {
    /// The numbers of the supertypes, each once.
    numbers: Vec<u32>,
    /// For each declaration, whether it is one of the supertypes.
    marks: Vec<bool>,
}

/// Returns the row with this number; empty if there is none.
fn row_at(rows: &[Vec<u32>], number: u32) -> &[u32]
    ensures { result.now ≡ next (graph_of rows.now) number }
{
    match rows.get(number as usize) {
        Some(row) => row,
        None => &[],
    }
}

/// Returns the position of the type with the most supertypes.
///
/// It has no contract, because it only saves time: other types are marked by this one's
/// supertypes, mostly.
fn deepest(above: &[Vec<u32>], types: &[u32]) -> usize {
    let mut deepest: usize = 0;
    let mut most: usize = 0;
    for position in 0..types.len() {
        let count = row_at(above, types[position]).len();
        if count > most {
            deepest = position;
            most = count;
        }
    }
    deepest
}

impl SupertypeMarks {
    /// Returns `count` marks, none of them set.
    fn unset(alloc: Global, count: usize) -> Result<SupertypeMarks, AllocError>
        ensures { (above : Graph) → length above ≡ count → IfOk result (AreClear above) }
    {
        let marks = vec![in alloc; false; count]?;
        Ok(SupertypeMarks {
            numbers: Vec::new(alloc),
            marks,
        })
    }

    /// Returns a mark for each row of `above`, none of them set.
    pub(crate) fn of(alloc: Global, above: &[Vec<u32>]) -> Result<SupertypeMarks, AllocError>
        ensures { IfOk result (AreClear (graph_of above.now)) }
    {
        SupertypeMarks::unset(alloc, above.len())
    }

    /// Whether the declaration with this number is marked.
    pub(crate) fn contains(&self, number: u32) -> bool
        ensures { result ≡ is_marked self.now number }
    {
        match self.marks.get(number as usize) {
            Some(mark) => *mark,
            None => false,
        }
    }

    /// Marks the supertypes of a type. If the type is marked itself, they are marked already.
    fn mark(&mut self, above: &[Vec<u32>], entity: u32) -> Result<(), AllocError>
        requires above { IsTransitive (graph_of above.now) }
        requires marked { AreMarked (graph_of above.now) self.old }
        ensures marked { OnOk result (AreMarked (graph_of above.now) self.new) }
        ensures lists { (some : List ℕ) → Lists (graph_of above.now) some self.old
            → OnOk result (Lists (graph_of above.now) (some ++ entity ∷ []) self.new) }
    {
        if self.contains(entity) {
            return Ok(());
        }
        add_new(&mut self.numbers, &mut self.marks, row_at(above, entity))
    }

    /// Marks the supertypes of the type that has the most.
    fn mark_deepest(&mut self, above: &[Vec<u32>], types: &[u32]) -> Result<(), AllocError>
        requires above { IsTransitive (graph_of above.now) }
        requires marked { AreMarked (graph_of above.now) self.old }
        ensures marked { OnOk result (AreMarked (graph_of above.now) self.new) }
        ensures lists { Lists (graph_of above.now) [] self.old
            → OnOk result (AreAmong (graph_of above.now) types.now self.new) }
    {
        match types.get(deepest(above, types)) {
            Some(entity) => self.mark(above, *entity),
            None => Ok(()),
        }
    }

    /// Marks the supertypes of each of these types.
    fn mark_each(&mut self, above: &[Vec<u32>], types: &[u32]) -> Result<(), AllocError>
        requires above { IsTransitive (graph_of above.now) }
        requires marked { AreMarked (graph_of above.now) self.old }
        ensures marked { OnOk result (AreMarked (graph_of above.now) self.new) }
        ensures lists { (some : List ℕ) → Lists (graph_of above.now) some self.old
            → OnOk result (Lists (graph_of above.now) (some ++ types.now) self.new) }
    {
        for entity in types {
            self.mark(above, *entity)?;
        }
        Ok(())
    }

    /// Marks exactly the supertypes of these types. `above` lists the supertypes of each entity.
    ///
    /// It takes time for each type, and for the supertypes of each type that none before it has as
    /// a supertype. The type with the most supertypes comes first.
    pub(crate) fn mark_above(&mut self, above: &[Vec<u32>], types: &[u32]) -> Result<(), AllocError>
        requires above { IsTransitive (graph_of above.now) }
        requires clear { AreClear (graph_of above.now) self.old }
        ensures marked { OnOk result (AreMarked (graph_of above.now) self.new) }
        ensures told { OnOk result ((i : ℕ)
            → is_marked self.new i ≡ is_above (graph_of above.now) types.now i) }
    {
        self.mark_deepest(above, types)?;
        self.mark_each(above, types)
    }

    /// Clears the marks that are set.
    pub(crate) fn clear(&mut self)
        requires { (above : Graph) × AreMarked above self.old }
        ensures { (above : Graph) → AreMarked above self.old → AreClear above self.new }
    {
        unmark(&mut self.marks, &self.numbers);
        self.numbers.clear();
    }
}
