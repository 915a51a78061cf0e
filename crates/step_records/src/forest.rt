//! Trees of parameters that were read.

ghost use Rattle.std.specs.Prelude.{◌≡◌, [], length};
ghost use Rattle.step_records.specs.steps.Building.{Builds, kept_by};

use crate::cell::Cell;
use crate::param::Params;
use std::marker::Model;

/// Trees of parameters over a text, in one column.
#[derive(Drop)]
pub struct Forest<'a> {
    text: &'a [u8],
    cells: Vec<Cell>,
    kept: Vec<Cell>,
}

impl<'a> Model for Forest<'a> {
    ghost use Rattle.std.specs.Prelude.{List, []};
    ghost use Rattle.step_structures.specs.Trees.{Tree};
    ghost use Rattle.step_records.specs.steps.ComputedCodes.{coded_trees};
    ghost use Rattle.step_records.specs.steps.Building.{Builds, kept_by};

    ghost Value = { List Tree };

    ghost coded = { coded_trees };

    ghost view = { λ f. kept_by f.text.now f.cells.items f.kept.items };

    ghost invariant = { λ f. Builds f.text.now f.cells.items f.kept.items [] };
}

impl<'a> Forest<'a> {
    /// Returns the trees of these cells over a column.
    pub(crate) fn of(text: &'a [u8], cells: Vec<Cell>, kept: Vec<Cell>) -> Forest<'a>
        requires { Builds text.now cells.items kept.items [] }
        ensures { result ≡ kept_by text.now cells.items kept.items }
    {
        Forest { text, cells, kept }
    }

    /// Returns the trees.
    pub fn trees(&self) -> Params<'a, '_>
        ensures { result ≡ self.now }
    {
        Params::of(self.text, &self.cells, &self.kept)
    }

    /// Returns the number of trees.
    pub fn len(&self) -> usize
        ensures { result ≡ length self.now }
    {
        self.kept.len()
    }
}
