//! Rows of values.

ghost use Rattle.std.specs.Prelude.{
  ◌≡◌,
  ◌<◌,
  ◌≤◌,
  ◌+◌,
  ℕ,
  List,
  Some,
  length,
  set,
  slice_get,
  IsPermutation,
  MatchResult,
  OnOk,
};
ghost use Rattle.std.specs.List.{All, sum_by};
ghost use Rattle.parsing.specs.Nodes.{IsColumn};
ghost use Rattle.step_values.specs.Cells.{value_nodes};
ghost use Rattle.step_values.specs.steps.NodeCounts.{nodes_in};
ghost use Rattle.step_values.specs.steps.Building.{AreRunsOf, Holds, rows_by};
ghost use Rattle.step_values.specs.steps.Ordering.{at_positions, cells_at, cells_of, positions_of, row_at, written_over};
ghost use Rattle.step_values.specs.steps.Targets.{LeadTo, targets_of};

use crate::cell::Cell;
use crate::slot::Slots;
use parsing::column::Run;
use std::alloc::AllocError;
use std::marker::Model;

/// Rows of values in one column of cells; the values of each row are side by side.
#[derive(Drop)]
pub struct ValueRows<'a> {
    column: Vec<Cell<'a>>,
    runs: Vec<Run>,
}

impl<'a> Model for ValueRows<'a> {
    ghost use Rattle.step_values.specs.steps.Building.{Kept, coded_kept, Holds, rows_by};
    ghost use Rattle.step_values.specs.steps.Targets.{targets_of};

    ghost Value = { Kept };

    ghost coded = { coded_kept };

    ghost view = { λ r. record {
      rows = rows_by r.column.items r.runs.items;
      targets = targets_of r.column.items;
    } };

    ghost invariant = { λ r. Holds r.column.items r.runs.items };
}

impl<'a> ValueRows<'a> {
    /// Returns the rows that are these runs of the column.
    pub(crate) fn of(column: Vec<Cell<'a>>, runs: Vec<Run>) -> ValueRows<'a>
        requires { Holds column.items runs.items }
        ensures rows { result.rows ≡ rows_by column.entry.items runs.items }
        ensures targets { result.targets ≡ targets_of column.entry.items }
    {
        ValueRows { column, runs }
    }

    /// Returns the number of rows.
    pub fn len(&self) -> usize
        ensures { result ≡ length self.now.rows }
    {
        self.runs.len()
    }

    /// Returns the values of the row with this number, counted from 0. It allocates nothing.
    pub fn row(&self, index: usize) -> Slots<'_, 'a>
        requires { index < length self.now.rows }
        ensures { slice_get self.now.rows index ≡ Some result }
    {
        Slots::of(&self.column, self.runs[index])
    }

    /// Reorders the values of a row: the value at index `i` becomes the one that was at
    /// `positions[i]`. `spare` is a buffer, whose content is lost. If memory runs out, the rows
    /// stay as they were.
    pub fn reorder(
        &mut self,
        index: usize,
        positions: &[usize],
        spare: &mut Vec<Cell<'a>>,
    ) -> Result<(), AllocError>
        requires row { index < length self.old.rows }
        requires order { IsPermutation (positions_of (row_at self.old.rows index)) positions.now }
        ensures rows { MatchResult result
            (λ _. self.new.rows ≡ set self.old.rows index
            (at_positions (row_at self.old.rows index) positions.now))
            (λ _. self.new ≡ self.old) }
        ensures targets { (names : List ℕ) → LeadTo names self.old.targets
            → LeadTo names self.new.targets }
    {
        let run = self.runs[index];
        pick(spare, cells_of(&self.column, run), positions)?;
        write_over(self.column.as_mut_slice(), run, spare);
        Ok(())
    }

    /// Returns the whole column, the values of each row side by side: one cell for each node of a
    /// value, after the cells that are inside it. It allocates nothing.
    pub fn cells(&self) -> &[Cell<'a>]
        ensures column { IsColumn value_nodes result.now }
        ensures count { length result.now ≡ sum_by nodes_in self.now.rows }
        ensures targets { targets_of result.now ≡ self.now.targets }
        ensures rows { AreRunsOf result.now self.now.rows }
    {
        &self.column
    }
}

// Replaces the content of `picked` by the cells at these positions.
fn pick<'a>(
    picked: &mut Vec<Cell<'a>>,
    cells: &[Cell<'a>],
    positions: &[usize],
) -> Result<(), AllocError>
    requires { All (λ k. k < length cells.now) positions.now }
    ensures { OnOk result (picked.new.items ≡ cells_at cells.now positions.now) }
{
    picked.clear();
    for position in positions {
        picked.push(cells[*position])?;
    }
    Ok(())
}

// Returns the cells of a run.
fn cells_of<'c, 'a>(column: &'c [Cell<'a>], run: Run) -> &'c [Cell<'a>]
    requires { run.first + run.count ≤ length column.now }
    ensures { result.now ≡ cells_of column.now run }
{
    &column[run.first..run.first + run.count]
}

// Overwrites the cells of a run.
fn write_over<'a>(column: &mut [Cell<'a>], run: Run, cells: &[Cell<'a>])
    requires within { run.first + run.count ≤ length column.old }
    requires each { length cells.now ≡ run.count }
    ensures { column.new ≡ written_over column.old run cells.now }
{
    column[run.first..run.first + run.count].copy_from_slice(cells);
}
