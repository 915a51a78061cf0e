//! Building rows of values.

ghost use Rattle.std.specs.Prelude.{
  ◌≡◌,
  ◌<◌,
  ◌≤◌,
  ◌++◌,
  [],
  ◌∷◌,
  List,
  Some,
  length,
  take,
  drop,
  slice_get,
  IfOk,
  MatchResult,
};
ghost use Rattle.step_values.specs.Cells.{flat_value, reach_of};
ghost use Rattle.step_values.specs.Leaves.{unset, derived, element};
ghost use Rattle.step_values.specs.steps.Targets.{LeadTo, ReferTo, target_of};
ghost use Rattle.step_values.specs.Values.{Value, leaf, reference, typed, sequence, bag};
ghost use Rattle.step_values.specs.Views.{
  all_of,
  word_of,
  number_leaf,
  text_leaf,
  bits_leaf,
};

use crate::cell::Cell;
use crate::place::split;
use crate::rows::ValueRows;
use parsing::column::{Column, Run};
use std::alloc::{AllocError, Global};
use std::marker::Model;
use std::mem;
use step_literals::literal::{Bits, Decimal, Text, Word};

/// Rows of values over the names of all rows, written to one column as values are pushed.
///
/// Each value is pending until its container is closed: a typed value, a list, or a row. If memory
/// runs out, pending values and rows may be lost; the names stay.
#[derive(Drop)]
pub struct RowBuilder<'n, 'a> {
    names: &'n [u64],
    alloc: Global,
    cells: Column<Cell<'a>>,
    runs: Vec<Run>,
}

impl<'n, 'a> Model for RowBuilder<'n, 'a> {
    ghost use Rattle.step_values.specs.steps.Building.{Building, coded_building, built, Builds};

    ghost Value = { Building };

    ghost coded = { coded_building };

    ghost view = { λ b. built b.names.now b.cells.column b.runs.items b.cells.pending };

    ghost invariant = { λ b. Builds b.names.now b.cells.column b.runs.items b.cells.pending };
}

impl<'n, 'a> RowBuilder<'n, 'a> {
    /// Returns a builder without values and rows, over the names of all rows that there will be, in
    /// order of their numbers. It allocates nothing.
    pub fn new(alloc: Global, names: &'n [u64]) -> Self
        ensures { result ≡ record { names = names.now; rows = []; pending = [] } }
    {
        RowBuilder {
            names,
            alloc,
            cells: Column::new(alloc),
            runs: Vec::new(alloc),
        }
    }

    /// Reserves room for `cells` more cells and `rows` more rows. The values stay the same, even if
    /// memory runs out; later pushes allocate whatever they need.
    pub fn reserve(&mut self, cells: usize, rows: usize) -> Result<(), AllocError>
        ensures { self.new ≡ self.old }
    {
        self.cells.reserve(cells)?;
        self.runs.reserve(rows)
    }

    /// Returns the number of pending values: the mark for closing a list that opens now.
    pub fn pending_len(&self) -> usize
        ensures { result ≡ length self.now.pending }
    {
        self.cells.pending_len()
    }

    /// Adds an unset value to the pending values.
    pub fn push_unset(&mut self) -> Result<(), AllocError>
        ensures { MatchResult result
            (λ _. self.new ≡ record self.old {
              pending = self.old.pending ++ leaf unset ∷ [];
            })
            (λ _. self.new.names ≡ self.old.names) }
    {
        self.push(Cell::Unset)
    }

    /// Adds the value of a redeclared attribute that is derived to the pending values.
    pub fn push_derived(&mut self) -> Result<(), AllocError>
        ensures { MatchResult result
            (λ _. self.new ≡ record self.old {
              pending = self.old.pending ++ leaf derived ∷ [];
            })
            (λ _. self.new.names ≡ self.old.names) }
    {
        self.push(Cell::Derived)
    }

    /// Adds a number to the pending values.
    pub fn push_number(&mut self, number: Decimal<'a>) -> Result<(), AllocError>
        ensures { MatchResult result
            (λ _. self.new ≡ record self.old {
              pending = self.old.pending ++ leaf (number_leaf number.entry) ∷ [];
            })
            (λ _. self.new.names ≡ self.old.names) }
    {
        self.push(Cell::Number(number))
    }

    /// Adds a string to the pending values.
    pub fn push_text(&mut self, text: Text<'a>) -> Result<(), AllocError>
        ensures { MatchResult result
            (λ _. self.new ≡ record self.old {
              pending = self.old.pending ++ leaf (text_leaf text.entry) ∷ [];
            })
            (λ _. self.new.names ≡ self.old.names) }
    {
        self.push(Cell::Text(text))
    }

    /// Adds a binary to the pending values.
    pub fn push_bits(&mut self, bits: Bits<'a>) -> Result<(), AllocError>
        ensures { MatchResult result
            (λ _. self.new ≡ record self.old {
              pending = self.old.pending ++ leaf (bits_leaf bits.entry) ∷ [];
            })
            (λ _. self.new.names ≡ self.old.names) }
    {
        self.push(Cell::Bits(bits))
    }

    /// Adds an element of an enumeration to the pending values.
    pub fn push_element(&mut self, word: Word<'a>) -> Result<(), AllocError>
        ensures { MatchResult result
            (λ _. self.new ≡ record self.old {
              pending = self.old.pending ++ leaf (element (word_of word.entry)) ∷ [];
            })
            (λ _. self.new.names ≡ self.old.names) }
    {
        self.push(Cell::Element(word))
    }

    /// Adds a reference to the row with this name and number to the pending values.
    pub fn push_reference(&mut self, name: u64, row: u32) -> Result<(), AllocError>
        requires { slice_get self.old.names row ≡ Some name }
        ensures { MatchResult result
            (λ _. self.new ≡ record self.old {
              pending = self.old.pending ++ reference name ∷ [];
            })
            (λ _. self.new.names ≡ self.old.names) }
    {
        self.push(Cell::Reference { name, row })
    }

    // Adds the value of a cell that has nothing inside to the pending values.
    fn push(&mut self, cell: Cell<'a>) -> Result<(), AllocError>
        requires flat { reach_of cell ≡ 0 }
        requires leads { LeadTo self.old.names (target_of cell) }
        ensures { MatchResult result
            (λ _. self.new ≡ record self.old {
              pending = self.old.pending ++ flat_value cell.entry ∷ [];
            })
            (λ _. self.new.names ≡ self.old.names) }
    {
        self.cells.push_pending(cell)?;
        Ok(())
    }

    /// Replaces the last pending value by a typed value around it, with the name of its type.
    ///
    /// Fails with `AllocError` if memory runs out, and if the column has 2^40 cells or more.
    pub fn close_typed(&mut self, word: Word<'a>) -> Result<(), AllocError>
        requires { 0 < length self.old.pending }
        ensures names { self.new.names ≡ self.old.names }
        ensures typed { (front : List Value) (v : Value) → self.old.pending ≡ front ++ v ∷ []
            → IfOk result (λ _. self.new ≡ record self.old {
              pending = front ++ typed (word_of word.entry) v ∷ [];
            }) }
    {
        let Some((high, low)) = split(self.cells.column().len()) else {
            return Err(AllocError);
        };
        self.cells.close(self.cells.pending_len() - 1);
        let cell = Cell::Typed { high, low, word };
        push_or_clear(self.alloc, &mut self.cells, &mut self.runs, cell)?;
        Ok(())
    }

    /// Replaces the pending values from `mark` on by one LIST or ARRAY of them.
    pub fn close_sequence(&mut self, mark: usize) -> Result<(), AllocError>
        requires { mark ≤ length self.old.pending }
        ensures { MatchResult result
            (λ _. self.new ≡ record self.old {
              pending = take mark self.old.pending
                  ++ sequence (all_of (drop mark self.old.pending)) ∷ [];
            })
            (λ _. self.new.names ≡ self.old.names) }
    {
        let run = self.cells.close(mark);
        push_or_clear(
            self.alloc,
            &mut self.cells,
            &mut self.runs,
            Cell::Sequence(run),
        )?;
        Ok(())
    }

    /// Replaces the pending values from `mark` on by one SET or BAG of them.
    pub fn close_bag(&mut self, mark: usize) -> Result<(), AllocError>
        requires { mark ≤ length self.old.pending }
        ensures { MatchResult result
            (λ _. self.new ≡ record self.old {
              pending = take mark self.old.pending
                  ++ bag (all_of (drop mark self.old.pending)) ∷ [];
            })
            (λ _. self.new.names ≡ self.old.names) }
    {
        let run = self.cells.close(mark);
        push_or_clear(self.alloc, &mut self.cells, &mut self.runs, Cell::Bag(run))?;
        Ok(())
    }

    /// Makes all pending values the next row.
    pub fn close_row(&mut self) -> Result<(), AllocError>
        ensures { MatchResult result
            (λ _. self.new ≡ record self.old {
              rows = self.old.rows ++ all_of self.old.pending ∷ [];
              pending = [];
            })
            (λ _. self.new.names ≡ self.old.names) }
    {
        let run = Run {
            first: self.cells.column().len(),
            count: self.cells.pending_len(),
        };
        self.runs.push(run)?;
        self.cells.close(0);
        Ok(())
    }

    /// Returns the rows, once no value is pending.
    pub fn finish(self) -> ValueRows<'a>
        requires { self.pending ≡ [] }
        ensures rows { result.rows ≡ self.entry.rows }
        ensures targets { LeadTo self.entry.names result.targets }
        ensures closed { ReferTo self.entry.names result.rows }
    {
        ValueRows::of(self.cells.into_column(), self.runs)
    }
}

// Adds a cell to the pending cells. If memory runs out, all cells and rows are cleared, so that
// what remains has one cell for each node.
fn push_or_clear<'a>(
    alloc: Global,
    cells: &mut Column<Cell<'a>>,
    runs: &mut Vec<Run>,
    cell: Cell<'a>,
) -> Result<(), AllocError>
    ensures cells { MatchResult result
        (λ _. cells.new ≡ record cells.old { pending = cells.old.pending ++ cell.entry ∷ [] })
        (λ _. cells.new ≡ record { column = []; pending = [] }) }
    ensures runs { MatchResult result
        (λ _. runs.new.items ≡ runs.old.items)
        (λ _. runs.new.items ≡ []) }
{
    let pushed = cells.push_pending(cell);
    if pushed.is_err() {
        let _lost = mem::replace(cells, Column::new(alloc));
        runs.clear();
    }
    pushed
}
