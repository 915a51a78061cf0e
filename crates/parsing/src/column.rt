//! A column of cells and the pending cells of the lists that are still open, in one buffer.

ghost use Rattle.std.specs.Prelude.{
  ◌≡◌,
  ◌≤◌,
  ◌<◌,
  ◌+◌,
  ◌-◌,
  ◌^◌,
  ◌++◌,
  [],
  ◌∷◌,
  length,
  take,
  drop,
  reverse,
  MatchResult,
};
ghost use Rattle.std.specs.List.{copy_within};
ghost use Rattle.parsing.specs.steps.Cells.{Cells};
ghost use Rattle.parsing.specs.steps.Closing.{Closes};
ghost use Rattle.parsing.specs.steps.Gaps.{Frees};

use std::alloc::{AllocError, Global};
use std::marker::Model;

/// The least number of free cells that a full buffer gets at once, unless its block has fewer left.
const STEP: usize = 256;

/// The greatest number of cells that are moved at a time: few enough to be copied by vectors.
const PIECE: usize = 64;

/// A run of adjacent cells of a column.
#[derive(Clone, Copy, Debug, PartialEq, Eq)]
pub struct Run {
    /// The index of the first cell.
    pub first: usize,
    /// The number of cells.
    pub count: usize,
}

/// A column of cells that grows at its end, and a stack of pending cells that move to the column
/// list by list.
///
/// A reader of trees pushes the cell of each child of an open list, and closes the list at its end.
/// The children are then adjacent in the column, before their parent's cell, which is pushed next.
/// Column and stack share one buffer: the column grows from its start, and the stack from its end
/// downwards. So no cell is ever held twice.
#[derive(Drop)]
pub struct Column<C: Copy> {
    cells: Vec<C>,
    // The number of cells in the column.
    len: usize,
    // The index of the top of the stack. The cells from `len` up to it are free.
    top: usize,
}

impl<C: Copy> Model for Column<C> {
    ghost use Rattle.std.specs.Prelude.{◌≤◌, length, take, drop, reverse};
    ghost use Rattle.parsing.specs.steps.Cells.{Cells};

    ghost Value = { Cells C };

    ghost view = { λ c. record {
      column = take c.len c.cells.items;
      pending = reverse (drop c.top c.cells.items);
    } };

    ghost invariant = { λ c. (c.len ≤ c.top) × (c.top ≤ length c.cells.items) };
}

// Returns the number of free cells that a full buffer gets if `moved` cells have to be moved for
// them. It is at most what is left of the buffer's block, so that no more memory is touched than is
// soon used. It is large enough that all moves together cost no more than a constant for each push.
// A block that is full grows by its own rule.
fn free_cells<C: Copy>(cells: &Vec<C>, moved: usize) -> usize
    ensures positive { 0 < result }
    ensures small { result < 2 ^ 63 }
{
    let spare = cells.capacity() - cells.len();
    let wanted = (moved / 8).max(STEP);
    if spare == 0 {
        wanted
    } else {
        wanted.min(spare)
    }
}

// Copies the cells from index `from` up to `end` to index `to`, which is at or after `end`.
fn copy_apart<C: Copy>(cells: &mut [C], from: usize, end: usize, to: usize)
    requires start { from ≤ end }
    requires apart { end ≤ to }
    requires within { to + (end - from) ≤ length cells.old }
    ensures { cells.new ≡ copy_within cells.old from end to }
{
    let (low, high) = cells.split_at_mut(to);
    high[..end - from].copy_from_slice(&low[from..end]);
}

// Moves the cells from index `top` on up by `by` indices, into the free cells at the end. It moves
// the last cells first, in pieces that don't overlap their targets.
fn move_up<C: Copy>(cells: &mut [C], top: usize, by: usize)
    requires some { 0 < by }
    requires within { top + by ≤ length cells.old }
    ensures len { length cells.new ≡ length cells.old }
    ensures front { take top cells.new ≡ take top cells.old }
    ensures behind { drop (top + by) cells.new
        ≡ take (length cells.old - by - top) (drop top cells.old) }
{
    let piece = by.min(PIECE);
    let mut end = cells.len() - by;
    while top < end {
        let from = end - piece.min(end - top);
        copy_apart(cells, from, end, from + by);
        end = from;
    }
}

// Inserts free cells before index `top`, and returns the new index of the cell that was at `top`.
#[cold]
#[inline(never)]
fn widen<C: Copy>(cells: &mut Vec<C>, top: usize, filler: C) -> Result<usize, AllocError>
    requires { top ≤ length cells.old.items }
    ensures { MatchResult result
        (λ to. Frees top cells.old.items top cells.new.items to)
        (λ _. cells.new.items ≡ cells.old.items) }
{
    let end = cells.len();
    let free = free_cells(cells, end - top);
    cells.resize(end + free, filler)?;
    move_up(cells.as_mut_slice(), top, free);
    Ok(top + free)
}

// Returns the index of the top of the stack, once there is a free cell between the column and the
// stack.
fn with_room<C: Copy>(
    cells: &mut Vec<C>,
    len: usize,
    top: usize,
    filler: C,
) -> Result<usize, AllocError>
    requires column { len ≤ top }
    requires stack { top ≤ length cells.old.items }
    ensures { MatchResult result
        (λ to. Frees len cells.old.items top cells.new.items to)
        (λ _. cells.new.items ≡ cells.old.items) }
{
    if len < top {
        return Ok(top);
    }
    widen(cells, top, filler)
}

// Copies the cells from index `from` up to `end` down to index `to`, in reversed order. The target
// must end at or before `from`.
fn copy_reversed<C: Copy>(cells: &mut [C], from: usize, end: usize, to: usize)
    requires start { from ≤ end }
    requires end { end ≤ length cells.old }
    requires apart { to + (end - from) ≤ from }
    ensures len { length cells.new ≡ length cells.old }
    ensures front { take (to + (end - from)) cells.new
        ≡ take to cells.old ++ reverse (take (end - from) (drop from cells.old)) }
    ensures behind { drop end cells.new ≡ drop end cells.old }
{
    for i in 0..end - from {
        cells[to + i] = cells[end - 1 - i];
    }
}

// Moves the cells from index `from` up to `end` down to index `to`, in reversed order.
fn move_reversed<C: Copy>(cells: &mut [C], from: usize, end: usize, to: usize)
    requires start { from ≤ end }
    requires end { end ≤ length cells.old }
    requires down { to ≤ from }
    ensures len { length cells.new ≡ length cells.old }
    ensures front { take (to + (end - from)) cells.new
        ≡ take to cells.old ++ reverse (take (end - from) (drop from cells.old)) }
    ensures behind { drop end cells.new ≡ drop end cells.old }
{
    if end - from <= from - to {
        copy_reversed(cells, from, end, to);
        return;
    }
    cells[from..end].reverse();
    cells.copy_within(from..end, to);
}

impl<C: Copy> Column<C> {
    /// Returns an empty column with no pending cells. It allocates no memory.
    pub fn new(alloc: Global) -> Self
        ensures { result ≡ record { column = []; pending = [] } }
    {
        Column {
            cells: Vec::new(alloc),
            len: 0,
            top: 0,
        }
    }

    /// Reserves room for `cells` more cells, in the column and on the stack together, so that
    /// pushes needn't allocate.
    ///
    /// `AllocError` means that there isn't that much memory. Column and stack are unchanged either
    /// way, and later pushes still allocate what they need.
    pub fn reserve(&mut self, cells: usize) -> Result<(), AllocError>
        ensures { self.new ≡ self.old }
    {
        self.cells.reserve(cells)
    }

    /// Returns the cells of the column, in order.
    pub fn column(&self) -> &[C]
        ensures { result.now ≡ self.now.column }
    {
        &self.cells[..self.len]
    }

    /// Returns the number of pending cells. It is the mark with which a list that opens now is
    /// closed.
    pub fn pending_len(&self) -> usize
        ensures { result ≡ length self.now.pending }
    {
        self.cells.len() - self.top
    }

    /// Pushes a pending cell. If memory runs out, column and stack are unchanged.
    pub fn push_pending(&mut self, cell: C) -> Result<(), AllocError>
        ensures { MatchResult result
            (λ _. self.new ≡ record self.old { pending = self.old.pending ++ cell ∷ [] })
            (λ _. self.new ≡ self.old) }
    {
        let top = with_room(&mut self.cells, self.len, self.top, cell)?;
        self.cells[top - 1] = cell;
        self.top = top - 1;
        Ok(())
    }

    /// Appends a cell to the column. If memory runs out, column and stack are unchanged.
    pub fn push_column(&mut self, cell: C) -> Result<(), AllocError>
        ensures { MatchResult result
            (λ _. self.new ≡ record self.old { column = self.old.column ++ cell ∷ [] })
            (λ _. self.new ≡ self.old) }
    {
        let top = with_room(&mut self.cells, self.len, self.top, cell)?;
        self.cells[self.len] = cell;
        self.len += 1;
        self.top = top;
        Ok(())
    }

    /// Moves the pending cells after `mark` to the end of the column, in the order in which they
    /// were pushed, and returns their run. It allocates no memory, and visits only the moved cells.
    pub fn close(&mut self, mark: usize) -> Run
        requires { mark ≤ length self.old.pending }
        ensures { Closes self.old mark result self.new }
    {
        let end = self.cells.len() - mark;
        let run = Run {
            first: self.len,
            count: end - self.top,
        };
        move_reversed(self.cells.as_mut_slice(), self.top, end, self.len);
        self.len += run.count;
        self.top = end;
        run
    }

    /// Returns the cells of the column. It drops the pending cells, and gives the unused rest of
    /// the buffer back as far as the allocator accepts it.
    pub fn into_column(self) -> Vec<C>
        ensures { result.items ≡ self.column }
    {
        let mut cells = self.cells;
        cells.truncate(self.len);
        cells.shrink_to_fit();
        cells
    }
}
