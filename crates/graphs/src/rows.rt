//! Lists of rows, and marks on numbers.
ghost use Rattle.std.specs.Prelude.{
  ◌≡◌,
  ℕ,
  ◌<◌,
  ◌||◌,
  ◌&&◌,
  [],
  length,
  IfOk,
  OnOk,
  All,
  eqb,
  set,
  ◌++◌,
  ◌∷◌,
};
ghost use Rattle.graphs.specs.Graphs.{has, next, graph_of};
ghost use Rattle.graphs.specs.Rounds.{added, AreMarks};

use std::alloc::{AllocError, Global};

/// Returns `count` empty rows.
pub fn empty_rows(alloc: Global, count: usize) -> Result<Vec<Vec<u32>>, AllocError>
    ensures length { IfOk result (λ v. length v.items ≡ count) }
    ensures empty { IfOk result (λ v. (a : ℕ) → next (graph_of v.items) a ≡ []) }
{
    let mut rows = Vec::new(alloc);
    for _ in 0..count {
        rows.push(Vec::new(alloc))?;
    }
    Ok(rows)
}

/// Adds a number to one row.
fn add_to_row(rows: &mut [Vec<u32>], row: u32, number: u32) -> Result<(), AllocError>
    requires { row < length rows.old }
    ensures length { OnOk result (length rows.new ≡ length rows.old) }
    ensures added { OnOk result ((b c : ℕ)
        → has (next (graph_of rows.new) b) c
        ≡ (has (next (graph_of rows.old) b) c || (eqb b row && eqb c number))) }
{
    rows[row as usize].push(number)?;
    Ok(())
}

/// Adds a number to each of the rows in `which`.
pub(crate) fn add_to_rows(
    rows: &mut [Vec<u32>],
    which: &[u32],
    number: u32,
) -> Result<(), AllocError>
    requires { All (λ b. b < length rows.old) which.now }
    ensures length { OnOk result (length rows.new ≡ length rows.old) }
    ensures added { OnOk result ((b c : ℕ)
        → has (next (graph_of rows.new) b) c
        ≡ (has (next (graph_of rows.old) b) c || (has which.now b && eqb c number))) }
{
    for row in which {
        add_to_row(rows, *row, number)?;
    }
    Ok(())
}

/// Appends to `found` each number of `more` that isn't marked yet, and marks it.
pub fn add_new(found: &mut Vec<u32>, marks: &mut [bool], more: &[u32]) -> Result<(), AllocError>
    requires marked { AreMarks marks.old found.old.items }
    requires within { All (λ y. y < length marks.old) more.now }
    ensures added { OnOk result (found.new.items ≡ added found.old.items more.now) }
    ensures marked { OnOk result (AreMarks marks.new found.new.items) }
    ensures length { length marks.new ≡ length marks.old }
{
    for y in more {
        let at = *y as usize;
        if !marks[at] {
            found.push(*y)?;
            marks[at] = true;
        }
    }
    Ok(())
}

/// Clears the marks of these numbers.
pub fn unmark(marks: &mut [bool], found: &[u32])
    requires marked { AreMarks marks.old found.now }
    requires within { All (λ y. y < length marks.old) found.now }
    ensures clean { AreMarks marks.new [] }
    ensures length { length marks.new ≡ length marks.old }
{
    for y in found {
        marks[*y as usize] = false;
    }
}
