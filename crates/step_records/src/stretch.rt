//! Literals whose text the normal text has unchanged.

ghost use Rattle.std.specs.Prelude.{
  ◌≡◌,
  ◌<◌,
  ◌≤◌,
  ◌+◌,
  ◌-◌,
  [],
  ◌∷◌,
  List,
  ℕ,
  Some,
  IfSome,
  IsTrue,
  length,
  slice_get,
  true,
  take,
  drop,
};
ghost use Rattle.step_structures.specs.Trees.{Tree, group};
ghost use Rattle.step_records.specs.declared.cell.Cell.{Cell};
ghost use Rattle.step_records.specs.steps.Building.{Builds, kept_by, tree_of};
ghost use Rattle.step_records.specs.Cells.{AreInText, IsInText, all_of, is_literal, is_literal_or_list, says_as};
ghost use Rattle.step_records.specs.steps.Places.{AreStanding, Stands};

use crate::cell::{Cell, Kind, Leaf};
use crate::param::part;

/// A range of bytes of a text.
#[derive(Clone, Copy)]
pub(crate) struct Stretch {
    /// The byte offset of the first byte.
    pub(crate) from: u64,
    /// The byte offset after the last byte.
    pub(crate) end: u64,
}

// Whether a cell of this kind is a number, a string or a binary.
fn is_literal(kind: Kind) -> bool
    ensures { result ≡ is_literal kind }
{
    match kind {
        Kind::Leaf(Leaf::Number | Leaf::Text | Leaf::Bits) => true,
        _ => false,
    }
}

// Returns the range of a literal, or `None` for any other cell.
fn literal_place(text: &[u8], cell: Cell) -> Option<Stretch>
    requires { IsInText text.now cell.kind cell.at cell.len }
    ensures { IfSome result (λ s. (says : ℕ → Tree)
        → Stands text.now (says_as text.now says cell.kind cell.at cell.len) s.from s.end) }
{
    if is_literal(cell.kind) {
        Some(Stretch {
            from: cell.at,
            end: cell.at + cell.len as u64,
        })
    } else {
        None
    }
}

// Whether a range directly follows a comma at byte offset `comma`.
fn comes_next(text: &[u8], stretch: Stretch, comma: u64) -> bool
    requires within { stretch.from ≤ length text.now }
    requires fits { comma ≤ length text.now }
    ensures comma { IsTrue result → slice_get text.now comma ≡ Some 44 }
    ensures next { IsTrue result → stretch.from ≡ comma + 1 }
{
    stretch.from == comma + 1 && text[comma as usize] == b','
}

// Returns the range of these cells, if each is a literal and exactly one comma separates each from
// the next.
fn joined(text: &[u8], cells: &[Cell]) -> Option<Stretch>
    requires { AreInText text.now cells.now }
    ensures { IfSome result (λ s. (column : List Cell)
        → AreStanding text.now (kept_by text.now column cells.now) s.from s.end) }
{
    let last = cells.last()?;
    if !is_literal(last.kind) {
        return None;
    }
    let (first, further) = cells.split_first()?;
    let mut all = literal_place(text, *first)?;
    for cell in further {
        let next = literal_place(text, *cell)?;
        if !comes_next(text, next, all.end) {
            return None;
        }
        all.end = next.end;
    }
    Some(all)
}

// Whether the bytes directly around a range are parentheses.
fn has_parentheses(text: &[u8], inside: Stretch) -> bool
    requires before { inside.from ≤ inside.end }
    requires within { inside.end ≤ length text.now }
    ensures begins { IsTrue result → 0 < inside.from }
    ensures opens { IsTrue result → slice_get text.now (inside.from - 1) ≡ Some 40 }
    ensures ends { IsTrue result → inside.end < length text.now }
    ensures closes { IsTrue result → slice_get text.now inside.end ≡ Some 41 }
{
    inside.from > 0
        && text[inside.from as usize - 1] == b'('
        && (inside.end as usize) < text.len()
        && text[inside.end as usize] == b')'
}

// Returns the range of the list of these cells, if all are literals and there is no layout between
// its tokens.
#[inline(never)]
fn list_place(text: &[u8], cells: &[Cell]) -> Option<Stretch>
    requires { AreInText text.now cells.now }
    ensures { IfSome result (λ s. (column : List Cell)
        → Stands text.now (group (all_of (kept_by text.now column cells.now))) s.from s.end) }
{
    let inside = joined(text, cells)?;
    if has_parentheses(text, inside) {
        Some(Stretch {
            from: inside.from - 1,
            end: inside.end + 1,
        })
    } else {
        None
    }
}

// Returns the range of a literal, or of a list of literals without layout.
fn place(text: &[u8], column: &[Cell], cell: Cell) -> Option<Stretch>
    requires { Builds text.now column.now (cell ∷ []) [] }
    ensures { IfSome result (λ s. Stands text.now (tree_of text.now column.now cell) s.from s.end) }
{
    match cell.kind {
        Kind::List => list_place(text, part(column, cell.at, cell.len)),
        _ => literal_place(text, cell),
    }
}

/// Whether a cell of this kind is a literal or a list.
pub(crate) fn is_literal_or_list(kind: Kind) -> bool
    ensures { result ≡ is_literal_or_list kind }
{
    match kind {
        Kind::List => true,
        _ => is_literal(kind),
    }
}

/// Returns the range of these cells, if each is a literal or a list of literals without layout, and
/// exactly one comma separates each from the next.
#[inline(never)]
pub(crate) fn side_by_side(text: &[u8], column: &[Cell], cells: &[Cell]) -> Option<Stretch>
    requires { Builds text.now column.now cells.now [] }
    ensures { IfSome result (λ s.
        AreStanding text.now (kept_by text.now column.now cells.now) s.from s.end) }
{
    let (first, further) = cells.split_first()?;
    let mut all = place(text, column, *first)?;
    for cell in further {
        let next = place(text, column, *cell)?;
        if !comes_next(text, next, all.end) {
            return None;
        }
        all.end = next.end;
    }
    Some(all)
}

/// Returns the bytes of a range.
pub(crate) fn bytes_of<'t>(text: &'t [u8], stretch: Stretch) -> &'t [u8]
    requires before { stretch.from ≤ stretch.end }
    requires within { stretch.end ≤ length text.now }
    ensures { result.now ≡ drop stretch.from (take stretch.end text.now) }
{
    let (front, _) = text.split_at(stretch.end as usize);
    let (_, bytes) = front.split_at(stretch.from as usize);
    bytes
}
