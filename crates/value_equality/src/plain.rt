//! Populations whose rows are found by name.

ghost use Rattle.std.specs.Prelude.{
  ◌≡◌,
  ◌<◌,
  ◌^◌,
  nat_eq,
  is_some,
  length,
  map,
  slice_get,
  IfOk,
  IfErr,
  List,
  MatchOption,
  None,
  Some,
};
ghost use Rattle.std.specs.Bool.{OnTrue};
ghost use Rattle.std.specs.List.{All, IsDistinct, AllZip, sum_by};
ghost use Rattle.parsing.specs.Nodes.{IsColumn};
ghost use Rattle.step_values.specs.steps.Building.{AreRunsOf};
ghost use Rattle.step_values.specs.Cells.{value_nodes};
ghost use Rattle.step_values.specs.steps.NodeCounts.{nodes_in};
ghost use Rattle.step_values.specs.steps.Targets.{LeadTo, ReferTo, targets_of};
ghost use Rattle.value_equality.specs.steps.ComputedCodes.{coded_rows};
ghost use Rattle.value_equality.specs.steps.ComputedPlaces.{Finds, IsKept};
ghost use Rattle.value_equality.specs.steps.Faults.{IsFaultOf};
ghost use Rattle.value_equality.specs.Rows.{Row, AreFew, IsPopulation, row_kind, names, row_at};
ghost use Rattle.value_equality.specs.SortedTypes.{IsSettled};
ghost use Rattle.value_equality.specs.declared.row.RowHead.{RowHead};
ghost use Rattle.value_equality.specs.Views.{
  head_names,
  heads_seen,
  type_lists_of,
  row_seen,
  rows_from,
  rows_of,
};

use crate::fault::PlainFault;
use crate::parts::{heads_of, row_names, type_lists_of, types_at};
use crate::places::places_of;
use crate::row::{PlainRow, RowHead, RowSlot};
use crate::sorted_types::settle_type_lists;
use crate::value_rows::laid_down;
use population_rows::index::RowIndex;
use std::alloc::{AllocError, Global};
use std::hash::RandomState;
use std::marker::Model;
use step_literals::literal::Word;
use step_values::cell::Cell;
use step_values::rows::ValueRows;

/// A population: at most 2^32 - 1 rows, whose names are distinct, and each reference names a row.
///
/// The values of all rows are in one column of cells, and rows may share a list of types.
#[derive(Drop)]
pub struct Plain<'a> {
    heads: Vec<RowHead>,
    type_lists: Vec<Vec<Word<'a>>>,
    values: ValueRows<'a>,
    places: RowIndex,
}

impl<'a> Model for Plain<'a> {
    ghost Value = { List Row };

    ghost coded = { coded_rows };

    ghost view = { λ p. rows_from (heads_seen (type_lists_of p.type_lists.items) p.heads.items) p.values.rows };

    ghost invariant = { λ p.
        IsKept (heads_seen (type_lists_of p.type_lists.items) p.heads.items) p.values p.places };
}

impl<'a> Plain<'a> {
    /// Returns the population of these rows, in order, with the type words of each in order and
    /// without repeats. Names are hashed with `keys`.
    ///
    /// # Errors
    ///
    /// - `TooManyRows` if there are more than 2^32 - 1 rows;
    /// - `DuplicateRow` if otherwise a name occurs twice;
    /// - `UnknownReference` if otherwise a reference names no row;
    /// - `Memory` if memory runs out.
    pub fn from_rows(
        alloc: Global,
        keys: RandomState,
        rows: Vec<PlainRow<'a>>,
    ) -> Result<Plain<'a>, PlainFault>
        ensures rows { IfOk result (λ p. AllZip IsSettled (rows_of rows.entry.items) p) }
        ensures population { IfOk result (λ p. IsPopulation p) }
        ensures few { IfOk result (λ p. AreFew p) }
        ensures fault { IfErr result (λ e. IsFaultOf (rows_of rows.entry.items) e) }
    {
        let names = row_names(alloc, &rows)?;
        let places = places_of(alloc, keys, &names)?;
        let values = laid_down(alloc, &names, &places, &rows)?;
        let heads = heads_of(alloc, &rows)?;
        let type_lists = type_lists_of(alloc, rows)?;
        Ok(settled(heads, type_lists, values, places)?)
    }

    /// Returns the population with these heads, lists of types and rows of values, in order. The
    /// type words of each list are sorted, and repeats are removed.
    ///
    /// A row whose list number is beyond all lists has no types. `values` are built over the names
    /// of the heads, which are distinct, so each reference has the position of its row. `places`
    /// finds these positions.
    pub fn from_parts(
        heads: Vec<RowHead>,
        type_lists: Vec<Vec<Word<'a>>>,
        values: ValueRows<'a>,
        places: RowIndex,
    ) -> Result<Plain<'a>, AllocError>
        requires each { length heads.items ≡ length values.rows }
        requires places { Finds places (head_names heads.items) }
        requires few { length (head_names heads.items) < 4294967296 }
        requires distinct { IsDistinct nat_eq (head_names heads.items) }
        requires range { All (λ y. y < 2 ^ 64) (head_names heads.items) }
        requires leads { LeadTo (head_names heads.items) values.targets }
        requires closed { ReferTo (head_names heads.items) values.rows }
        ensures rows { IfOk result
            (λ p. AllZip IsSettled (rows_from
            (heads_seen (type_lists_of type_lists.entry.items) heads.items) values.entry.rows) p) }
        ensures population { IfOk result (λ p. IsPopulation p) }
        ensures few { IfOk result (λ p. AreFew p) }
    {
        settled(heads, type_lists, values, places)
    }

    /// Returns the number of rows. Their names are numbers of 64 bits.
    pub fn len(&self) -> usize
        ensures length { result ≡ length self.now }
        ensures few { AreFew self.now }
        ensures population { IsPopulation self.now }
        ensures range { All (λ y. y < 2 ^ 64) (names self.now) }
    {
        self.heads.len()
    }

    /// Returns the row at position `place`, counted from 0.
    pub fn row<'p>(&'p self, place: usize) -> RowSlot<'p, 'a>
        requires { place < length self.now }
        ensures { slice_get self.now place ≡ Some (row_seen result) }
    {
        row_in(&self.heads, &self.type_lists, &self.values, place)
    }

    /// Returns the name of the row at position `place`.
    pub fn name(&self, place: usize) -> u64
        requires { place < length self.now }
        ensures { slice_get (names self.now) place ≡ Some result }
    {
        self.row(place).name
    }

    /// Returns the number of the list of types of the row at position `place`. It is only a hint:
    /// [`share_kind`](Plain::share_kind) says what equal numbers mean for two rows.
    pub fn type_list(&self, place: usize) -> u32
        requires { place < length self.now }
    {
        list_number(&self.heads, place)
    }

    /// Whether the rows at two positions have the same section and the same number of a list of
    /// types. If so, they are of the same kind; other rows may be too.
    pub fn share_kind(&self, place: usize, other: usize) -> bool
        requires place { place < length self.now }
        requires other { other < length self.now }
        ensures { OnTrue result ((r s : Row) → slice_get self.now place ≡ Some r
            → slice_get self.now other ≡ Some s → row_kind r ≡ row_kind s) }
    {
        share_list(&self.heads, place, other)
    }

    /// Returns the position of the row with this name, if any.
    pub fn find(&self, name: u64) -> Option<usize>
        ensures { MatchOption result (row_at self.now name ≡ None)
            (λ i. (i < length self.now) × (slice_get self.now i ≡ row_at self.now name)) }
    {
        let Some(place) = self.places.find(name) else {
            return None;
        };
        Some(place as usize)
    }

    /// Whether a row has this name.
    pub fn contains(&self, name: u64) -> bool
        ensures { result ≡ is_some (row_at self.now name) }
    {
        self.places.find(name).is_some()
    }

    /// Returns the values of all rows as one column, with those of each row side by side. Each node
    /// of a value has one cell, which follows the cells of its parts. Each reference has the
    /// position of the row that it names. No memory is allocated.
    pub fn cells(&self) -> &[Cell<'a>]
        ensures column { IsColumn value_nodes result.now }
        ensures count { length result.now ≡ sum_by (λ r. nodes_in r.values) self.now }
        ensures references { LeadTo (names self.now) (targets_of result.now) }
        ensures rows { AreRunsOf result.now (map (λ r. r.values) self.now) }
    {
        self.values.cells()
    }
}

/// Returns the number of the list of types of the head at position `place`.
fn list_number(heads: &[RowHead], place: usize) -> u32
    requires { place < length heads.now }
{
    heads[place].type_list
}

/// Whether the heads at two positions have the same section and the same number of a list of types.
fn share_list(heads: &[RowHead], place: usize, other: usize) -> bool
    requires place { place < length heads.now }
    requires other { other < length heads.now }
    ensures { OnTrue result ((h k : RowHead) → slice_get heads.now place ≡ Some h
        → slice_get heads.now other ≡ Some k
        → (h.section ≡ k.section) × (h.type_list ≡ k.type_list)) }
{
    let (head, other) = (heads[place], heads[other]);
    head.section == other.section && head.type_list == other.type_list
}

/// Returns the row with the head and the values at position `place`, and with the types of the
/// head.
fn row_in<'p, 'a>(
    heads: &'p [RowHead],
    type_lists: &'p [Vec<Word<'a>>],
    values: &'p ValueRows<'a>,
    place: usize,
) -> RowSlot<'p, 'a>
    requires head { place < length heads.now }
    requires values { place < length values.now.rows }
    ensures { slice_get (rows_from (heads_seen (type_lists_of type_lists.entry.now) heads.entry.now)
        values.entry.now.rows) place ≡ Some (row_seen result) }
{
    let head = heads[place];
    RowSlot::of(
        head,
        types_at(type_lists, head.type_list),
        values.row(place),
    )
}

/// Returns the population with these heads, lists of types and rows of values, with the type words
/// of each list in order and without repeats.
fn settled<'a>(
    heads: Vec<RowHead>,
    type_lists: Vec<Vec<Word<'a>>>,
    values: ValueRows<'a>,
    places: RowIndex,
) -> Result<Plain<'a>, AllocError>
    requires each { length heads.items ≡ length values.rows }
    requires places { Finds places (head_names heads.items) }
    requires few { length (head_names heads.items) < 4294967296 }
    requires distinct { IsDistinct nat_eq (head_names heads.items) }
    requires range { All (λ y. y < 2 ^ 64) (head_names heads.items) }
    requires leads { LeadTo (head_names heads.items) values.targets }
    requires closed { ReferTo (head_names heads.items) values.rows }
    ensures rows { IfOk result
        (λ p. AllZip IsSettled (rows_from
        (heads_seen (type_lists_of type_lists.entry.items) heads.items) values.entry.rows) p) }
    ensures population { IfOk result (λ p. IsPopulation p) }
    ensures few { IfOk result (λ p. AreFew p) }
{
    let mut type_lists = type_lists;
    settle_type_lists(&mut type_lists)?;
    Ok(Plain {
        heads,
        type_lists,
        values,
        places,
    })
}
