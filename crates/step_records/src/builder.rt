//! Trees of parameters, built from tokens that are read one after another.

ghost use Rattle.std.specs.Prelude.{◌≡◌, ◌≤◌, ◌+◌, ◌++◌, [], ◌∷◌, Some, length, take, drop};
ghost use Rattle.std.specs.Prelude.{MatchResult, IfOk};
ghost use Rattle.step_records.specs.steps.Building.{list_of};
ghost use Rattle.step_records.specs.declared.cell.Kind.TheVariants.{List};
ghost use Rattle.step_records.specs.Cells.{typed_of};
ghost use Rattle.step_lexer.specs.declared.token.Token.{Token};
ghost use Rattle.step_records.specs.steps.Tokens.{
  StandsIn,
  IsLeafAt,
  IsCellOf,
  dots_of,
  leaf_of,
  leaf_tree,
};

use crate::cell::{Cell, Kind, Leaf};
use crate::forest::Forest;
use crate::param::Params;
use parsing::column::{Column, Run};
use std::alloc::{AllocError, Global};
use std::marker::Model;
use step_lexer::token::{Mark, Sort, Token};

/// Trees of parameters over a text, stored in one column as they are read.
///
/// Each parameter is pending until the list that it is in is closed. Then the list is pending in
/// its place. A whole tree is kept.
///
/// A cell has 32 bits for a length. For a literal of 4 GiB or more, or a list of 2^32 parts or
/// more, the builder returns `AllocError`. After an `AllocError`, pending or kept trees may be
/// lost; the text stays.
#[derive(Drop)]
pub struct Builder<'a> {
    text: &'a [u8],
    cells: Column<Cell>,
    kept: Vec<Cell>,
}

impl<'a> Model for Builder<'a> {
    ghost use Rattle.step_records.specs.steps.Building.{Building, coded_building, built, Builds};

    ghost Value = { Building };

    ghost coded = { coded_building };

    ghost view = { λ b. built b.text.now b.cells.column b.kept.items b.cells.pending };

    ghost invariant = { λ b. Builds b.text.now b.cells.column b.kept.items b.cells.pending };
}

impl Leaf {
    /// Returns the kind of leaf that a token of this sort is, if any.
    pub fn of(sort: Sort<'_>) -> Option<Leaf>
        ensures { result ≡ leaf_of sort.entry }
    {
        match sort {
            Sort::Mark(Mark::Dollar) => Some(Leaf::Unset),
            Sort::Mark(Mark::Asterisk) => Some(Leaf::Star),
            Sort::Name(_) => Some(Leaf::Reference),
            Sort::Integer(_) => Some(Leaf::Number),
            Sort::Real(_) => Some(Leaf::Number),
            Sort::String(_) => Some(Leaf::Text),
            Sort::Binary(_) => Some(Leaf::Bits),
            Sort::Element(_) => Some(Leaf::Element),
            Sort::Keyword(_) => Some(Leaf::Keyword),
            _ => None,
        }
    }
}

// Returns the length of a cell, which must fit into 32 bits.
fn cell_len(len: usize) -> Result<u32, AllocError>
    ensures { IfOk result (λ n. n ≡ len) }
{
    match u32::try_from(len) {
        Ok(len) => Ok(len),
        Err(_) => Err(AllocError),
    }
}

impl<'a> Builder<'a> {
    /// Returns a builder that has read nothing of `text`. It allocates no memory.
    pub fn new(alloc: Global, text: &'a [u8]) -> Self
        ensures { result ≡ record { text = text.now; kept = []; pending = [] } }
    {
        Builder {
            text,
            cells: Column::new(alloc),
            kept: Vec::new(alloc),
        }
    }

    /// Reserves room for more cells and trees.
    ///
    /// `AllocError` means that there isn't that much memory. The trees are unchanged either way,
    /// and later calls still allocate what they need.
    pub fn reserve(&mut self, cells: usize, trees: usize) -> Result<(), AllocError>
        ensures { self.new ≡ self.old }
    {
        self.cells.reserve(cells)?;
        self.kept.reserve(trees)
    }

    /// Returns the number of pending trees. It is the mark with which a list that opens now is
    /// closed.
    pub fn pending_len(&self) -> usize
        ensures { result ≡ length self.now.pending }
    {
        self.cells.pending_len()
    }

    /// Returns the number of kept trees.
    pub fn kept_len(&self) -> usize
        ensures { result ≡ length self.now.kept }
    {
        self.kept.len()
    }

    /// Returns the trees kept so far.
    pub fn kept(&self) -> Params<'a, '_>
        ensures { result ≡ self.now.kept }
    {
        Params::of(self.text, self.cells.column(), &self.kept)
    }

    /// Adds a token as a pending leaf of this kind.
    pub fn push_leaf(&mut self, leaf: Leaf, token: Token<'a>) -> Result<(), AllocError>
        requires kind { leaf_of token.sort ≡ Some leaf }
        requires stands { StandsIn self.old.text token }
        ensures { MatchResult result
            (λ _. self.new ≡ record self.old {
              pending = self.old.pending ++ leaf_tree token.entry ∷ [];
            })
            (λ _. self.new.text ≡ self.old.text) }
    {
        self.push_leaf_at(leaf, token.place, token.text.len())
    }

    /// Adds a pending leaf of this kind: the token at byte `at` of the text, with `len` bytes.
    pub fn push_leaf_at(&mut self, leaf: Leaf, at: u64, len: usize) -> Result<(), AllocError>
        requires { (t : Token) × IsLeafAt self.old.text leaf at len t }
        ensures { (t : Token) → IsLeafAt self.old.text leaf at len t → MatchResult result
            (λ _. self.new ≡ record self.old {
              pending = self.old.pending ++ leaf_tree t ∷ [];
            })
            (λ _. self.new.text ≡ self.old.text) }
    {
        let cell = leaf_cell(self.text, leaf, at, len)?;
        self.cells.push_pending(cell)?;
        Ok(())
    }

    /// Turns the pending trees after `mark` into one list, which is pending in their place.
    pub fn close_list(&mut self, mark: usize) -> Result<(), AllocError>
        requires { mark ≤ length self.old.pending }
        ensures { MatchResult result
            (λ _. self.new ≡ record self.old {
              pending = take mark self.old.pending ++ list_of (drop mark self.old.pending) ∷ [];
            })
            (λ _. self.new.text ≡ self.old.text) }
    {
        let run = self.cells.close(mark);
        let cell = list_cell(run)?;
        self.cells.push_pending(cell)?;
        Ok(())
    }

    /// Turns the two pending trees after `mark`, a keyword and a parameter, into a typed parameter,
    /// which is pending in their place. If the first one is no keyword, they become an empty list.
    pub fn close_typed(&mut self, mark: usize) -> Result<(), AllocError>
        requires { mark + 2 ≡ length self.old.pending }
        ensures { MatchResult result
            (λ _. self.new ≡ record self.old {
              pending = take mark self.old.pending ++ typed_of (drop mark self.old.pending) ∷ [];
            })
            (λ _. self.new.text ≡ self.old.text) }
    {
        let run = self.cells.close(mark);
        let cell = Cell {
            kind: Kind::Typed,
            len: 0,
            at: run.first as u64,
        };
        self.cells.push_pending(cell)?;
        Ok(())
    }

    /// Turns the pending trees after `mark` into one list, which is kept.
    pub fn keep_list(&mut self, mark: usize) -> Result<(), AllocError>
        requires { mark ≤ length self.old.pending }
        ensures { MatchResult result
            (λ _. self.new ≡ record self.old {
              kept = self.old.kept ++ list_of (drop mark self.old.pending) ∷ [];
              pending = take mark self.old.pending;
            })
            (λ _. self.new.text ≡ self.old.text) }
    {
        let run = self.cells.close(mark);
        let cell = list_cell(run)?;
        self.kept.push(cell)?;
        Ok(())
    }

    /// Returns the kept trees, and drops the pending ones.
    pub fn finish(self) -> Forest<'a>
        ensures { result ≡ self.entry.kept }
    {
        Forest::of(self.text, self.cells.into_column(), self.kept)
    }
}

// Returns how many bytes of a leaf's token come before the leaf's own spelling. As many come after
// it.
fn dots(leaf: Leaf) -> usize
    ensures { result ≡ dots_of leaf }
{
    match leaf {
        Leaf::Element => 1,
        _ => 0,
    }
}

// Returns the cell of a leaf of this kind: the token at byte `at` of the text, with `len` bytes.
fn leaf_cell(text: &[u8], leaf: Leaf, at: u64, len: usize) -> Result<Cell, AllocError>
    requires { (t : Token) × IsLeafAt text.now leaf at len t }
    ensures { IfOk result (λ c. (t : Token) → IsLeafAt text.now leaf at len t
        → IsCellOf text.now t c) }
{
    let dots = dots(leaf);
    let len = cell_len(len - 2 * dots)?;
    Ok(Cell {
        kind: Kind::Leaf(leaf),
        len,
        at: at + dots as u64,
    })
}

// Returns the cell of a list.
fn list_cell(run: Run) -> Result<Cell, AllocError>
    ensures { IfOk result (λ c. c ≡ record { kind = List; len = run.count; at = run.first }) }
{
    let len = cell_len(run.count)?;
    Ok(Cell {
        kind: Kind::List,
        len,
        at: run.first as u64,
    })
}
