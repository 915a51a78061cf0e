//! Parameters that were read, by their outermost parts.

ghost use Rattle.std.specs.Prelude.{
  ◌≡◌,
  ◌<◌,
  ◌≤◌,
  ◌+◌,
  ◌^◌,
  [],
  ◌∷◌,
  Some,
  length,
  take,
  drop,
  slice_get,
  get_or,
  ◌==◌,
  not,
  is_some,
  IfSome,
  true,
};
ghost use Rattle.parsing.specs.Nodes.{run, said_at};
ghost use Rattle.step_literals.specs.Tokens as token_kinds;
ghost use Rattle.step_literals.specs.Tokens.{Spells};
ghost use Rattle.step_records.specs.steps.Building.{Builds, kept_by, tree_of};
ghost use Rattle.step_records.specs.Cells.{
  IsSpelt,
  all_of,
  is_keyword,
  leaf_as,
  name_of,
  parameters,
  typed_of,
};
ghost use Rattle.step_records.specs.Params.{
  node_value,
  parts_of,
  keyword_of,
  stays_as_spelt,
  are_literals,
};
ghost use Rattle.step_structures.specs.Normal.{plain_tree, plain_trees};

use crate::cell::{Cell, Kind, Leaf};
use crate::stretch::{bytes_of, is_literal_or_list, side_by_side};
use std::marker::Model;
use step_literals::literal::{Bits, Decimal, Text, Word};
use step_literals::numbers::number_of;

/// A parameter, or a record, of trees that were read: a view into their column.
#[derive(Drop)]
pub struct Param<'a, 't> {
    text: &'a [u8],
    column: &'t [Cell],
    cell: Cell,
}

impl<'a, 't> Model for Param<'a, 't> {
    ghost use Rattle.std.specs.Prelude.{[], ◌∷◌};
    ghost use Rattle.step_structures.specs.Trees.{Tree};
    ghost use Rattle.step_records.specs.steps.ComputedCodes.{coded_tree};
    ghost use Rattle.step_records.specs.steps.Building.{Builds, tree_of};

    ghost Value = { Tree };

    ghost coded = { coded_tree };

    ghost view = { λ p. tree_of p.text.now p.column.now p.cell };

    ghost invariant = { λ p. Builds p.text.now p.column.now (p.cell ∷ []) [] };
}

/// Adjacent parameters.
#[derive(Drop)]
pub struct Params<'a, 't> {
    text: &'a [u8],
    column: &'t [Cell],
    // A part of the column, or cells over it.
    cells: &'t [Cell],
}

impl<'a, 't> Model for Params<'a, 't> {
    ghost use Rattle.std.specs.Prelude.{List, []};
    ghost use Rattle.step_structures.specs.Trees.{Tree};
    ghost use Rattle.step_records.specs.steps.ComputedCodes.{coded_trees};
    ghost use Rattle.step_records.specs.steps.Building.{Builds, kept_by};

    ghost Value = { List Tree };

    ghost coded = { coded_trees };

    ghost view = { λ p. kept_by p.text.now p.column.now p.cells.now };

    ghost invariant = { λ p. Builds p.text.now p.column.now p.cells.now [] };
}

/// The outermost part of a parameter, with views of what is inside it.
#[derive(Drop)]
pub enum Node<'a, 't> {
    /// `$`, no value
    Unset,
    /// `*`, a derived value
    Star,
    /// An integer or a real number.
    Number(Decimal<'a>),
    /// A string.
    Text(Text<'a>),
    /// A binary.
    Bits(Bits<'a>),
    /// An enumeration element, without its dots.
    Element(Word<'a>),
    /// A reference to the instance with this name, and its spelling.
    Reference(u64, &'a [u8]),
    /// The keyword of a record, the first node in its list.
    Keyword(Word<'a>),
    /// A typed parameter: its keyword and the parameter inside.
    Typed(Word<'a>, Param<'a, 't>),
    /// A list of parameters. Also a record: its keyword, then its parameters.
    List(Params<'a, 't>),
}

impl<'a, 't> Param<'a, 't> {
    // Returns the tree of a cell over a column.
    fn of(text: &'a [u8], column: &'t [Cell], cell: Cell) -> Param<'a, 't>
        requires { Builds text.now column.now (cell ∷ []) [] }
        ensures { result ≡ tree_of text.now column.now cell }
    {
        Param { text, column, cell }
    }

    /// Returns the outermost part of the parameter.
    pub fn node(&self) -> Node<'a, 't>
        ensures { node_value result ≡ self.now }
    {
        let (text, column, cell) = (self.text, self.column, self.cell);
        match cell.kind {
            Kind::Leaf(leaf) => return leaf_node(leaf, part(text, cell.at, cell.len)),
            Kind::Typed => typed_node(text, column, cell.at),
            Kind::List => {
                let cells = part(column, cell.at, cell.len);
                Node::List(Params::of(text, column, cells))
            }
        }
    }

    /// Returns the parameter's spelling, if the normal text uses it unchanged: for a number, a
    /// string, a binary, or a reference without leading zeros.
    pub fn literal(&self) -> Option<&'a [u8]>
        ensures says { IfSome result (λ s. plain_tree self.now ≡ s.now) }
        ensures which { is_some result ≡ stays_as_spelt self.now }
    {
        match self.cell.kind {
            Kind::Leaf(leaf) => leaf_literal(leaf, part(self.text, self.cell.at, self.cell.len)),
            _ => None,
        }
    }

    /// Returns what is directly inside a list of parameters, or the keyword and the parameters of a
    /// record. Empty for anything else.
    pub fn parts(&self) -> Params<'a, 't>
        ensures { result ≡ parts_of self.now }
    {
        match self.node() {
            Node::List(parts) => parts,
            _ => Params::of(self.text, self.column, part(self.column, 0, 0)),
        }
    }

    /// Returns the keyword, or no bytes if the parameter isn't one.
    pub fn keyword(&self) -> &'a [u8]
        ensures { result.now ≡ keyword_of self.now }
    {
        match self.node() {
            Node::Keyword(word) => word.spelling(),
            _ => &[],
        }
    }
}

impl<'a, 't> Params<'a, 't> {
    /// Returns the trees of cells over a column.
    pub(crate) fn of(text: &'a [u8], column: &'t [Cell], cells: &'t [Cell]) -> Params<'a, 't>
        requires { Builds text.now column.now cells.now [] }
        ensures { result ≡ kept_by text.now column.now cells.now }
    {
        Params {
            text,
            column,
            cells,
        }
    }

    /// Returns the number of parameters.
    pub fn len(&self) -> usize
        ensures { result ≡ length self.now }
    {
        self.cells.len()
    }

    /// Returns the parameter at `index`, counted from 0, if any.
    pub fn item(&self, index: usize) -> Option<Param<'a, 't>>
        ensures { result ≡ slice_get self.now index }
    {
        if index < self.len() {
            Some(self.at(index))
        } else {
            None
        }
    }

    /// Returns the first `count` parameters, or all if there are fewer, and the others.
    pub fn split(&self, count: usize) -> (Params<'a, 't>, Params<'a, 't>)
        ensures front { result.0 ≡ take count self.now }
        ensures back { result.1 ≡ drop count self.now }
    {
        let (front, back) = cut(self.cells, count);
        (
            Params::of(self.text, self.column, front),
            Params::of(self.text, self.column, back),
        )
    }

    /// Returns the part of the text that the parameters occupy, if the normal text has it
    /// unchanged. Each parameter must be a number, a string or a binary, or a list of such. Exactly
    /// one comma must separate each from the next.
    pub fn spelling(&self) -> Option<&'a [u8]>
        ensures says { IfSome result (λ s. plain_trees (all_of self.now) ≡ s.now) }
        ensures which { IfSome result (λ s. are_literals (all_of self.now) ≡ true) }
    {
        let last = self.cells.last()?;
        if !is_literal_or_list(last.kind) {
            return None;
        }
        let place = side_by_side(self.text, self.column, self.cells)?;
        Some(bytes_of(self.text, place))
    }

    /// Returns the parameter at `index`, which must exist.
    pub fn at(&self, index: usize) -> Param<'a, 't>
        requires { index < length self.now }
        ensures { slice_get self.now index ≡ Some result }
    {
        Param::of(self.text, self.column, self.cells[index])
    }
}

/// Returns the `len` items from index `at` on.
pub(crate) fn part<'t, T>(items: &'t [T], at: u64, len: u32) -> &'t [T]
    requires { at + len ≤ length items.now }
    ensures { result.now ≡ take len (drop at items.now) }
{
    let (_, rest) = items.split_at(at as usize);
    let (part, _) = rest.split_at(len as usize);
    part
}

/// Returns the first `count` items, or all if there are fewer, and the others.
pub fn cut<'t, T>(items: &'t [T], count: usize) -> (&'t [T], &'t [T])
    ensures front { result.0.now ≡ take count items.now }
    ensures back { result.1.now ≡ drop count items.now }
{
    if count < items.len() {
        items.split_at(count)
    } else {
        items.split_at(items.len())
    }
}

// Returns the number that a reference writes after its `#`.
fn name_of(spelling: &[u8]) -> u64
    requires spelt { Spells token_kinds.name spelling.now }
    requires fits { name_of spelling.now < 2 ^ 64 }
    ensures { result ≡ name_of spelling.now }
{
    let (_, digits) = spelling.split_at(1);
    number_of(digits).unwrap()
}

// Returns the leaf of this kind with this spelling.
fn leaf_node<'a, 't>(leaf: Leaf, spelling: &'a [u8]) -> Node<'a, 't>
    requires { IsSpelt leaf spelling.now }
    ensures { node_value result ≡ leaf_as leaf spelling.now }
{
    match leaf {
        Leaf::Unset => Node::Unset,
        Leaf::Star => Node::Star,
        Leaf::Number => Node::Number(Decimal::from_number(spelling)),
        Leaf::Text => Node::Text(Text::from_string(spelling)),
        Leaf::Bits => Node::Bits(Bits::from_binary(spelling)),
        Leaf::Element => Node::Element(Word::from_keyword(spelling)),
        Leaf::Reference => Node::Reference(name_of(spelling), spelling),
        Leaf::Keyword => Node::Keyword(Word::from_keyword(spelling)),
    }
}

// Whether the number of a reference has no leading zero.
fn is_shortest(spelling: &[u8]) -> bool
    requires { Spells token_kinds.name spelling.now }
    ensures { result ≡ not (get_or spelling.now 1 0 == 48) }
{
    spelling[1] != b'0'
}

// Returns the spelling of a leaf, if the normal text uses it unchanged.
fn leaf_literal<'a>(leaf: Leaf, spelling: &'a [u8]) -> Option<&'a [u8]>
    requires { IsSpelt leaf spelling.now }
    ensures says { IfSome result (λ s. plain_tree (leaf_as leaf spelling.now) ≡ s.now) }
    ensures which { is_some result ≡ stays_as_spelt (leaf_as leaf spelling.now) }
{
    match leaf {
        Leaf::Number | Leaf::Text | Leaf::Bits => Some(spelling),
        Leaf::Reference if is_shortest(spelling) => Some(spelling),
        _ => None,
    }
}

// Whether a cell of this kind is a keyword.
fn is_keyword(kind: Kind) -> bool
    ensures { result ≡ is_keyword kind }
{
    match kind {
        Kind::Leaf(Leaf::Keyword) => true,
        _ => false,
    }
}

// Returns the typed parameter of the keyword and the parameter at index `at` of a column. If the
// cell there is no keyword, returns an empty list.
fn typed_node<'a, 't>(text: &'a [u8], column: &'t [Cell], at: u64) -> Node<'a, 't>
    requires builds { Builds text.now column.now [] [] }
    requires within { at + 2 ≤ length column.now }
    ensures { node_value result
        ≡ typed_of (run (said_at (parameters text.now) column.now) at 2) }
{
    let first = at as usize;
    let keyword = column[first];
    if is_keyword(keyword.kind) {
        let word = Word::from_keyword(part(text, keyword.at, keyword.len));
        Node::Typed(word, Param::of(text, column, column[first + 1]))
    } else {
        Node::List(Params::of(text, column, part(column, at, 0)))
    }
}
