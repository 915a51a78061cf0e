//! Views of values by their outermost parts.

ghost use Rattle.std.specs.Prelude.{◌≡◌, ◌<◌, ◌≤◌, ◌+◌, Some, length};
ghost use Rattle.parsing.specs.Nodes.{IsColumn};
ghost use Rattle.step_values.specs.Cells.{
  reach_of,
  value_at,
  value_by,
  value_nodes,
  values_of_run,
};
ghost use Rattle.step_values.specs.AgreementTests.{value_count};
ghost use Rattle.step_values.specs.steps.Slots.{node_value, kind_of, len_of, item_of, nth};
ghost use Rattle.step_values.specs.Values.{is_crowd};

use crate::cell::Cell;
use crate::place::join;
use parsing::column::Run;
use std::marker::Model;
use step_literals::literal::{Bits, Decimal, Text, Word};

/// A view of a value in a column.
#[derive(Drop)]
pub struct Slot<'p, 'a> {
    column: &'p [Cell<'a>],
    place: usize,
}

impl<'p, 'a> Model for Slot<'p, 'a> {
    ghost use Rattle.std.specs.Prelude.{◌<◌, length};
    ghost use Rattle.parsing.specs.Nodes.{IsColumn};
    ghost use Rattle.step_values.specs.Values as values;
    ghost use Rattle.step_values.specs.Cells.{value_nodes, value_at};
    ghost use Rattle.step_values.specs.steps.ComputedCodes.{coded_value};

    ghost Value = { values.Value };

    ghost coded = { coded_value };

    ghost view = { λ s. value_at s.column.now s.place };

    ghost invariant = { λ s. IsColumn value_nodes s.column.now × (s.place < length s.column.now) };
}

/// A view of values side by side in a column.
#[derive(Drop)]
pub struct Slots<'p, 'a> {
    column: &'p [Cell<'a>],
    run: Run,
}

impl<'p, 'a> Model for Slots<'p, 'a> {
    ghost use Rattle.std.specs.Prelude.{◌≤◌, ◌+◌, length};
    ghost use Rattle.parsing.specs.Nodes.{IsColumn};
    ghost use Rattle.step_values.specs.Values.{Values};
    ghost use Rattle.step_values.specs.Cells.{value_nodes, values_of_run};
    ghost use Rattle.step_values.specs.steps.ComputedCodes.{coded_values};

    ghost Value = { Values };

    ghost coded = { coded_values };

    ghost view = { λ s. values_of_run s.column.now s.run };

    ghost invariant = { λ s. IsColumn value_nodes s.column.now
        × (s.run.first + s.run.count ≤ length s.column.now) };
}

/// The outermost part of a value, with what is inside it.
#[derive(Drop)]
pub enum Node<'p, 'a> {
    /// No value.
    Unset,
    /// The value of a redeclared attribute that is derived.
    Derived,
    /// A number.
    Number(Decimal<'a>),
    /// A string.
    Text(Text<'a>),
    /// A binary.
    Bits(Bits<'a>),
    /// An element of an enumeration.
    Element(Word<'a>),
    /// A reference to the row with this name, and the number of that row, counted from 0. The
    /// number is a hint: contracts don't mention it.
    Reference(u64, u32),
    /// A value with the name of its type.
    Typed(Word<'a>, Slot<'p, 'a>),
    /// A LIST or an ARRAY: its values, in order.
    Sequence(Slots<'p, 'a>),
    /// A SET or a BAG: its values, in any order.
    Bag(Slots<'p, 'a>),
}

/// The kind of a value.
#[derive(Clone, Copy, Debug, PartialEq, Eq)]
pub enum Kind {
    Unset,
    Derived,
    Number,
    Text,
    Bits,
    Element,
    Reference,
    Typed,
    List,
    Bag,
}

impl<'p, 'a> Slot<'p, 'a> {
    // Returns the value at an index of a column.
    fn of(column: &'p [Cell<'a>], place: usize) -> Slot<'p, 'a>
        requires column { IsColumn value_nodes column.now }
        requires place { place < length column.now }
        ensures { result ≡ value_at column.now place }
    {
        Slot { column, place }
    }

    /// Returns another view of the value.
    pub fn again(&self) -> Slot<'p, 'a>
        ensures { result ≡ self.now }
    {
        Slot::of(self.column, self.place)
    }

    /// Returns the outermost part of the value, with what is inside it.
    pub fn node(&self) -> Node<'p, 'a>
        ensures { node_value result ≡ self.now }
    {
        cell_node(self.column, self.column[self.place])
    }

    /// Returns the kind of the value.
    pub fn kind(&self) -> Kind
        ensures { result ≡ kind_of self.now }
    {
        match self.node() {
            Node::Unset => Kind::Unset,
            Node::Derived => Kind::Derived,
            Node::Number(_) => Kind::Number,
            Node::Text(_) => Kind::Text,
            Node::Bits(_) => Kind::Bits,
            Node::Element(_) => Kind::Element,
            Node::Reference(..) => Kind::Reference,
            Node::Typed(_, _) => Kind::Typed,
            Node::Sequence(_) => Kind::List,
            Node::Bag(_) => Kind::Bag,
        }
    }

    /// Returns the number of values directly inside it: 1 for a typed value, 0 for a value without
    /// parts.
    pub fn len(&self) -> usize
        ensures { result ≡ len_of self.now }
    {
        match self.node() {
            Node::Typed(_, _) => 1,
            Node::Sequence(values) => values.len(),
            Node::Bag(values) => values.len(),
            _ => 0,
        }
    }

    /// Returns the value with this index directly inside it, counted from 0, if any.
    pub fn item(&self, index: usize) -> Option<Slot<'p, 'a>>
        ensures { result ≡ item_of self.now index }
    {
        match self.node() {
            Node::Typed(_, inner) => { if index == 0 { Some(inner) } else { None } }
            Node::Sequence(values) => values.item(index),
            Node::Bag(values) => values.item(index),
            _ => None,
        }
    }
}

impl<'p, 'a> Slots<'p, 'a> {
    /// Returns the values of a run of a column.
    pub(crate) fn of(column: &'p [Cell<'a>], run: Run) -> Slots<'p, 'a>
        requires column { IsColumn value_nodes column.now }
        requires within { run.first + run.count ≤ length column.now }
        ensures { result ≡ values_of_run column.now run }
    {
        Slots { column, run }
    }

    /// Returns another view of the values.
    pub fn again(&self) -> Slots<'p, 'a>
        ensures { result ≡ self.now }
    {
        Slots::of(self.column, self.run)
    }

    /// Returns the number of values.
    pub fn len(&self) -> usize
        ensures { result ≡ value_count self.now }
    {
        self.run.count
    }

    /// Whether there is more than one value.
    pub fn is_crowd(&self) -> bool
        ensures { result ≡ is_crowd self.now }
    {
        self.len() > 1
    }

    /// Returns the value at `index`, counted from 0, if any.
    pub fn item(&self, index: usize) -> Option<Slot<'p, 'a>>
        ensures { result ≡ nth self.now index }
    {
        if index < self.len() {
            Some(self.at(index))
        } else {
            None
        }
    }

    /// Returns the value at `index`, counted from 0.
    pub fn at(&self, index: usize) -> Slot<'p, 'a>
        requires { index < value_count self.now }
        ensures { nth self.now index ≡ Some result }
    {
        Slot::of(self.column, self.run.first + index)
    }
}

// Returns the outermost part of the value that a cell over a column represents.
fn cell_node<'p, 'a>(column: &'p [Cell<'a>], cell: Cell<'a>) -> Node<'p, 'a>
    requires column { IsColumn value_nodes column.now }
    requires within { reach_of cell ≤ length column.now }
    ensures { node_value result ≡ value_by (value_at column.entry.now) cell.entry }
{
    match cell {
        Cell::Unset => Node::Unset,
        Cell::Derived => Node::Derived,
        Cell::Number(number) => Node::Number(number),
        Cell::Text(text) => Node::Text(text),
        Cell::Bits(bits) => Node::Bits(bits),
        Cell::Element(word) => Node::Element(word),
        Cell::Reference { name, row } => Node::Reference(name, row),
        Cell::Typed { high, low, word } => Node::Typed(word, Slot::of(column, join(high, low))),
        Cell::Sequence(run) => Node::Sequence(Slots::of(column, run)),
        Cell::Bag(run) => Node::Bag(Slots::of(column, run)),
    }
}
