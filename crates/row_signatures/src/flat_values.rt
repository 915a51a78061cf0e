//! Values without SETs and BAGs, compared in place.

ghost use Rattle.std.specs.Prelude.{◌≡◌};
ghost use Rattle.step_values.specs.AgreementTests.{leaf_test};
ghost use Rattle.step_values.specs.steps.Slots.{node_value};
ghost use Rattle.step_values.specs.Views.{bits_leaf, number_leaf, text_leaf};
ghost use Rattle.row_signatures.specs.steps.ComputedFlat.{alike, alike_each};

use std::hash::{Hash, Hasher};
use step_literals::literal::{Bits, Decimal, Text};
use step_values::literals::same_word;
use step_values::slot::{Node, Slot, Slots};

/// A view of values, with their hash. Two are equal if their hashes are equal and their values have
/// one shape, apart from the members of SETs and BAGs.
#[derive(Drop)]
pub(crate) struct FlatValues<'p, 'a> {
    pub(crate) hash: u64,
    pub(crate) values: Slots<'p, 'a>,
}

impl<'p, 'a> PartialEq for FlatValues<'p, 'a> {
    ghost use Rattle.std.specs.Cmp.{partial_equiv_from_equiv};
    ghost use Rattle.row_signatures.specs.steps.ShapeLaws.{flat_equiv, flat_test};

    ghost eq = { flat_test };

    ghost laws = { partial_equiv_from_equiv flat_equiv };

    fn eq(&self, other: &FlatValues<'p, 'a>) -> bool {
        self.hash == other.hash && lists_alike(&self.values, &other.values)
    }
}

impl<'p, 'a> Eq for FlatValues<'p, 'a> {
    ghost use Rattle.row_signatures.specs.steps.ShapeLaws.{flat_equiv};

    ghost laws = { flat_equiv };
}

impl<'p, 'a> Hash for FlatValues<'p, 'a> {
    ghost use Rattle.std.specs.Hash as fed;
    ghost use Rattle.row_signatures.specs.steps.ShapeLaws.{one_hash};

    ghost hash_input = { λ f. fed.u64 f.hash };

    ghost respects_eq = { one_hash };

    fn hash<H: Hasher>(&self, state: &mut H) {
        state.write_u64(self.hash);
    }
}

/// Whether two values have one shape, apart from the members of SETs and BAGs.
#[cycle(alike)]
#[inline(always)]
fn values_alike<'p, 'a, 'q, 'b>(v: &Slot<'p, 'a>, w: &Slot<'q, 'b>) -> bool
    ensures { result ≡ alike v.now w.now }
{
    match (v.node(), w.node()) {
        (Node::Number(a), Node::Number(b)) => same_number(&a, &b),
        (Node::Text(a), Node::Text(b)) => same_text(&a, &b),
        (Node::Reference(..), Node::Reference(..)) => true,
        (a, b) => nodes_alike(&a, &b),
    }
}

#[cycle(alike)]
#[inline(never)]
fn nodes_alike<'p, 'a, 'q, 'b>(v: &Node<'p, 'a>, w: &Node<'q, 'b>) -> bool
    ensures { result ≡ alike (node_value v.now) (node_value w.now) }
{
    match (v, w) {
        (Node::Unset, Node::Unset) => true,
        (Node::Derived, Node::Derived) => true,
        (Node::Number(a), Node::Number(b)) => same_number(a, b),
        (Node::Text(a), Node::Text(b)) => same_text(a, b),
        (Node::Bits(a), Node::Bits(b)) => same_bits(a, b),
        (Node::Element(a), Node::Element(b)) => same_word(a, b),
        (Node::Reference(..), Node::Reference(..)) => true,
        (Node::Typed(n, a), Node::Typed(m, b)) => {
            if same_word(n, m) {
                values_alike(a, b)
            } else {
                false
            }
        }
        (Node::Sequence(vs), Node::Sequence(ws)) => lists_alike(vs, ws),
        (Node::Bag(_), Node::Bag(_)) => true,
        _ => false,
    }
}

/// Whether two lists of values have one shape position by position, apart from the members of SETs
/// and BAGs. Lists of different lengths don't.
#[cycle(alike)]
fn lists_alike<'p, 'a, 'q, 'b>(vs: &Slots<'p, 'a>, ws: &Slots<'q, 'b>) -> bool
    ensures { result ≡ alike_each vs.now ws.now }
{
    if vs.len() != ws.len() {
        return false;
    }
    for i in 0..vs.len() {
        if !values_alike(&vs.at(i), &ws.at(i)) {
            return false;
        }
    }
    true
}

fn same_number<'a, 'b>(a: &Decimal<'a>, b: &Decimal<'b>) -> bool
    ensures { result ≡ leaf_test (number_leaf a.now) (number_leaf b.now) }
{
    *a == *b
}

fn same_text<'a, 'b>(a: &Text<'a>, b: &Text<'b>) -> bool
    ensures { result ≡ leaf_test (text_leaf a.now) (text_leaf b.now) }
{
    *a == *b
}

fn same_bits<'a, 'b>(a: &Bits<'a>, b: &Bits<'b>) -> bool
    ensures { result ≡ leaf_test (bits_leaf a.now) (bits_leaf b.now) }
{
    *a == *b
}
