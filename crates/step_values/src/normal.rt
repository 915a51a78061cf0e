//! Normal forms of values: each reference is replaced by its label, and the members of each bag are
//! sorted.
//!
//! Two values agree, according to the labels of their references, exactly if their normal forms are
//! equal.

ghost use Rattle.std.specs.Prelude.{◌≡◌, ◌||◌, IfOk};
ghost use Rattle.step_values.specs.NormalForms.{IsNormal, AreNormal, AreSorted};
ghost use Rattle.step_values.specs.LabelledValues.{labelled, each_labelled, placed};
ghost use Rattle.step_values.specs.steps.Slots.{node_value};
ghost use Rattle.step_values.specs.Values.{is_crowd};

use crate::labels::{Label, Labels};
use crate::slot::{Node, Slot, Slots};
use std::alloc::{AllocError, Global};
use step_literals::literal::{Bits, Decimal, Text, Word};

/// A value in normal form. Different variants are ordered as they are declared here.
#[derive(PartialEq, Eq, PartialOrd, Ord, Hash, Drop)]
pub enum Normal<'a> {
    Unset,
    Derived,
    Number(Decimal<'a>),
    Text(Text<'a>),
    Bits(Bits<'a>),
    Element(Word<'a>),
    /// The label of the reference; in a bag of more than one member a name.
    Reference(Label),
    Typed(Word<'a>, Box<Normal<'a>>),
    Sequence(Vec<Normal<'a>>),
    /// The members, in order.
    Bag(Vec<Normal<'a>>),
}

/// Returns the normal form of a value.
pub fn normal_form<'p, 'a: 'c, 'c, F: Labels>(
    alloc: Global,
    f: &F,
    value: &Slot<'p, 'a>,
) -> Result<Normal<'c>, AllocError>
    ensures { IfOk result (λ n. IsNormal (labelled (F.labelling f.now) value.now) n) }
{
    form(alloc, f, false, value)
}

/// Returns the normal forms of `values`: those of two lists are equal exactly if the lists agree
/// position by position.
pub fn normal_forms<'p, 'a: 'c, 'c, F: Labels>(
    alloc: Global,
    f: &F,
    values: &Slots<'p, 'a>,
) -> Result<Vec<Normal<'c>>, AllocError>
    ensures { IfOk result
        (λ ns. AreNormal (each_labelled (F.labelling f.now) values.now) ns.items) }
{
    forms(alloc, f, false, values)
}

/// Returns the sorted normal forms of the members of a bag: those of two bags are equal exactly if
/// the bags agree.
pub fn sorted_forms<'p, 'a: 'c, 'c, F: Labels>(
    alloc: Global,
    f: &F,
    values: &Slots<'p, 'a>,
) -> Result<Vec<Normal<'c>>, AllocError>
    ensures { IfOk result (λ ns. AreSorted
        (each_labelled (placed (is_crowd values.now) (F.labelling f.now)) values.now) ns.items) }
{
    members(alloc, f, false, values)
}

/// Whether references in this bag become names: it has more than one member, or is inside a bag
/// that has.
fn is_by_name<'p, 'a>(in_bag: bool, values: &Slots<'p, 'a>) -> bool
    ensures { result ≡ (in_bag || is_crowd values.now) }
{
    in_bag || values.is_crowd()
}

/// Returns the normal forms of the members of a bag, sorted.
#[cycle(normal)]
fn members<'p, 'a: 'c, 'c, F: Labels>(
    alloc: Global,
    f: &F,
    in_bag: bool,
    values: &Slots<'p, 'a>,
) -> Result<Vec<Normal<'c>>, AllocError>
    ensures { IfOk result (λ ns. AreSorted
        (each_labelled (placed (is_crowd values.now) (placed in_bag (F.labelling f.now)))
        values.now)
        ns.items) }
{
    let mut forms = forms(alloc, f, is_by_name(in_bag, values), values)?;
    forms.sort_unstable();
    Ok(forms)
}

/// Returns the label of a reference, inside a bag of more than one member or outside.
fn label<F: Labels>(f: &F, in_bag: bool, name: u64) -> Label
    ensures { result ≡ (placed in_bag (F.labelling f.now)).outside name }
{
    if in_bag {
        Label::Name(f.inside(name))
    } else {
        f.outside(name)
    }
}

#[cycle(normal)]
fn form<'p, 'a: 'c, 'c, F: Labels>(
    alloc: Global,
    f: &F,
    in_bag: bool,
    value: &Slot<'p, 'a>,
) -> Result<Normal<'c>, AllocError>
    ensures { IfOk result
        (λ n. IsNormal (labelled (placed in_bag (F.labelling f.now)) value.now) n) }
{
    node_form(alloc, f, in_bag, &value.node())
}

#[cycle(normal)]
fn node_form<'p, 'a: 'c, 'c, F: Labels>(
    alloc: Global,
    f: &F,
    in_bag: bool,
    node: &Node<'p, 'a>,
) -> Result<Normal<'c>, AllocError>
    ensures { IfOk result
        (λ n. IsNormal (labelled (placed in_bag (F.labelling f.now)) (node_value node.now)) n) }
{
    match node {
        Node::Unset => Ok(Normal::Unset),
        Node::Derived => Ok(Normal::Derived),
        Node::Number(number) => Ok(Normal::Number(*number)),
        Node::Text(text) => Ok(Normal::Text(*text)),
        Node::Bits(bits) => Ok(Normal::Bits(*bits)),
        Node::Element(word) => Ok(Normal::Element(*word)),
        Node::Reference(name, _) => Ok(Normal::Reference(label(f, in_bag, *name))),
        Node::Typed(word, inner) => {
            let inner = form(alloc, f, in_bag, inner)?;
            Ok(Normal::Typed(*word, Box::new(alloc, inner)?))
        }
        Node::Sequence(values) => Ok(Normal::Sequence(forms(alloc, f, in_bag, values)?)),
        Node::Bag(values) => Ok(Normal::Bag(members(alloc, f, in_bag, values)?)),
    }
}

#[cycle(normal)]
fn forms<'p, 'a: 'c, 'c, F: Labels>(
    alloc: Global,
    f: &F,
    in_bag: bool,
    values: &Slots<'p, 'a>,
) -> Result<Vec<Normal<'c>>, AllocError>
    ensures { IfOk result
        (λ ns. AreNormal (each_labelled (placed in_bag (F.labelling f.now)) values.now) ns.items) }
{
    let mut forms = Vec::with_capacity(alloc, values.len())?;
    for i in 0..values.len() {
        forms.push(form(alloc, f, in_bag, &values.at(i))?)?;
    }
    Ok(forms)
}
