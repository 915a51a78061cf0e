//! Agreement of values, according to the labels of the references on each side.

ghost use Rattle.std.specs.Prelude.{◌≡◌, ◌↔◌, IfOk, IsTrue};
ghost use Rattle.step_values.specs.LabelledValues.{same_by, same_each_by};
ghost use Rattle.step_values.specs.Labels.{AgreeBy, AgreeEachBy};
ghost use Rattle.step_values.specs.steps.Slots.{node_value};
ghost use Rattle.step_values.specs.Values.{bag};

use crate::labels::{Labels, same_label};
use crate::literals::{same_bits, same_number, same_text, same_word};
use crate::normal::sorted_forms;
use crate::slot::{Node, Slot, Slots};
use std::alloc::{AllocError, Global};

/// Whether two values agree:
///
/// - literals by value,
/// - references if their labels are equal, in bags of more than one member if their names are,
/// - sequences position by position,
/// - bags regardless of the order of their members.
///
/// Only bags allocate.
pub fn same_value<'p, 'a, 'q, 'b, F: Labels, G: Labels>(
    alloc: Global,
    f: &F,
    g: &G,
    v: &Slot<'p, 'a>,
    w: &Slot<'q, 'b>,
) -> Result<bool, AllocError>
    ensures { IfOk result (λ b. IsTrue b ↔
        AgreeBy (F.labelling f.now) (G.labelling g.now) v.now w.now) }
{
    values_agree(alloc, f, g, v, w)
}

/// Whether two lists of values agree position by position; lists of different lengths don't.
pub fn same_each<'p, 'a, 'q, 'b, F: Labels, G: Labels>(
    alloc: Global,
    f: &F,
    g: &G,
    vs: &Slots<'p, 'a>,
    ws: &Slots<'q, 'b>,
) -> Result<bool, AllocError>
    ensures { IfOk result (λ b. IsTrue b ↔
        AgreeEachBy (F.labelling f.now) (G.labelling g.now) vs.now ws.now) }
{
    lists_agree(alloc, f, g, vs, ws)
}

#[cycle(agree)]
fn values_agree<'p, 'a, 'q, 'b, F: Labels, G: Labels>(
    alloc: Global,
    f: &F,
    g: &G,
    v: &Slot<'p, 'a>,
    w: &Slot<'q, 'b>,
) -> Result<bool, AllocError>
    ensures { IfOk result (λ b. b ≡ same_by (F.labelling f.now) (G.labelling g.now) v.now w.now) }
{
    nodes_agree(alloc, f, g, &v.node(), &w.node())
}

#[cycle(agree)]
fn nodes_agree<'p, 'a, 'q, 'b, F: Labels, G: Labels>(
    alloc: Global,
    f: &F,
    g: &G,
    v: &Node<'p, 'a>,
    w: &Node<'q, 'b>,
) -> Result<bool, AllocError>
    ensures { IfOk result (λ b. b ≡
        same_by (F.labelling f.now) (G.labelling g.now) (node_value v.now) (node_value w.now)) }
{
    match (v, w) {
        (Node::Unset, Node::Unset) => Ok(true),
        (Node::Derived, Node::Derived) => Ok(true),
        (Node::Number(a), Node::Number(b)) => Ok(same_number(a, b)),
        (Node::Text(a), Node::Text(b)) => Ok(same_text(a, b)),
        (Node::Bits(a), Node::Bits(b)) => Ok(same_bits(a, b)),
        (Node::Element(a), Node::Element(b)) => Ok(same_word(a, b)),
        (Node::Reference(y, _), Node::Reference(z, _)) => {
            Ok(same_label(f.outside(*y), g.outside(*z)))
        }
        (Node::Typed(n, a), Node::Typed(m, b)) => {
            if same_word(n, m) {
                values_agree(alloc, f, g, a, b)
            } else {
                Ok(false)
            }
        }
        (Node::Sequence(vs), Node::Sequence(ws)) => lists_agree(alloc, f, g, vs, ws),
        (Node::Bag(vs), Node::Bag(ws)) => bags_agree(alloc, f, g, vs, ws),
        _ => Ok(false),
    }
}

#[cycle(agree)]
fn lists_agree<'p, 'a, 'q, 'b, F: Labels, G: Labels>(
    alloc: Global,
    f: &F,
    g: &G,
    vs: &Slots<'p, 'a>,
    ws: &Slots<'q, 'b>,
) -> Result<bool, AllocError>
    ensures { IfOk result (λ b. b ≡
        same_each_by (F.labelling f.now) (G.labelling g.now) vs.now ws.now) }
{
    if vs.len() != ws.len() {
        return Ok(false);
    }
    for i in 0..vs.len() {
        if !values_agree(alloc, f, g, &vs.at(i), &ws.at(i))? {
            return Ok(false);
        }
    }
    Ok(true)
}

/// Whether two bags agree.
fn bags_agree<'p, 'a, 'q, 'b, F: Labels, G: Labels>(
    alloc: Global,
    f: &F,
    g: &G,
    vs: &Slots<'p, 'a>,
    ws: &Slots<'q, 'b>,
) -> Result<bool, AllocError>
    ensures { IfOk result (λ b. b ≡
        same_by (F.labelling f.now) (G.labelling g.now) (bag vs.now) (bag ws.now)) }
{
    if vs.len() != ws.len() {
        return Ok(false);
    }
    let ours = sorted_forms(alloc, f, vs)?;
    let theirs = sorted_forms(alloc, g, ws)?;
    Ok(ours == theirs)
}
