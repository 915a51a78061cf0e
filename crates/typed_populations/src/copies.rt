//! Copying values into rows that are being built.

ghost use Rattle.std.specs.Prelude.{◌≡◌, MatchResult};
ghost use Rattle.step_values.specs.References.{EachReference, EachReferenceOf};
ghost use Rattle.step_values.specs.steps.Slots.{node_value};
ghost use Rattle.step_values.specs.Values.{leaf};
ghost use Rattle.population_rows.specs.Index.{found};
ghost use Rattle.parameter_fits.specs.steps.Pushing.{Pushes, PushesEach};
ghost use Rattle.parameter_fits.specs.steps.References.{IsFound, AreFound};
ghost use Rattle.typed_populations.specs.ValueOrder.{picked, picked_at};
ghost use Rattle.conformance.specs.PlainRows.{or_unset};

use parameter_fits::values::push_reference;
use population_rows::index::RowIndex;
use std::alloc::AllocError;
use step_values::row_builder::RowBuilder;
use step_values::slot::{Node, Slot, Slots};

/// Pushes a copy of `value`. `index` has to find each name that it refers to.
#[cycle(copies)]
fn push_copy<'p, 'a>(
    builder: &mut RowBuilder<'_, 'a>,
    index: &RowIndex,
    value: &Slot<'p, 'a>,
) -> Result<(), AllocError>
    requires indexed { AreFound builder.old.names (found index.now) }
    requires within { EachReference (IsFound (found index.now)) value.now }
    ensures { MatchResult result
        (λ _. Pushes builder.old builder.new value.now)
        (λ _. builder.new.names ≡ builder.old.names) }
{
    push_node(builder, index, &value.node())
}

/// Pushes a copy of a value whose outermost part is `node`.
#[cycle(copies)]
fn push_node<'p, 'a>(
    builder: &mut RowBuilder<'_, 'a>,
    index: &RowIndex,
    node: &Node<'p, 'a>,
) -> Result<(), AllocError>
    requires indexed { AreFound builder.old.names (found index.now) }
    requires within { EachReference (IsFound (found index.now)) (node_value node.now) }
    ensures { MatchResult result
        (λ _. Pushes builder.old builder.new (node_value node.now))
        (λ _. builder.new.names ≡ builder.old.names) }
{
    match node {
        Node::Unset => builder.push_unset(),
        Node::Derived => builder.push_derived(),
        Node::Number(number) => builder.push_number(*number),
        Node::Text(text) => builder.push_text(*text),
        Node::Bits(bits) => builder.push_bits(*bits),
        Node::Element(word) => builder.push_element(*word),
        Node::Reference(name, _) => push_reference(builder, index, *name),
        Node::Typed(word, inner) => {
            push_copy(builder, index, inner)?;
            builder.close_typed(*word)
        }
        Node::Sequence(values) => {
            let mark = builder.pending_len();
            push_copies(builder, index, values)?;
            builder.close_sequence(mark)
        }
        Node::Bag(values) => {
            let mark = builder.pending_len();
            push_copies(builder, index, values)?;
            builder.close_bag(mark)
        }
    }
}

/// Pushes copies of `values`, in order.
#[cycle(copies)]
fn push_copies<'p, 'a>(
    builder: &mut RowBuilder<'_, 'a>,
    index: &RowIndex,
    values: &Slots<'p, 'a>,
) -> Result<(), AllocError>
    requires indexed { AreFound builder.old.names (found index.now) }
    requires within { EachReferenceOf (IsFound (found index.now)) values.now }
    ensures { MatchResult result
        (λ _. PushesEach builder.old builder.new values.now)
        (λ _. builder.new.names ≡ builder.old.names) }
{
    for i in 0..values.len() {
        push_copy(builder, index, &values.at(i))?;
    }
    Ok(())
}

/// Pushes a copy of the value at `position`, or an unset value if there is none.
fn push_picked<'p, 'a>(
    builder: &mut RowBuilder<'_, 'a>,
    index: &RowIndex,
    values: &Slots<'p, 'a>,
    position: Option<usize>,
) -> Result<(), AllocError>
    requires indexed { AreFound builder.old.names (found index.now) }
    requires within { EachReferenceOf (IsFound (found index.now)) values.now }
    ensures { MatchResult result
        (λ _. Pushes builder.old builder.new (or_unset (picked_at values.now position)))
        (λ _. builder.new.names ≡ builder.old.names) }
{
    let Some(position) = position else {
        return builder.push_unset();
    };
    match values.item(position) {
        Some(value) => push_copy(builder, index, &value),
        None => builder.push_unset(),
    }
}

/// Pushes copies of the values at `positions`, and an unset value for each position without a
/// value.
pub(crate) fn push_all_picked<'p, 'a>(
    builder: &mut RowBuilder<'_, 'a>,
    index: &RowIndex,
    values: &Slots<'p, 'a>,
    positions: &[Option<usize>],
) -> Result<(), AllocError>
    requires indexed { AreFound builder.old.names (found index.now) }
    requires within { EachReferenceOf (IsFound (found index.now)) values.now }
    ensures { MatchResult result
        (λ _. PushesEach builder.old builder.new (picked values.now positions.now))
        (λ _. builder.new.names ≡ builder.old.names) }
{
    for position in positions {
        push_picked(builder, index, values, *position)?;
    }
    Ok(())
}
