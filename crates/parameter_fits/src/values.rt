//! The value of a parameter, pushed onto a row.

ghost use Rattle.std.specs.Prelude.{◌≡◌, MatchResult};
ghost use Rattle.step_records.specs.Cells.{all_of};
ghost use Rattle.step_records.specs.Params.{node_value};
ghost use Rattle.step_structures.specs.Trees.{typed, group};
ghost use Rattle.step_values.specs.Values.{reference};
ghost use Rattle.population_rows.specs.Index.{found};
ghost use Rattle.conformance.specs.Bases.{Domain, IsDomain, base};
ghost use Rattle.conformance.specs.ParameterFits.{element, value_as, values_as};
ghost use Rattle.schema_names.specs.Schemas.{the_schema};
ghost use Rattle.schema_underlying_types.specs.BaseViews.{base_seen, type_at};
ghost use Rattle.schema_underlying_types.specs.Tables.{AreBases, NamesKnownType, IsNumberedBase};
ghost use Rattle.parameter_fits.specs.steps.References.{RefersWithin, ReferWithin, IsFound, AreFound};
ghost use Rattle.parameter_fits.specs.steps.Pushing.{Pushes, PushesEach};

use crate::contents::{element, has_no_order, item};
use population_rows::index::RowIndex;
use schema_underlying_types::base::Base;
use schema_underlying_types::lookup::Bases;
use std::alloc::AllocError;
use step_literals::literal::Word;
use step_records::param::{Node, Param, Params};
use step_values::row_builder::RowBuilder;

/// Pushes the value of `param`, whose data type is numbered `number`. `index` has to find each name
/// that `param` refers to. The underlying type is looked up only if the value depends on it, so not
/// for a number, a string or a reference.
pub fn push_of_type<'a, 't>(
    bases: &Bases<'_, '_, '_>,
    builder: &mut RowBuilder<'_, 'a>,
    number: u32,
    index: &RowIndex,
    param: Param<'a, 't>,
) -> Result<(), AllocError>
    requires bases { AreBases bases.now }
    requires known { NamesKnownType (the_schema bases.now.names.now)
        (type_at (the_schema bases.now.names.now) number) }
    requires indexed { AreFound builder.old.names (found index.now) }
    requires within { RefersWithin (found index.now) param }
    ensures { MatchResult result
        (λ _. (d : Domain) → IsDomain (the_schema bases.now.names.now) d
        → Pushes builder.old builder.new
        (value_as (the_schema bases.now.names.now) d
        (base d (type_at (the_schema bases.now.names.now) number)) param.entry))
        (λ _. builder.new.names ≡ builder.old.names) }
{
    match param.node() {
        Node::Number(literal) => builder.push_number(literal),
        Node::Text(text) => builder.push_text(text),
        Node::Reference(name, _) => push_reference(builder, index, name),
        _ => push_looked_up(bases, builder, number, index, param),
    }
}

/// Pushes the value of `param`, whose data type is numbered `number`, and looks up the underlying
/// type.
#[inline(never)]
fn push_looked_up<'a, 't>(
    bases: &Bases<'_, '_, '_>,
    builder: &mut RowBuilder<'_, 'a>,
    number: u32,
    index: &RowIndex,
    param: Param<'a, 't>,
) -> Result<(), AllocError>
    requires bases { AreBases bases.now }
    requires known { NamesKnownType (the_schema bases.now.names.now)
        (type_at (the_schema bases.now.names.now) number) }
    requires indexed { AreFound builder.old.names (found index.now) }
    requires within { RefersWithin (found index.now) param }
    ensures { MatchResult result
        (λ _. (d : Domain) → IsDomain (the_schema bases.now.names.now) d
        → Pushes builder.old builder.new
        (value_as (the_schema bases.now.names.now) d
        (base d (type_at (the_schema bases.now.names.now) number)) param.entry))
        (λ _. builder.new.names ≡ builder.old.names) }
{
    let base = bases.of_number(number);
    push_value(bases, builder, &base, index, &param)
}

/// Pushes the value of `param`, whose data type has the underlying type `base`. `index` has to find
/// each name that `param` refers to.
#[cycle(values)]
pub fn push_value<'a, 't>(
    bases: &Bases<'_, '_, '_>,
    builder: &mut RowBuilder<'_, 'a>,
    base: &Base,
    index: &RowIndex,
    param: &Param<'a, 't>,
) -> Result<(), AllocError>
    requires bases { AreBases bases.now }
    requires numbered { IsNumberedBase (the_schema bases.now.names.now) base.now }
    requires indexed { AreFound builder.old.names (found index.now) }
    requires within { RefersWithin (found index.now) param.now }
    ensures { MatchResult result
        (λ _. (d : Domain) → IsDomain (the_schema bases.now.names.now) d
        → Pushes builder.old builder.new
        (value_as (the_schema bases.now.names.now) d
        (base_seen (the_schema bases.now.names.now) base.now) param.now))
        (λ _. builder.new.names ≡ builder.old.names) }
{
    push_node(bases, builder, base, index, param.node())
}

/// Pushes the value of a parameter whose outermost part is `node`.
#[cycle(values)]
fn push_node<'a, 't>(
    bases: &Bases<'_, '_, '_>,
    builder: &mut RowBuilder<'_, 'a>,
    base: &Base,
    index: &RowIndex,
    node: Node<'a, 't>,
) -> Result<(), AllocError>
    requires bases { AreBases bases.now }
    requires numbered { IsNumberedBase (the_schema bases.now.names.now) base.now }
    requires indexed { AreFound builder.old.names (found index.now) }
    requires within { RefersWithin (found index.now) (node_value node) }
    ensures { MatchResult result
        (λ _. (d : Domain) → IsDomain (the_schema bases.now.names.now) d
        → Pushes builder.old builder.new
        (value_as (the_schema bases.now.names.now) d
        (base_seen (the_schema bases.now.names.now) base.now) (node_value node.entry)))
        (λ _. builder.new.names ≡ builder.old.names) }
{
    match node {
        Node::Unset | Node::Keyword(_) => builder.push_unset(),
        Node::Star => builder.push_derived(),
        Node::Number(number) => builder.push_number(number),
        Node::Text(text) => builder.push_text(text),
        Node::Bits(bits) => builder.push_bits(bits),
        Node::Element(word) => builder.push_element(word),
        Node::Reference(name, _) => push_reference(builder, index, name),
        Node::Typed(word, inner) => push_typed(bases, builder, base, index, word, &inner),
        Node::List(params) => push_list(bases, builder, base, index, &params),
    }
}

/// Pushes the value of the typed parameter with the keyword `word` and `inner` inside.
#[cycle(values)]
#[inline(never)]
fn push_typed<'a, 't>(
    bases: &Bases<'_, '_, '_>,
    builder: &mut RowBuilder<'_, 'a>,
    base: &Base,
    index: &RowIndex,
    word: Word<'a>,
    inner: &Param<'a, 't>,
) -> Result<(), AllocError>
    requires bases { AreBases bases.now }
    requires numbered { IsNumberedBase (the_schema bases.now.names.now) base.now }
    requires indexed { AreFound builder.old.names (found index.now) }
    requires within { RefersWithin (found index.now) inner.now }
    ensures { MatchResult result
        (λ _. (d : Domain) → IsDomain (the_schema bases.now.names.now) d
        → Pushes builder.old builder.new
        (value_as (the_schema bases.now.names.now) d
        (base_seen (the_schema bases.now.names.now) base.now)
        (typed word.entry.text.now inner.now)))
        (λ _. builder.new.names ≡ builder.old.names) }
{
    let within = item(bases, *base, word).unwrap_or(*base);
    push_value(bases, builder, &within, index, inner)?;
    builder.close_typed(word)
}

/// Pushes a reference to `name`, with its row. `index` has to find `name`.
pub fn push_reference(
    builder: &mut RowBuilder<'_, '_>,
    index: &RowIndex,
    name: u64,
) -> Result<(), AllocError>
    requires indexed { AreFound builder.old.names (found index.now) }
    requires within { IsFound (found index.now) name }
    ensures { MatchResult result
        (λ _. Pushes builder.old builder.new (reference name))
        (λ _. builder.new.names ≡ builder.old.names) }
{
    match index.find(name) {
        Some(row) => builder.push_reference(name, row),
        None => Err(AllocError),
    }
}

/// Pushes the value of the list of `params`: a bag if `base` is a BAG or a SET, otherwise a
/// sequence.
#[cycle(values)]
#[inline(never)]
fn push_list<'a, 't>(
    bases: &Bases<'_, '_, '_>,
    builder: &mut RowBuilder<'_, 'a>,
    base: &Base,
    index: &RowIndex,
    params: &Params<'a, 't>,
) -> Result<(), AllocError>
    requires bases { AreBases bases.now }
    requires numbered { IsNumberedBase (the_schema bases.now.names.now) base.now }
    requires indexed { AreFound builder.old.names (found index.now) }
    requires within { ReferWithin (found index.now) (all_of params.now) }
    ensures { MatchResult result
        (λ _. (d : Domain) → IsDomain (the_schema bases.now.names.now) d
        → Pushes builder.old builder.new
        (value_as (the_schema bases.now.names.now) d
        (base_seen (the_schema bases.now.names.now) base.now) (group (all_of params.now))))
        (λ _. builder.new.names ≡ builder.old.names) }
{
    let mark = builder.pending_len();
    push_each(bases, builder, base, index, params)?;
    if has_no_order(*base) {
        builder.close_bag(mark)
    } else {
        builder.close_sequence(mark)
    }
}

/// Pushes the values of the elements of a list whose underlying type is `base`, one after the
/// other.
#[cycle(values)]
fn push_each<'a, 't>(
    bases: &Bases<'_, '_, '_>,
    builder: &mut RowBuilder<'_, 'a>,
    base: &Base,
    index: &RowIndex,
    params: &Params<'a, 't>,
) -> Result<(), AllocError>
    requires bases { AreBases bases.now }
    requires numbered { IsNumberedBase (the_schema bases.now.names.now) base.now }
    requires indexed { AreFound builder.old.names (found index.now) }
    requires within { ReferWithin (found index.now) (all_of params.now) }
    ensures { MatchResult result
        (λ _. (d : Domain) → IsDomain (the_schema bases.now.names.now) d
        → PushesEach builder.old builder.new
        (values_as (the_schema bases.now.names.now) d
        (element (the_schema bases.now.names.now) d
        (base_seen (the_schema bases.now.names.now) base.now)) (all_of params.now)))
        (λ _. builder.new.names ≡ builder.old.names) }
{
    for i in 0..params.len() {
        push_element(bases, builder, base, index, params.at(i))?;
    }
    Ok(())
}

/// Pushes the value of an element of a list whose underlying type is `base`. The type of the
/// element is looked up only if the value depends on it, so not for a number, a string or a
/// reference.
#[cycle(values)]
fn push_element<'a, 't>(
    bases: &Bases<'_, '_, '_>,
    builder: &mut RowBuilder<'_, 'a>,
    base: &Base,
    index: &RowIndex,
    param: Param<'a, 't>,
) -> Result<(), AllocError>
    requires bases { AreBases bases.now }
    requires numbered { IsNumberedBase (the_schema bases.now.names.now) base.now }
    requires indexed { AreFound builder.old.names (found index.now) }
    requires within { RefersWithin (found index.now) param }
    ensures { MatchResult result
        (λ _. (d : Domain) → IsDomain (the_schema bases.now.names.now) d
        → Pushes builder.old builder.new
        (value_as (the_schema bases.now.names.now) d
        (element (the_schema bases.now.names.now) d
        (base_seen (the_schema bases.now.names.now) base.now)) param.entry))
        (λ _. builder.new.names ≡ builder.old.names) }
{
    match param.node() {
        Node::Number(literal) => builder.push_number(literal),
        Node::Text(text) => builder.push_text(text),
        Node::Reference(name, _) => push_reference(builder, index, name),
        _ => push_inside(bases, builder, base, index, param),
    }
}

/// Pushes the value of an element of a list whose underlying type is `base`, and looks up the type
/// of the element.
#[cycle(values)]
#[inline(never)]
fn push_inside<'a, 't>(
    bases: &Bases<'_, '_, '_>,
    builder: &mut RowBuilder<'_, 'a>,
    base: &Base,
    index: &RowIndex,
    param: Param<'a, 't>,
) -> Result<(), AllocError>
    requires bases { AreBases bases.now }
    requires numbered { IsNumberedBase (the_schema bases.now.names.now) base.now }
    requires indexed { AreFound builder.old.names (found index.now) }
    requires within { RefersWithin (found index.now) param }
    ensures { MatchResult result
        (λ _. (d : Domain) → IsDomain (the_schema bases.now.names.now) d
        → Pushes builder.old builder.new
        (value_as (the_schema bases.now.names.now) d
        (element (the_schema bases.now.names.now) d
        (base_seen (the_schema bases.now.names.now) base.now)) param.entry))
        (λ _. builder.new.names ≡ builder.old.names) }
{
    let inside = element(bases, *base);
    push_value(bases, builder, &inside, index, &param)
}
