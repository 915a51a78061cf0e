//! Whether a parameter fits a data type.

ghost use Rattle.std.specs.Prelude.{◌≡◌, ◌&&◌, cond, None, IfOk};
ghost use Rattle.step_records.specs.Cells.{all_of};
ghost use Rattle.step_records.specs.Params.{node_value};
ghost use Rattle.step_structures.specs.Trees.{typed, group};
ghost use Rattle.conformance.specs.Bases.{Domain, IsDomain};
ghost use Rattle.conformance.specs.ParameterFits.{misfit, misfit_each, is_dollar};
ghost use Rattle.schema_names.specs.Schemas.{the_schema};
ghost use Rattle.schema_underlying_types.specs.BaseViews.{base_seen};
ghost use Rattle.schema_underlying_types.specs.Tables.{AreBases, IsNumberedBase};
ghost use Rattle.parameter_fits.specs.steps.Targets.{AreTargets, target_of};

use crate::bounds::in_bounds;
use crate::contents::item;
use crate::distinct::are_distinct;
use crate::leaves::{
    misfit_binary, misfit_element, misfit_number, misfit_string, needs, other_kind,
};
use crate::targets::{Targets, misfit_reference};
use conformance::finding::FindingKind;
use schema_underlying_types::base::Base;
use schema_underlying_types::lookup::Bases;
use std::alloc::{AllocError, Global};
use step_literals::literal::Word;
use step_records::param::{Node, Param, Params};

/// Returns the finding of a parameter whose data type has the underlying type `base`, if any. It is
/// the finding of the parameter itself or, if it is a list, of its first element that has one.
///
/// Only comparing elements that have to be distinct allocates memory.
#[cycle(fits)]
pub fn misfit(
    alloc: Global,
    bases: &Bases<'_, '_, '_>,
    targets: &Targets<'_>,
    base: &Base,
    param: &Param<'_, '_>,
) -> Result<Option<FindingKind>, AllocError>
    requires bases { AreBases bases.now }
    requires targets { AreTargets (the_schema bases.now.names.now) targets.now }
    requires numbered { IsNumberedBase (the_schema bases.now.names.now) base.now }
    ensures { IfOk result (λ f. (d : Domain) → IsDomain (the_schema bases.now.names.now) d
        → f ≡ misfit (the_schema bases.now.names.now) d
        (target_of (the_schema bases.now.names.now) targets.now)
        (base_seen (the_schema bases.now.names.now) base.now) param.now) }
{
    misfit_node(alloc, bases, targets, base, param.node())
}

/// Returns the finding of a parameter whose outermost part is `node`, if any.
#[cycle(fits)]
fn misfit_node(
    alloc: Global,
    bases: &Bases<'_, '_, '_>,
    targets: &Targets<'_>,
    base: &Base,
    node: Node<'_, '_>,
) -> Result<Option<FindingKind>, AllocError>
    requires bases { AreBases bases.now }
    requires targets { AreTargets (the_schema bases.now.names.now) targets.now }
    requires numbered { IsNumberedBase (the_schema bases.now.names.now) base.now }
    ensures { IfOk result (λ f. (d : Domain) → IsDomain (the_schema bases.now.names.now) d
        → f ≡ misfit (the_schema bases.now.names.now) d
        (target_of (the_schema bases.now.names.now) targets.now)
        (base_seen (the_schema bases.now.names.now) base.now) (node_value node.entry)) }
{
    // the results of the last two are returned at once, so that they are copied nowhere
    let found = match node {
        Node::Unset => Some(FindingKind::MissingValue),
        Node::Star => Some(FindingKind::MisplacedStar),
        Node::Number(number) => misfit_number(*base, &number),
        Node::Text(text) => misfit_string(*base, &text),
        Node::Bits(bits) => misfit_binary(*base, &bits),
        Node::Element(word) => misfit_element(bases, *base, word),
        Node::Reference(name, _) => misfit_reference(bases, *base, targets.target(name)),
        Node::Keyword(_) => Some(other_kind(*base)),
        Node::Typed(word, inner) => {
            return misfit_typed(alloc, bases, targets, base, word, &inner);
        }
        Node::List(params) => return misfit_list(alloc, bases, targets, base, &params),
    };
    Ok(found)
}

/// Returns the finding of the typed parameter with the keyword `word` and `inner` inside, if any.
#[cycle(fits)]
#[inline(never)]
fn misfit_typed(
    alloc: Global,
    bases: &Bases<'_, '_, '_>,
    targets: &Targets<'_>,
    base: &Base,
    word: Word<'_>,
    inner: &Param<'_, '_>,
) -> Result<Option<FindingKind>, AllocError>
    requires bases { AreBases bases.now }
    requires targets { AreTargets (the_schema bases.now.names.now) targets.now }
    requires numbered { IsNumberedBase (the_schema bases.now.names.now) base.now }
    ensures { IfOk result (λ f. (d : Domain) → IsDomain (the_schema bases.now.names.now) d
        → f ≡ misfit (the_schema bases.now.names.now) d
        (target_of (the_schema bases.now.names.now) targets.now)
        (base_seen (the_schema bases.now.names.now) base.now)
        (typed word.entry.text.now inner.now)) }
{
    match item(bases, *base, word) {
        None => Ok(Some(other_kind(*base))),
        Some(within) => misfit(alloc, bases, targets, &within, inner),
    }
}

/// Returns the finding of the list of `params`, if any.
#[cycle(fits)]
#[inline(never)]
fn misfit_list(
    alloc: Global,
    bases: &Bases<'_, '_, '_>,
    targets: &Targets<'_>,
    base: &Base,
    params: &Params<'_, '_>,
) -> Result<Option<FindingKind>, AllocError>
    requires bases { AreBases bases.now }
    requires targets { AreTargets (the_schema bases.now.names.now) targets.now }
    requires numbered { IsNumberedBase (the_schema bases.now.names.now) base.now }
    ensures { IfOk result (λ f. (d : Domain) → IsDomain (the_schema bases.now.names.now) d
        → f ≡ misfit (the_schema bases.now.names.now) d
        (target_of (the_schema bases.now.names.now) targets.now)
        (base_seen (the_schema bases.now.names.now) base.now) (group (all_of params.now))) }
{
    let Base::Aggregate(aggregate) = *base else {
        return Ok(Some(other_kind(*base)));
    };
    if !in_bounds(aggregate, params.len()) {
        return Ok(Some(FindingKind::OutOfBounds));
    }
    let element = bases.of_number(aggregate.element);
    let found = misfit_each(
        alloc,
        bases,
        targets,
        aggregate.is_optional,
        &element,
        params,
    )?;
    if found.is_some() || !aggregate.is_unique {
        return Ok(found);
    }
    let distinct = are_distinct(alloc, bases, element, params)?;
    Ok(needs(distinct, FindingKind::NotDistinct))
}

/// Returns the finding of the first of `params` that has one, if any. `base` is the underlying type
/// of the elements, and `is_optional` allows `$`.
#[cycle(fits)]
fn misfit_each(
    alloc: Global,
    bases: &Bases<'_, '_, '_>,
    targets: &Targets<'_>,
    is_optional: bool,
    base: &Base,
    params: &Params<'_, '_>,
) -> Result<Option<FindingKind>, AllocError>
    requires bases { AreBases bases.now }
    requires targets { AreTargets (the_schema bases.now.names.now) targets.now }
    requires numbered { IsNumberedBase (the_schema bases.now.names.now) base.now }
    ensures { IfOk result (λ f. (d : Domain) → IsDomain (the_schema bases.now.names.now) d
        → f ≡ misfit_each (the_schema bases.now.names.now) d
        (target_of (the_schema bases.now.names.now) targets.now)
        is_optional (base_seen (the_schema bases.now.names.now) base.now) (all_of params.now)) }
{
    for i in 0..params.len() {
        let found = misfit_one(alloc, bases, targets, is_optional, base, &params.at(i))?;
        if found.is_some() {
            return Ok(found);
        }
    }
    Ok(None)
}

/// Returns the finding of one element, if any. `base` is its underlying type, and `is_optional`
/// allows `$`.
#[cycle(fits)]
fn misfit_one(
    alloc: Global,
    bases: &Bases<'_, '_, '_>,
    targets: &Targets<'_>,
    is_optional: bool,
    base: &Base,
    param: &Param<'_, '_>,
) -> Result<Option<FindingKind>, AllocError>
    requires bases { AreBases bases.now }
    requires targets { AreTargets (the_schema bases.now.names.now) targets.now }
    requires numbered { IsNumberedBase (the_schema bases.now.names.now) base.now }
    ensures { IfOk result (λ f. (d : Domain) → IsDomain (the_schema bases.now.names.now) d
        → f ≡ cond (is_optional && is_dollar param.now) None
        (misfit (the_schema bases.now.names.now) d
        (target_of (the_schema bases.now.names.now) targets.now)
        (base_seen (the_schema bases.now.names.now) base.now) param.now)) }
{
    if is_optional && is_dollar(param) {
        return Ok(None);
    }
    misfit(alloc, bases, targets, base, param)
}

/// Whether a parameter is `$`.
fn is_dollar(param: &Param<'_, '_>) -> bool
    ensures { result ≡ is_dollar param.now }
{
    matches!(param.node(), Node::Unset)
}
