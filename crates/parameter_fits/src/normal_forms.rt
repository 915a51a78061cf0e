//! The normal form of the value of a parameter.

ghost use Rattle.std.specs.Prelude.{◌≡◌, IfOk};
ghost use Rattle.step_records.specs.Cells.{all_of};
ghost use Rattle.step_records.specs.Params.{node_value};
ghost use Rattle.step_values.specs.NormalForms.{IsNormal, AreNormal, AreSorted};
ghost use Rattle.step_values.specs.LabelledValues.{each_labelled, placed};
ghost use Rattle.step_values.specs.Values.{Values, is_crowd};
ghost use Rattle.express_syntax.specs.Schemas.{Schema};
ghost use Rattle.conformance.specs.Bases.{Domain, IsDomain};
ghost use Rattle.conformance.specs.ParameterFits.{gathered, value_as, values_as};
ghost use Rattle.schema_names.specs.Schemas.{the_schema};
ghost use Rattle.schema_underlying_types.specs.BaseViews.{base_seen};
ghost use Rattle.schema_underlying_types.specs.Tables.{AreBases, IsNumberedBase};
ghost use Rattle.parameter_fits.specs.steps.Named.{itself, by_name, each_by_name};

use crate::contents::{element, has_no_order, item};
use schema_underlying_types::base::Base;
use schema_underlying_types::lookup::Bases;
use std::alloc::{AllocError, Global};
use step_records::param::{Node, Param, Params};
use step_values::labels::Label;
use step_values::normal::Normal;

/// Returns the normal form of the value of `param`, whose data type has the underlying type `base`.
/// References are represented by instance names.
#[cycle(normals)]
pub fn normal_value<'a>(
    alloc: Global,
    bases: &Bases<'_, '_, '_>,
    base: Base,
    param: &Param<'a, '_>,
) -> Result<Normal<'a>, AllocError>
    requires bases { AreBases bases.now }
    requires numbered { IsNumberedBase (the_schema bases.now.names.now) base }
    ensures { IfOk result (λ n. (d : Domain) → IsDomain (the_schema bases.now.names.now) d
        → IsNormal (by_name (value_as (the_schema bases.now.names.now) d
        (base_seen (the_schema bases.now.names.now) base) param.now)) n) }
{
    normal_node(alloc, bases, base, &param.node())
}

/// Returns the normal form of the value of a parameter whose outermost part is `node`.
#[cycle(normals)]
fn normal_node<'a>(
    alloc: Global,
    bases: &Bases<'_, '_, '_>,
    base: Base,
    node: &Node<'a, '_>,
) -> Result<Normal<'a>, AllocError>
    requires bases { AreBases bases.now }
    requires numbered { IsNumberedBase (the_schema bases.now.names.now) base }
    ensures { IfOk result (λ n. (d : Domain) → IsDomain (the_schema bases.now.names.now) d
        → IsNormal (by_name (value_as (the_schema bases.now.names.now) d
        (base_seen (the_schema bases.now.names.now) base) (node_value node.now))) n) }
{
    match node {
        Node::Unset | Node::Keyword(_) => Ok(Normal::Unset),
        Node::Star => Ok(Normal::Derived),
        Node::Number(number) => Ok(Normal::Number(*number)),
        Node::Text(text) => Ok(Normal::Text(*text)),
        Node::Bits(bits) => Ok(Normal::Bits(*bits)),
        Node::Element(word) => Ok(Normal::Element(*word)),
        Node::Reference(name, _) => Ok(Normal::Reference(Label::Name(*name))),
        Node::Typed(word, inner) => {
            let within = item(bases, base, *word).unwrap_or(base);
            let inner = normal_value(alloc, bases, within, inner)?;
            Ok(Normal::Typed(*word, Box::new(alloc, inner)?))
        }
        Node::List(params) => {
            let forms = normal_values(alloc, bases, element(bases, base), params)?;
            Ok(gathered(base, forms))
        }
    }
}

/// Returns the normal form of a list with these elements: a bag if `base` is a BAG or a SET,
/// otherwise a sequence.
fn gathered<'a>(base: Base, forms: Vec<Normal<'a>>) -> Normal<'a>
    ensures { (s : Schema) (vs : Values) → AreNormal (each_by_name vs) forms.entry.items
        → IsNormal (by_name (gathered (base_seen s base) vs)) result }
{
    if has_no_order(base) {
        Normal::Bag(sorted(forms))
    } else {
        Normal::Sequence(forms)
    }
}

/// Returns the normal forms of the members of a bag, sorted.
fn sorted<'a>(forms: Vec<Normal<'a>>) -> Vec<Normal<'a>>
    ensures { (vs : Values) → AreNormal (each_by_name vs) forms.entry.items
        → AreSorted (each_labelled (placed (is_crowd vs) itself) vs) result.items }
{
    let mut forms = forms;
    forms.sort_unstable();
    forms
}

/// Returns the normal forms of the values of `params`, in order.
#[cycle(normals)]
fn normal_values<'a>(
    alloc: Global,
    bases: &Bases<'_, '_, '_>,
    base: Base,
    params: &Params<'a, '_>,
) -> Result<Vec<Normal<'a>>, AllocError>
    requires bases { AreBases bases.now }
    requires numbered { IsNumberedBase (the_schema bases.now.names.now) base }
    ensures { IfOk result (λ ns. (d : Domain) → IsDomain (the_schema bases.now.names.now) d
        → AreNormal (each_by_name (values_as (the_schema bases.now.names.now) d
        (base_seen (the_schema bases.now.names.now) base) (all_of params.now))) ns.items) }
{
    let mut forms = Vec::with_capacity(alloc, params.len())?;
    for i in 0..params.len() {
        forms.push(normal_value(alloc, bases, base, &params.at(i))?)?;
    }
    Ok(forms)
}
