//! The values of a defined type in a value, at any depth (ISO 10303-11, 9.1).
#![tactic(auto)]

ghost use Rattle.std.specs.Prelude.{◌≡◌, OnOk};
ghost use Rattle.step_values.specs.steps.Slots.{node_value};
ghost use Rattle.rule_plans.specs.steps.Coded.{
  is_whole,
  coded_itself,
  coded_values,
  coded_each,
  coded_elements,
  coded_inside,
};
ghost use Rattle.rule_plans.specs.steps.Seeking.{Adds};

use crate::found_values::{Found, add};
use crate::value_search::{Seeker, Sought};
use schema_underlying_types::base::Base;
use std::alloc::AllocError;
use step_values::slot::{Kind, Node, Slot, Slots};

/// Whether a value of this kind is one of its data type. An unset or derived value isn't, and the
/// content of a typed value is of the type that is named there.
fn is_whole(kind: Kind) -> bool
    ensures { result ≡ is_whole kind }
{
    match kind {
        Kind::Unset | Kind::Derived | Kind::Typed => false,
        Kind::Number | Kind::Text | Kind::Bits | Kind::Element => true,
        Kind::Reference | Kind::List | Kind::Bag => true,
    }
}

/// Adds `value` itself if it is of the wanted type `declared`, if any.
fn add_itself<'p, 'r>(
    seeker: &Seeker<'_, '_, '_, 'r, 'p>,
    found: &mut Found<'p, 'r>,
    declared: Option<u32>,
    base: &'p Base,
    value: Slot<'p, 'r>,
) -> Result<(), AllocError>
    ensures { OnOk result (Adds (coded_itself seeker.now declared base.now value.entry) found.old
        found.new) }
{
    let Some(number) = declared else {
        return Ok(());
    };
    if !is_whole(value.kind()) {
        return Ok(());
    }
    add(found, number, seeker.types, base, value)
}

/// Adds the values of wanted types in `value`: itself, its elements and the content of typed
/// values. `sought` is its data type for the search, and its datum is that of a value of the type
/// `base`.
#[cycle(walk)]
pub(crate) fn add_values<'p, 'r>(
    seeker: &Seeker<'_, '_, '_, 'r, 'p>,
    found: &mut Found<'p, 'r>,
    sought: Sought,
    base: &'p Base,
    value: Slot<'p, 'r>,
) -> Result<(), AllocError>
    ensures { OnOk result (Adds (coded_values seeker.now sought base.now value.entry) found.old
        found.new) }
{
    let node = value.node();
    add_itself(seeker, found, sought.declared, base, value)?;
    add_inside(seeker, found, sought, base, node)
}

/// Adds the values of wanted types inside a value whose outermost part is `node`.
#[cycle(walk)]
fn add_inside<'p, 'r>(
    seeker: &Seeker<'_, '_, '_, 'r, 'p>,
    found: &mut Found<'p, 'r>,
    sought: Sought,
    base: &'p Base,
    node: Node<'p, 'r>,
) -> Result<(), AllocError>
    ensures { OnOk result (Adds (coded_inside seeker.now sought base.now (node_value node.entry))
        found.old found.new) }
{
    match node {
        Node::Unset | Node::Derived | Node::Number(_) | Node::Text(_) => Ok(()),
        Node::Bits(_) | Node::Element(_) | Node::Reference(..) => Ok(()),
        Node::Typed(word, inner) => {
            let within = seeker.by_name(word);
            add_values(seeker, found, within, seeker.types.of_name(word), inner)
        }
        Node::Sequence(values) => add_elements(seeker, found, sought, base, &values),
        Node::Bag(values) => add_elements(seeker, found, sought, base, &values),
    }
}

/// Adds the values of wanted types in the elements of an aggregate.
#[cycle(walk)]
fn add_elements<'p, 'r>(
    seeker: &Seeker<'_, '_, '_, 'r, 'p>,
    found: &mut Found<'p, 'r>,
    sought: Sought,
    base: &'p Base,
    values: &Slots<'p, 'r>,
) -> Result<(), AllocError>
    ensures { OnOk result (Adds (coded_elements seeker.now sought base.now values.now) found.old
        found.new) }
{
    let within = seeker.elements_of(sought);
    add_each(
        seeker,
        found,
        within,
        seeker.types.of_elements(base),
        values,
    )
}

/// Adds the values of wanted types in each of `values`.
#[cycle(walk)]
fn add_each<'p, 'r>(
    seeker: &Seeker<'_, '_, '_, 'r, 'p>,
    found: &mut Found<'p, 'r>,
    sought: Sought,
    base: &'p Base,
    values: &Slots<'p, 'r>,
) -> Result<(), AllocError>
    ensures { OnOk result (Adds (coded_each seeker.now sought base.now values.now) found.old
        found.new) }
{
    for i in 0..values.len() {
        add_values(seeker, found, sought, base, values.at(i))?;
    }
    Ok(())
}
