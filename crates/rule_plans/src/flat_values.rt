//! Flat values: those that aren't typed values and whose elements, if any, have no parts.
#![tactic(auto)]

ghost use Rattle.std.specs.Prelude.{◌≡◌};
ghost use Rattle.step_values.specs.steps.Slots.{nth};
ghost use Rattle.rule_plans.specs.steps.Flat.{
  is_plain,
  are_plain,
  is_flat,
  is_flat_at,
  has_plain_values,
  has_flat_values,
};

use rule_values::types::ValueTypes;
use schema_underlying_types::base::Base;
use step_values::slot::{Kind, Node, Slot, Slots};

/// Whether values of this kind have no parts.
fn is_plain(kind: Kind) -> bool
    ensures { result ≡ is_plain kind }
{
    match kind {
        Kind::Typed | Kind::List | Kind::Bag => false,
        Kind::Unset | Kind::Derived | Kind::Number | Kind::Text => true,
        Kind::Bits | Kind::Element | Kind::Reference => true,
    }
}

/// Whether none of `values` has parts.
fn are_plain(values: &Slots<'_, '_>) -> bool
    ensures { result ≡ are_plain values.now }
{
    for i in 0..values.len() {
        if !is_plain(values.at(i).kind()) {
            return false;
        }
    }
    true
}

/// Whether `value` isn't a typed value, and none of its elements has parts.
fn is_flat(value: &Slot<'_, '_>) -> bool
    ensures { result ≡ is_flat value.now }
{
    match value.node() {
        Node::Unset | Node::Derived | Node::Number(_) | Node::Text(_) => true,
        Node::Bits(_) | Node::Element(_) | Node::Reference(..) => true,
        Node::Typed(_, _) => false,
        Node::Sequence(values) => are_plain(&values),
        Node::Bag(values) => are_plain(&values),
    }
}

/// Whether the value at `position` is flat; true if there is none.
pub(crate) fn is_flat_at(values: &Slots<'_, '_>, position: usize) -> bool
    ensures { result ≡ is_flat_at (nth values.now position) }
{
    match values.item(position) {
        Some(value) => is_flat(&value),
        None => true,
    }
}

/// Whether the values that fit `base` have no parts. Typed values fit only SELECTs.
fn has_plain_values(base: Base) -> bool
    ensures { result ≡ has_plain_values base }
{
    match base {
        Base::Select(_) | Base::Aggregate(_) => false,
        Base::Integer | Base::Number | Base::Boolean | Base::Logical => true,
        Base::String(_) | Base::Binary(_) | Base::Enumeration(_) | Base::Entity(_) => true,
    }
}

/// Whether the values that fit `base` are flat.
pub(crate) fn has_flat_values(types: &ValueTypes<'_>, base: &Base) -> bool
    ensures { result ≡ has_flat_values types.now base.now }
{
    has_plain_values(*types.of_elements(base))
}
