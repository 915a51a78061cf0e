//! The data that values of a population are in expressions.

ghost use Rattle.std.specs.Prelude.{◌≡◌};
ghost use Rattle.step_values.specs.steps.Slots.{node_value};
ghost use Rattle.step_values.specs.Views.{word_of};
ghost use Rattle.express_logic.specs.Views.{datum_of};
ghost use Rattle.conformance.specs.Meanings.{instance_data};
ghost use Rattle.conformance.specs.Operations.{bare, only};
ghost use Rattle.rule_values.specs.TableValues.{coded_datum, coded_element};
ghost use Rattle.rule_values.specs.Parts.{holding};

use crate::part::Part;
use crate::scalars::{is_logical, logical_of};
use crate::types::ValueTypes;
use express_logic::datum::Datum;
use schema_underlying_types::base::Base;
use step_literals::literal::Word;
use step_values::slot::{Node, Slot};

/// Returns the datum of a value of the type `base`.
///
/// An element of the file is a logical if the type is BOOLEAN or LOGICAL, otherwise an item of an
/// enumeration.
pub fn value_datum<'p, 'r>(
    types: &'p ValueTypes<'r>,
    base: &'p Base,
    value: &Slot<'p, 'r>,
) -> Datum<'r, Part<'p, 'r>>
    ensures { datum_of holding result ≡ coded_datum types.entry.now base.now value.now }
{
    node_datum(types, base, value.node())
}

/// Returns the datum of a value whose outermost part is `node`.
fn node_datum<'p, 'r>(
    types: &'p ValueTypes<'r>,
    base: &'p Base,
    node: Node<'p, 'r>,
) -> Datum<'r, Part<'p, 'r>>
    ensures { datum_of holding result ≡ coded_datum types.entry.now base.now
        (node_value node.entry) }
{
    match node {
        Node::Unset | Node::Derived => Datum::Indeterminate,
        Node::Number(number) => Datum::Number(number),
        Node::Text(text) => Datum::Text(text),
        Node::Bits(bits) => Datum::Bits(bits),
        Node::Element(word) => element_datum(base, word),
        Node::Reference(name, _) => Datum::Instance(name),
        Node::Typed(word, inner) => Datum::Typed(Part::typed(types, word, inner)),
        Node::Sequence(values) => Datum::Aggregate(Part::in_order(types, base, values)),
        Node::Bag(values) => Datum::Aggregate(Part::in_no_order(types, base, values)),
    }
}

/// Returns the datum of the element `word` of the file.
fn element_datum<'p, 'r>(base: &Base, word: Word<'r>) -> Datum<'r, Part<'p, 'r>>
    ensures { datum_of holding result ≡ coded_element base.now (word_of word.entry) }
{
    if is_logical(*base) {
        Datum::Logical(logical_of(word))
    } else {
        Datum::Element(word)
    }
}

/// Returns the datum of the content of a typed value, at any depth, and the datum of any other
/// value.
#[cycle(inside)]
pub(crate) fn bare_value<'p, 'r>(
    types: &'p ValueTypes<'r>,
    base: &'p Base,
    value: &Slot<'p, 'r>,
) -> Datum<'r, Part<'p, 'r>>
    ensures { datum_of holding result ≡ bare (coded_datum types.entry.now base.now value.now) }
{
    bare_node(types, base, value.node())
}

#[cycle(inside)]
fn bare_node<'p, 'r>(
    types: &'p ValueTypes<'r>,
    base: &'p Base,
    node: Node<'p, 'r>,
) -> Datum<'r, Part<'p, 'r>>
    ensures { datum_of holding result
        ≡ bare (coded_datum types.entry.now base.now (node_value node.entry)) }
{
    match node {
        Node::Typed(word, inner) => bare_value(types, types.of_name(word), &inner),
        other => node_datum(types, base, other),
    }
}

/// Returns the instance if `names` has exactly one, otherwise indeterminate.
pub fn only_instance<'p, 'r>(names: &[u64]) -> Datum<'r, Part<'p, 'r>>
    ensures { datum_of holding result ≡ only (instance_data names.now) }
{
    if names.len() == 1 {
        Datum::Instance(names[0])
    } else {
        Datum::Indeterminate
    }
}
