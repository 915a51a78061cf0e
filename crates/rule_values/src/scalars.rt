//! What values of a population are compared by.

ghost use Rattle.std.specs.Prelude.{◌≡◌};
ghost use Rattle.step_values.specs.steps.Slots.{node_value};
ghost use Rattle.step_values.specs.Views.{word_of};
ghost use Rattle.express_logic.specs.Comparison.{scalar};
ghost use Rattle.express_logic.specs.Views.{scalar_of};
ghost use Rattle.conformance.specs.Values.{logical_of};
ghost use Rattle.rule_values.specs.TableValues.{is_logical, coded_element, coded_datum};

use crate::types::ValueTypes;
use express_logic::binaries::AnyBinary;
use express_logic::logical::Logical;
use express_logic::numbers::AnyNumber;
use express_logic::scalar::Scalar;
use express_logic::strings::AnyString;
use schema_underlying_types::base::Base;
use step_literals::literal::Word;
use step_values::slot::{Node, Slot};

/// Whether elements of this type are logicals.
pub(crate) fn is_logical(base: Base) -> bool
    ensures { result ≡ is_logical base }
{
    matches!(base, Base::Boolean | Base::Logical)
}

/// Returns the logical that an element of BOOLEAN or LOGICAL is (ISO 10303-21, 11.1).
pub(crate) fn logical_of(word: Word<'_>) -> Logical
    ensures { result ≡ logical_of (word_of word.entry) }
{
    let text = word.spelling();
    if text.eq_ignore_ascii_case(b"T") {
        Logical::True
    } else if text.eq_ignore_ascii_case(b"F") {
        Logical::False
    } else {
        Logical::Unknown
    }
}

/// Returns what the element `word` of the type `base` is compared by.
fn element_scalar<'r>(base: &Base, word: Word<'r>) -> Scalar<'r>
    ensures { scalar_of result ≡ scalar (coded_element base.now (word_of word.entry)) }
{
    if is_logical(*base) {
        Scalar::Logical(logical_of(word))
    } else {
        Scalar::Element(word)
    }
}

/// Returns what a value of the type `base` is compared by. A typed value is compared by its
/// content.
#[cycle(scalars)]
pub(crate) fn value_scalar<'p, 'r>(
    types: &ValueTypes<'r>,
    base: &Base,
    value: &Slot<'p, 'r>,
) -> Scalar<'r>
    ensures { scalar_of result ≡ scalar (coded_datum types.now base.now value.now) }
{
    node_scalar(types, base, &value.node())
}

#[cycle(scalars)]
fn node_scalar<'p, 'r>(types: &ValueTypes<'r>, base: &Base, node: &Node<'p, 'r>) -> Scalar<'r>
    ensures { scalar_of result ≡ scalar (coded_datum types.now base.now (node_value node.now)) }
{
    match node {
        Node::Unset | Node::Derived | Node::Reference(..) => Scalar::Nothing,
        Node::Number(decimal) => Scalar::Number(AnyNumber::Written {
            decimal: *decimal,
            is_negated: false,
        }),
        Node::Text(text) => Scalar::String(AnyString::Exchange(*text)),
        Node::Bits(bits) => Scalar::Binary(AnyBinary::Exchange(*bits)),
        Node::Element(word) => element_scalar(base, *word),
        Node::Typed(word, inner) => value_scalar(types, types.of_name(*word), inner),
        Node::Sequence(_) => Scalar::Nothing,
        Node::Bag(_) => Scalar::Nothing,
    }
}
