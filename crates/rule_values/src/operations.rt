//! Operations on data (ISO 10303-11, 12 and 15).

ghost use Rattle.std.specs.Prelude.{◌≡◌, false, OnOk};
ghost use Rattle.express_syntax.specs.ExpressionViews.{tree_of};
ghost use Rattle.express_logic.specs.Views.{datum_of};
ghost use Rattle.conformance.specs.Expressions.{of_call, of_junction};
ghost use Rattle.conformance.specs.Operations.{bare, says, size, high_index, low_index, compared, limited, is_true};
ghost use Rattle.rule_values.specs.steps.Forms.{is_condition, is_in, is_sizeof, is_typeof};
ghost use Rattle.rule_values.specs.Parts.{holding};

use crate::contents::{bare, high_index, is_known, low_index, size};
use crate::part::Part;
use express_logic::comparison::{equal, less, member};
use express_logic::datum::Datum;
use express_logic::logical::{Logical, known, not, or, xor};
use express_syntax::expression::{Expr, Function, Junction, Limit, Relation};
use std::alloc::AllocError;
use std::mem;

/// Whether `value` is a typed value. Any other value is its own content, and needn't be copied.
pub fn is_typed(value: &Datum<'_, Part<'_, '_>>) -> bool
    ensures { result ≡ false → bare (datum_of holding value.now) ≡ datum_of holding value.now }
{
    match value {
        Datum::Typed(_) => true,
        _ => false,
    }
}

/// Replaces a typed value by its content, at any depth.
pub fn strip_type<'p, 'r>(value: &mut Datum<'r, Part<'p, 'r>>)
    ensures { datum_of holding value.new ≡ bare (datum_of holding value.old) }
{
    if is_typed(value) {
        let typed = mem::replace(value, Datum::Indeterminate);
        *value = bare(typed);
    }
}

/// Returns the truth of `value` as an operand of a logical operator. A typed value is replaced by
/// its content.
pub fn truth<'p, 'r>(value: &mut Datum<'r, Part<'p, 'r>>) -> Logical
    ensures { result ≡ says (datum_of holding value.old) }
{
    strip_type(value);
    value.truth()
}

/// Whether a condition with this value is TRUE.
pub fn is_true(value: Logical) -> bool
    ensures { result ≡ is_true value }
{
    matches!(value, Logical::True)
}

/// Returns the result of comparing `left` and `right` by `relation`.
pub fn compared<'p, 'r>(
    relation: Relation,
    left: &Datum<'r, Part<'p, 'r>>,
    right: &Datum<'r, Part<'p, 'r>>,
) -> Logical
    ensures { result
        ≡ compared relation (datum_of holding left.now) (datum_of holding right.now) }
{
    match relation {
        Relation::Equal => equal(left, right),
        Relation::NotEqual => not(equal(left, right)),
        Relation::Less => less(left, right),
        Relation::Greater => less(right, left),
        Relation::LessOrEqual => not(less(right, left)),
        Relation::GreaterOrEqual => not(less(left, right)),
        Relation::In => member(left, right),
    }
}

/// Whether `expression` is a condition by its form, in parentheses or not: a comparison, an
/// interval, or a logical operator with its operands.
pub fn is_condition(expression: &Expr<'_>) -> bool
    ensures { result ≡ is_condition (tree_of expression.now) }
{
    match expression {
        Expr::Parenthesized(inner) => is_condition(inner),
        Expr::Interval { .. } => true,
        Expr::Not(_) => true,
        Expr::Conjunction(_, _) => true,
        Expr::Disjunction(_, _) => true,
        Expr::Comparison(_, _, _) => true,
        _ => false,
    }
}

/// Whether `relation` is IN.
pub fn is_in(relation: Relation) -> bool
    ensures { result ≡ is_in relation }
{
    matches!(relation, Relation::In)
}

/// Whether `function` is TYPEOF.
pub fn is_typeof(function: Function) -> bool
    ensures { result ≡ is_typeof function }
{
    matches!(function, Function::Typeof)
}

/// Whether `function` is SIZEOF.
pub fn is_sizeof(function: Function) -> bool
    ensures { result ≡ is_sizeof function }
{
    matches!(function, Function::Sizeof)
}

/// Returns the result of comparing `left` and `right` by a limit of an interval.
pub fn limited<'p, 'r>(
    limit: Limit,
    left: &Datum<'r, Part<'p, 'r>>,
    right: &Datum<'r, Part<'p, 'r>>,
) -> Logical
    ensures { result ≡ limited limit (datum_of holding left.now) (datum_of holding right.now) }
{
    match limit {
        Limit::Less => less(left, right),
        Limit::LessOrEqual => not(less(right, left)),
    }
}

/// Returns the OR or the XOR of `p` and `q`.
pub fn joined(junction: Junction, p: Logical, q: Logical) -> Logical
    ensures { result ≡ of_junction junction p q }
{
    match junction {
        Junction::Or => or(p, q),
        Junction::Xor => xor(p, q),
    }
}

/// Replaces an aggregate by the number of its elements, also inside a typed value: SIZEOF. Fails if
/// there are 2^63 elements or more.
pub fn replace_by_size<'p, 'r>(value: &mut Datum<'r, Part<'p, 'r>>) -> Result<(), AllocError>
    ensures { OnOk result (datum_of holding value.new ≡ size (bare (datum_of holding value.old))) }
{
    strip_type(value);
    *value = size(value)?;
    Ok(())
}

/// Replaces an aggregate by its last index, also inside a typed value: HIINDEX. Fails if 2^63
/// elements or more have to be counted.
fn replace_by_high_index<'p, 'r>(value: &mut Datum<'r, Part<'p, 'r>>) -> Result<(), AllocError>
    ensures { OnOk result (datum_of holding value.new
        ≡ high_index (bare (datum_of holding value.old))) }
{
    strip_type(value);
    *value = high_index(value)?;
    Ok(())
}

/// Replaces an aggregate by its first index, also inside a typed value: LOINDEX.
fn replace_by_low_index<'p, 'r>(value: &mut Datum<'r, Part<'p, 'r>>)
    ensures { datum_of holding value.new ≡ low_index (bare (datum_of holding value.old)) }
{
    strip_type(value);
    *value = low_index(value);
}

/// Replaces `value` by the result of applying `function` to it. The result of TYPEOF is
/// indeterminate, because TYPEOF has a value only as the right operand of IN. Fails if 2^63
/// elements or more have to be counted.
#[inline(never)]
pub fn apply<'p, 'r>(
    function: Function,
    value: &mut Datum<'r, Part<'p, 'r>>,
) -> Result<(), AllocError>
    ensures { OnOk result (datum_of holding value.new
        ≡ of_call function (datum_of holding value.old)) }
{
    match function {
        Function::Exists => *value = Datum::Logical(known(is_known(value))),
        Function::Sizeof => replace_by_size(value)?,
        Function::Hiindex => replace_by_high_index(value)?,
        Function::Loindex => replace_by_low_index(value),
        Function::Typeof => *value = Datum::Indeterminate,
    }
    Ok(())
}
