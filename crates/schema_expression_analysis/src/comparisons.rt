//! The faults of comparisons (ISO 10303-11, 12.2 and 15.25).

ghost use Rattle.std.specs.Prelude.{◌≡◌, ◌↔◌, ◌⊎◌, false, IsTrue, IfOk};
ghost use Rattle.express_syntax.specs.Trees.{comparison, interval};
ghost use Rattle.express_syntax.specs.ExpressionViews.{tree_of};
ghost use Rattle.express_syntax.specs.Views.{if_some};
ghost use Rattle.schema_semantics.specs.Names.{Name, IsEntity, IsType};
ghost use Rattle.schema_semantics.specs.Reasons.{
  HasBareValue,
  MayBeDeep,
  MayBeUnordered,
  BothDeep,
  IsTypeTest,
  IsBadTypeTest,
  IsBadTypeof,
  IsBadKind,
};
ghost use Rattle.schema_names.specs.Numbers.{HasNumber};
ghost use Rattle.schema_names.specs.Schemas.{the_schema};
ghost use Rattle.schema_attribute_references.specs.steps.Taking.{schema_in};
ghost use Rattle.schema_expression_types.specs.steps.Scopes.{IsScope, own_in, variables_in};
ghost use Rattle.schema_expression_analysis.specs.steps.Questions.{
  tested,
  may_in,
  elements_in,
  TestsType,
  EitherUnordered,
};

use crate::atoms::{has_bare_value, is_deep, is_unordered};
use express_syntax::expression::{Expr, Function, Relation};
use express_syntax::tree::Declaration;
use schema_data_types::values::is_over_select;
use schema_expression_types::scope::Scope;
use schema_expression_types::sets::{possible, possible_elements};
use schema_expression_types::type_strings::said_type;
use schema_names::names::Names;
use std::alloc::{AllocError, Global};

/// Whether an expression may be an instance or an aggregate.
fn may_be_deep<'a>(
    alloc: Global,
    scope: &Scope<'a, '_, '_, '_>,
    expression: &Expr<'a>,
) -> Result<bool, AllocError>
    requires scope { IsScope scope.now }
    ensures { IfOk result (λ b. IsTrue b ↔ MayBeDeep (may_in scope.now (tree_of expression.now))) }
{
    let atoms = possible(alloc, scope, expression)?;
    Ok(is_deep(&scope.known.tables, &atoms))
}

/// Whether the elements of an expression on the right of IN may be instances or aggregates.
fn may_have_deep<'a>(
    alloc: Global,
    scope: &Scope<'a, '_, '_, '_>,
    expression: &Expr<'a>,
) -> Result<bool, AllocError>
    requires scope { IsScope scope.now }
    ensures { IfOk result (λ b. IsTrue b ↔ MayBeDeep
        (elements_in scope.now (tree_of expression.now))) }
{
    let atoms = possible_elements(alloc, scope, expression)?;
    Ok(is_deep(&scope.known.tables, &atoms))
}

/// Whether an expression may be a string, a binary or an enumeration item.
fn may_be_unordered<'a>(
    alloc: Global,
    scope: &Scope<'a, '_, '_, '_>,
    expression: &Expr<'a>,
) -> Result<bool, AllocError>
    requires scope { IsScope scope.now }
    ensures { IfOk result (λ b. IsTrue b ↔ MayBeUnordered
        (may_in scope.now (tree_of expression.now))) }
{
    let atoms = possible(alloc, scope, expression)?;
    Ok(is_unordered(&scope.known.tables, &atoms))
}

/// Whether an expression may be a value that isn't of a SELECT.
fn may_be_bare<'a>(
    alloc: Global,
    scope: &Scope<'a, '_, '_, '_>,
    expression: &Expr<'a>,
) -> Result<bool, AllocError>
    requires scope { IsScope scope.now }
    ensures { IfOk result (λ b. IsTrue b ↔ HasBareValue
        (may_in scope.now (tree_of expression.now))) }
{
    let atoms = possible(alloc, scope, expression)?;
    Ok(has_bare_value(&scope.known.tables, &atoms))
}

/// Whether `part` is an entity.
fn is_entity(names: &Names<'_, '_>, part: u32) -> bool
    requires numbered { (n : Name) × HasNumber (the_schema names.now) n part }
    ensures { (n : Name) → HasNumber (the_schema names.now) n part
        → IsTrue result ↔ IsEntity (the_schema names.now) n }
{
    match names.declaration(part) {
        Declaration::Entity(_) => true,
        Declaration::Type(_) => false,
        Declaration::Skipped(_) => false,
    }
}

/// Whether it can be decided if the value of `expression` is of the type `part`
/// (ISO 10303-11, 15.25).
fn tests_type<'a>(
    alloc: Global,
    scope: &Scope<'a, '_, '_, '_>,
    part: u32,
    expression: &Expr<'a>,
) -> Result<bool, AllocError>
    requires scope { IsScope scope.now }
    requires numbered { (n : Name) × HasNumber (schema_in scope.now.known) n part }
    ensures { (n : Name) → HasNumber (schema_in scope.now.known) n part
        → IfOk result (λ b. IsTrue b ↔ TestsType (schema_in scope.now.known) n
        (may_in scope.now (tree_of expression.now))) }
{
    if is_entity(scope.known.tables.names, part) {
        return Ok(true);
    }
    if is_over_select(&scope.known.tables, part) {
        return Ok(false);
    }
    Ok(!may_be_bare(alloc, scope, expression)?)
}

/// Whether `left IN TYPEOF(expression)` can be decided (ISO 10303-11, 15.25).
fn is_type_test<'a>(
    alloc: Global,
    scope: &Scope<'a, '_, '_, '_>,
    left: &Expr<'a>,
    expression: &Expr<'a>,
) -> Result<bool, AllocError>
    requires scope { IsScope scope.now }
    ensures { IfOk result (λ b. IsTrue b ↔ IsTypeTest (schema_in scope.now.known)
        (own_in scope.now) (variables_in scope.now) (tree_of left.now)
        (tree_of expression.now)) }
{
    match said_type(alloc, scope.known.tables.names, left)? {
        Some(part) => tests_type(alloc, scope, part, expression),
        None => Ok(false),
    }
}

/// Returns the argument of TYPEOF, in parentheses or not, or `None` for other expressions.
fn tested<'r, 'a>(expression: &'r Expr<'a>) -> Option<&'r Expr<'a>>
    ensures { if_some (λ x. tree_of x.now) result ≡ tested (tree_of expression.now) }
{
    match expression {
        Expr::Call(Function::Typeof, argument) => Some(argument),
        Expr::Parenthesized(inner) => tested(inner),
        _ => None,
    }
}

/// Whether `right` is a call of TYPEOF, and `left IN right` can't be decided (ISO 10303-11, 15.25).
fn is_bad_type_test<'a>(
    alloc: Global,
    scope: &Scope<'a, '_, '_, '_>,
    left: &Expr<'a>,
    right: &Expr<'a>,
) -> Result<bool, AllocError>
    requires scope { IsScope scope.now }
    ensures { IfOk result (λ b. IsTrue b ↔ IsBadTypeTest (schema_in scope.now.known)
        (own_in scope.now) (variables_in scope.now) (tree_of left.now) (tree_of right.now)) }
{
    match tested(right) {
        Some(argument) => Ok(!is_type_test(alloc, scope, left, argument)?),
        None => Ok(false),
    }
}

/// Whether a comparison is a type test that can't be decided (ISO 10303-11, 15.25).
pub(crate) fn is_bad_test<'a>(
    alloc: Global,
    scope: &Scope<'a, '_, '_, '_>,
    left: &Expr<'a>,
    relation: Relation,
    right: &Expr<'a>,
) -> Result<bool, AllocError>
    requires scope { IsScope scope.now }
    ensures { IfOk result (λ b. IsTrue b ↔ IsBadTypeof (schema_in scope.now.known)
        (own_in scope.now) false (variables_in scope.now)
        (comparison (tree_of left.now) relation (tree_of right.now))) }
{
    match relation {
        Relation::In => is_bad_type_test(alloc, scope, left, right),
        _ => Ok(false),
    }
}

/// Whether both expressions may be instances or aggregates.
fn are_deep<'a>(
    alloc: Global,
    scope: &Scope<'a, '_, '_, '_>,
    left: &Expr<'a>,
    right: &Expr<'a>,
) -> Result<bool, AllocError>
    requires scope { IsScope scope.now }
    ensures { IfOk result (λ b. IsTrue b ↔ BothDeep
        (may_in scope.now (tree_of left.now))
        (may_in scope.now (tree_of right.now))) }
{
    Ok(may_be_deep(alloc, scope, left)? && may_be_deep(alloc, scope, right)?)
}

/// Whether `left` and the elements of `right` may both be instances or aggregates.
fn are_deep_in<'a>(
    alloc: Global,
    scope: &Scope<'a, '_, '_, '_>,
    left: &Expr<'a>,
    right: &Expr<'a>,
) -> Result<bool, AllocError>
    requires scope { IsScope scope.now }
    ensures { IfOk result (λ b. IsTrue b ↔ BothDeep
        (may_in scope.now (tree_of left.now))
        (elements_in scope.now (tree_of right.now))) }
{
    Ok(may_be_deep(alloc, scope, left)? && may_have_deep(alloc, scope, right)?)
}

/// Whether one of the expressions may be a string, a binary or an enumeration item.
fn one_is_unordered<'a>(
    alloc: Global,
    scope: &Scope<'a, '_, '_, '_>,
    left: &Expr<'a>,
    right: &Expr<'a>,
) -> Result<bool, AllocError>
    requires scope { IsScope scope.now }
    ensures { IfOk result (λ b. IsTrue b ↔ EitherUnordered
        (may_in scope.now (tree_of left.now))
        (may_in scope.now (tree_of right.now))) }
{
    Ok(may_be_unordered(alloc, scope, left)? || may_be_unordered(alloc, scope, right)?)
}

/// Whether a comparison is of values that aren't compared (ISO 10303-11, 12.2).
pub(crate) fn is_bad_kind<'a>(
    alloc: Global,
    scope: &Scope<'a, '_, '_, '_>,
    left: &Expr<'a>,
    relation: Relation,
    right: &Expr<'a>,
) -> Result<bool, AllocError>
    requires scope { IsScope scope.now }
    ensures { IfOk result (λ b. IsTrue b ↔ IsBadKind (schema_in scope.now.known)
        (own_in scope.now) false (variables_in scope.now)
        (comparison (tree_of left.now) relation (tree_of right.now))) }
{
    match relation {
        Relation::Equal | Relation::NotEqual => are_deep(alloc, scope, left, right),
        Relation::In => are_deep_in(alloc, scope, left, right),
        _ => one_is_unordered(alloc, scope, left, right),
    }
}

/// Whether an interval is of values that aren't ordered (ISO 10303-11, 12.2.4).
pub(crate) fn is_bad_interval<'a>(
    alloc: Global,
    scope: &Scope<'a, '_, '_, '_>,
    low: &Expr<'a>,
    item: &Expr<'a>,
    high: &Expr<'a>,
) -> Result<bool, AllocError>
    requires scope { IsScope scope.now }
    ensures { IfOk result (λ b. IsTrue b ↔ (MayBeUnordered
        (may_in scope.now (tree_of low.now))
        ⊎ EitherUnordered
        (may_in scope.now (tree_of item.now))
        (may_in scope.now (tree_of high.now)))) }
{
    Ok(may_be_unordered(alloc, scope, low)? || one_is_unordered(alloc, scope, item, high)?)
}
