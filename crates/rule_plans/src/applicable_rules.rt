//! The rules that are tried at the instances of a form.

ghost use Rattle.std.specs.Prelude.{◌≡◌, map, IfOk};
ghost use Rattle.rule_plans.specs.steps.Applying.{may_apply, numbers_by};

use population_rows::form::Form;
use schema_domain_rules::rule::{DomainRule, RuleHolder};
use std::alloc::{AllocError, Global};

/// Whether `rule` may have a value of SELF at an instance of `form`.
fn may_apply(form: &Form, rule: &DomainRule<'_, '_>) -> bool
    ensures { result ≡ may_apply form.now rule.now }
{
    match rule.holder {
        RuleHolder::Entity(number) => form.types.contains(&number),
        RuleHolder::Type(_) => true,
    }
}

/// Returns the numbers of the rules that may have a value of SELF at instances of `form`.
fn numbers_of(
    alloc: Global,
    rules: &[DomainRule<'_, '_>],
    form: &Form,
) -> Result<Vec<usize>, AllocError>
    ensures { IfOk result (λ t. t.items ≡ numbers_by rules.now 0 form.now) }
{
    let mut numbers = Vec::new(alloc);
    for number in 0..rules.len() {
        if may_apply(form, &rules[number]) {
            numbers.push(number)?;
        }
    }
    Ok(numbers)
}

/// Returns, for each of `forms`, the numbers of the rules that may have a value of SELF at its
/// instances.
pub fn numbers_by_form(
    alloc: Global,
    rules: &[DomainRule<'_, '_>],
    forms: &[Form],
) -> Result<Vec<Vec<usize>>, AllocError>
    ensures { IfOk result (λ t. map (λ v. v.items) t.items
        ≡ map (numbers_by rules.now 0) forms.now) }
{
    let mut rows = Vec::with_capacity(alloc, forms.len())?;
    for form in forms {
        rows.push(numbers_of(alloc, rules, form)?)?;
    }
    Ok(rows)
}
