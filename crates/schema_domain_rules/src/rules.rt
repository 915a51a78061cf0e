//! The domain rules of one declaration.

ghost use Rattle.std.specs.Prelude.{◌≡◌, ◌∷◌, [], is_none, map, OnOk};
ghost use Rattle.express_syntax.specs.ExpressionViews.{capitals};
ghost use Rattle.express_syntax.specs.Schemas.{Schema};
ghost use Rattle.express_syntax.specs.Views.{if_some, rule_of};
ghost use Rattle.schema_semantics.specs.Parts.{label_of};
ghost use Rattle.schema_attribute_references.specs.steps.Taking.{schema_in};
ghost use Rattle.schema_constraints.specs.RuleViews.{label_seen};
ghost use Rattle.schema_semantics.specs.declared.unchecked.Reason.{Reason as Why};
ghost use Rattle.schema_names.specs.Numbers.{HasNumber};
ghost use Rattle.schema_unchecked.specs.steps.Findings.{AreFound};
ghost use Rattle.conformance.specs.DomainRules.{of_entity, of_type, RuleHasReason, domain_statements_from};
ghost use Rattle.schema_domain_rules.specs.RuleViews.{holder_seen, IsNumberedHolder};
ghost use Rattle.schema_domain_rules.specs.steps.Making.{statement_of, IsOwn, Adds};

use crate::rule::{DomainRule, RuleHolder};
use express_syntax::tree::{Body, Rule};
use schema_constraints::label::RuleLabel;
use schema_data_types::values::Atom;
use schema_semantics::unchecked::Reason;
use schema_unchecked::findings::Findings;
use schema_unchecked::list_parts::Holder;
use schema_unchecked::rules::{Own, is_type_over_select, reason_of_rule, values_of_type};
use std::alloc::{AllocError, Global};
use std::slice;
use step_literals::literal::Word;

/// Whether a rule with this reason, if any, is checked.
fn is_checked(reason: Option<Reason>) -> bool
    ensures { result ≡ is_none reason }
{
    reason.is_none()
}

/// Returns `label`, if any, otherwise the rule's number in its clause.
fn rule_label<'a>(label: Option<Word<'a>>, number: u64) -> RuleLabel<'a>
    ensures { label_seen result ≡ label_of number (if_some capitals label.entry) }
{
    match label {
        Some(label) => RuleLabel::Written(label),
        None => RuleLabel::Numbered(number),
    }
}

/// Adds a rule that is checked, so its body is an expression.
fn add_checked<'t, 'a>(
    rules: &mut Vec<DomainRule<'a, 't>>,
    holder: RuleHolder,
    number: u64,
    rule: &'t Rule<'a>,
) -> Result<(), AllocError>
    ensures { (s : Schema) → IsNumberedHolder s holder
        → ((r : Why) → RuleHasReason s (holder_seen s holder) (rule_of rule.now).body r → ⊥)
        → OnOk result (Adds s
        (statement_of (holder_seen s holder) number (rule_of rule.now) ∷ [])
        rules.old.items rules.new.items) }
{
    match &rule.body {
        Body::Expression(condition) => {
            let label = rule_label(rule.label, number);
            let row = DomainRule {
                holder,
                label,
                condition,
            };
            rules.push(row)?;
            Ok(())
        }
        Body::SetAside(_) => Ok(()),
    }
}

/// Where a rule stands.
#[derive(Clone, Copy)]
struct RulePlace {
    holder: RuleHolder,
    /// The number of the rule in its clause, from 1 on.
    number: u64,
}

/// Adds a rule if it is checked, by its label, if any, otherwise by its number in its clause.
fn add_rule<'t, 'a>(
    alloc: Global,
    findings: &Findings<'a, '_, '_>,
    rules: &mut Vec<DomainRule<'a, 't>>,
    own: Own<'_>,
    place: RulePlace,
    rule: &'t Rule<'a>,
) -> Result<(), AllocError>
    requires found { AreFound findings.now }
    requires own { IsOwn (schema_in findings.now.known) own place.holder }
    requires holder { IsNumberedHolder (schema_in findings.now.known) place.holder }
    ensures { OnOk result (Adds (schema_in findings.now.known) (statement_of
        (holder_seen (schema_in findings.now.known) place.holder) place.number
        (rule_of rule.now) ∷ []) rules.old.items rules.new.items) }
{
    let reason = reason_of_rule(alloc, findings, own, &rule.body)?;
    if is_checked(reason) {
        return add_checked(rules, place.holder, place.number, rule);
    }
    Ok(())
}

/// Adds the checked ones of `written`.
fn add_rules<'t, 'a>(
    alloc: Global,
    findings: &Findings<'a, '_, '_>,
    rules: &mut Vec<DomainRule<'a, 't>>,
    own: Own<'_>,
    holder: RuleHolder,
    written: &'t [Rule<'a>],
) -> Result<(), AllocError>
    requires found { AreFound findings.now }
    requires own { IsOwn (schema_in findings.now.known) own holder }
    requires holder { IsNumberedHolder (schema_in findings.now.known) holder }
    ensures { OnOk result (Adds (schema_in findings.now.known) (domain_statements_from
        (holder_seen (schema_in findings.now.known) holder) 1 (map rule_of written.now))
        rules.old.items rules.new.items) }
{
    for i in 0..written.len() {
        let place = RulePlace {
            holder,
            number: i as u64 + 1,
        };
        add_rule(alloc, findings, rules, own, place, &written[i])?;
    }
    Ok(())
}

/// Adds the checked rules of an entity. SELF is an instance of it (ISO 10303-11, 9.2.2.2).
pub(crate) fn add_entity_rules<'t, 'a>(
    alloc: Global,
    findings: &Findings<'a, '_, '_>,
    rules: &mut Vec<DomainRule<'a, 't>>,
    holder: Holder<'_>,
    written: &'t [Rule<'a>],
) -> Result<(), AllocError>
    requires found { AreFound findings.now }
    requires number { HasNumber (schema_in findings.now.known) (capitals holder.name)
        holder.number }
    ensures { OnOk result (Adds (schema_in findings.now.known) (domain_statements_from
        (of_entity (capitals holder.entry.name)) 1 (map rule_of written.now))
        rules.old.items rules.new.items) }
{
    let atom = Atom::Instance(holder.number);
    let own = Own {
        atoms: slice::from_ref(&atom),
        is_over_select: false,
    };
    let stated = RuleHolder::Entity(holder.number);
    add_rules(alloc, findings, rules, own, stated, written)
}

/// Adds the checked rules of a defined type. SELF is a value of it (ISO 10303-11, 9.1).
pub(crate) fn add_type_rules<'t, 'a>(
    alloc: Global,
    findings: &Findings<'a, '_, '_>,
    rules: &mut Vec<DomainRule<'a, 't>>,
    holder: Holder<'_>,
    written: &'t [Rule<'a>],
) -> Result<(), AllocError>
    requires found { AreFound findings.now }
    requires number { HasNumber (schema_in findings.now.known) (capitals holder.name)
        holder.number }
    ensures { OnOk result (Adds (schema_in findings.now.known) (domain_statements_from
        (of_type (capitals holder.entry.name)) 1 (map rule_of written.now))
        rules.old.items rules.new.items) }
{
    let atoms = values_of_type(alloc, findings, holder)?;
    let own = Own {
        atoms: &atoms,
        is_over_select: is_type_over_select(findings, holder),
    };
    let stated = RuleHolder::Type(holder.number);
    add_rules(alloc, findings, rules, own, stated, written)
}
