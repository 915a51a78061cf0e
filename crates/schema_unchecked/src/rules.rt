//! Domain rules (ISO 10303-11, 9.1 and 9.2.2.2).

ghost use Rattle.std.specs.Prelude.{◌≡◌, ◌∷◌, [], IfOk, OnOk, map, IsTrue, ◌↔◌, true};
ghost use Rattle.express_syntax.specs.ExpressionViews.{capitals};
ghost use Rattle.express_syntax.specs.Schemas.{named};
ghost use Rattle.express_syntax.specs.Views.{body_of, rule_of, entity_of, type_of};
ghost use Rattle.schema_semantics.specs.Names.{listed};
ghost use Rattle.schema_semantics.specs.Parts.{parts_of_rules, TypeRuleHasReason};
ghost use Rattle.schema_semantics.specs.Ranks.{Self, HasReason};
ghost use Rattle.schema_semantics.specs.Shapes.{IsOf, IsOverSelect};
ghost use Rattle.schema_names.specs.Numbers.{HasNumber};
ghost use Rattle.schema_data_types.specs.steps.Values.{Holds};
ghost use Rattle.schema_attribute_references.specs.steps.Taking.{IsSet, schema_in};
ghost use Rattle.schema_unchecked.specs.steps.Judging.{IsFirstReason};
ghost use Rattle.schema_unchecked_declarations.specs.UncheckedLists.{Adds, unchecked_in};
ghost use Rattle.schema_unchecked.specs.steps.Findings.{AreFound};
ghost use Rattle.schema_unchecked.specs.steps.Rules.{has_reason};

use crate::findings::Findings;
use crate::list_parts::{Holder, add_for, rule_label};
use crate::reasons::reason_for;
use express_syntax::tree::{Body, Rule};
use schema_data_types::values::{Atom, add_named, is_over_select};
use schema_semantics::unchecked::{PartKind, Reason};
use schema_unchecked_declarations::list::Unchecked;
use std::alloc::{AllocError, Global};
use std::slice;
use step_literals::literal::Word;

/// The possible values of SELF in a rule.
#[derive(Clone, Copy)]
pub struct Own<'r> {
    pub atoms: &'r [Atom],
    /// Whether SELF may be a value of a SELECT.
    pub is_over_select: bool,
}

/// Returns the first reason why a rule isn't checked, if any, for the possible values of SELF.
pub fn reason_of_rule<'a>(
    alloc: Global,
    findings: &Findings<'a, '_, '_>,
    own: Own<'_>,
    body: &Body<'a>,
) -> Result<Option<Reason>, AllocError>
    requires found { AreFound findings.now }
    ensures { IfOk result (IsFirstReason
        (has_reason (schema_in findings.now.known) own.entry (body_of body.now))) }
{
    if own.is_over_select {
        return Ok(Some(Reason::Profile));
    }
    // The copy lets the lifetimes of the findings shorten to that of `own`.
    let findings = *findings;
    reason_for(
        alloc,
        &findings.known,
        findings.items,
        findings.ranks,
        own.atoms,
        body,
    )
}

/// Where a rule stands.
#[derive(Clone, Copy)]
struct RulePlace<'n> {
    /// The name of the entity or type that states the rule.
    holder: Word<'n>,
    /// The number of the rule in its clause, from 1 on.
    number: u64,
}

/// Adds a rule if it is unchecked, by its label, if any, otherwise by its number in its clause.
fn add_rule<'a>(
    alloc: Global,
    findings: &Findings<'a, '_, '_>,
    list: &mut Vec<Unchecked>,
    own: Own<'_>,
    place: RulePlace<'_>,
    rule: &Rule<'a>,
) -> Result<(), AllocError>
    requires found { AreFound findings.now }
    ensures { OnOk result (Adds (parts_of_rules (capitals place.entry.holder)
        (has_reason (schema_in findings.now.known) own.entry) place.entry.number
        (rule_of rule.now ∷ []))
        (unchecked_in list.old.items) (unchecked_in list.new.items)) }
{
    let reason = reason_of_rule(alloc, findings, own, &rule.body)?;
    let label = rule_label(place.holder, rule.label, place.number);
    add_for(alloc, list, PartKind::Where, label, reason)
}

/// Adds the unchecked ones of `rules`.
fn add_rules<'a>(
    alloc: Global,
    findings: &Findings<'a, '_, '_>,
    list: &mut Vec<Unchecked>,
    own: Own<'_>,
    holder: Word<'_>,
    rules: &[Rule<'a>],
) -> Result<(), AllocError>
    requires found { AreFound findings.now }
    ensures { OnOk result (Adds (parts_of_rules (capitals holder.entry)
        (has_reason (schema_in findings.now.known) own.entry) 1 (map rule_of rules.now))
        (unchecked_in list.old.items) (unchecked_in list.new.items)) }
{
    for i in 0..rules.len() {
        let place = RulePlace {
            holder,
            number: i as u64 + 1,
        };
        add_rule(alloc, findings, list, own, place, &rules[i])?;
    }
    Ok(())
}

/// Adds the unchecked rules of an entity. SELF is an instance of it (ISO 10303-11, 9.2.2.2).
pub(crate) fn add_entity_rules<'a>(
    alloc: Global,
    findings: &Findings<'a, '_, '_>,
    list: &mut Vec<Unchecked>,
    holder: Holder<'_>,
    rules: &[Rule<'a>],
) -> Result<(), AllocError>
    requires found { AreFound findings.now }
    requires number { HasNumber (schema_in findings.now.known) (capitals holder.name)
        holder.number }
    ensures { OnOk result (Adds (parts_of_rules (capitals holder.entry.name)
        (HasReason (schema_in findings.now.known) (Self (capitals holder.entry.name))) 1
        (map rule_of rules.now)) (unchecked_in list.old.items) (unchecked_in list.new.items)) }
{
    let atom = Atom::Instance(holder.number);
    let own = Own {
        atoms: slice::from_ref(&atom),
        is_over_select: false,
    };
    add_rules(alloc, findings, list, own, holder.name, rules)
}

/// Returns the possible values of a defined type, which are those of SELF in its rules
/// (ISO 10303-11, 9.1).
pub fn values_of_type(
    alloc: Global,
    findings: &Findings<'_, '_, '_>,
    holder: Holder<'_>,
) -> Result<Vec<Atom>, AllocError>
    requires found { AreFound findings.now }
    requires number { HasNumber (schema_in findings.now.known) (capitals holder.name)
        holder.number }
    ensures { IfOk result (λ t. IsSet (schema_in findings.now.known)
        (IsOf (schema_in findings.now.known) (named (capitals holder.entry.name))) t.items) }
{
    let mut atoms = Vec::new(alloc);
    add_named(&findings.known.tables, holder.number, &mut atoms)?;
    Ok(atoms)
}

/// Whether a defined type is a SELECT, directly or through the names of other defined types.
pub fn is_type_over_select(findings: &Findings<'_, '_, '_>, holder: Holder<'_>) -> bool
    requires found { AreFound findings.now }
    requires number { HasNumber (schema_in findings.now.known) (capitals holder.name)
        holder.number }
    ensures { IsTrue result ↔ IsOverSelect (schema_in findings.now.known)
        (named (capitals holder.entry.name)) }
{
    is_over_select(&findings.known.tables, holder.number)
}

/// Adds the unchecked rules of a defined type. SELF is a value of it (ISO 10303-11, 9.1).
pub(crate) fn add_type_rules<'a>(
    alloc: Global,
    findings: &Findings<'a, '_, '_>,
    list: &mut Vec<Unchecked>,
    holder: Holder<'_>,
    rules: &[Rule<'a>],
) -> Result<(), AllocError>
    requires found { AreFound findings.now }
    requires number { HasNumber (schema_in findings.now.known) (capitals holder.name)
        holder.number }
    ensures { OnOk result (Adds (parts_of_rules (capitals holder.entry.name)
        (TypeRuleHasReason (schema_in findings.now.known) (named (capitals holder.entry.name))) 1
        (map rule_of rules.now)) (unchecked_in list.old.items) (unchecked_in list.new.items)) }
{
    let atoms = values_of_type(alloc, findings, holder)?;
    let own = Own {
        atoms: &atoms,
        is_over_select: is_type_over_select(findings, holder),
    };
    add_rules(alloc, findings, list, own, holder.name, rules)
}
