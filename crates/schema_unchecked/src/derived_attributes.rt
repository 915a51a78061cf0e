//! Derived attributes (ISO 10303-11, 9.2.1.2).

ghost use Rattle.std.specs.Prelude.{◌≡◌, ℕ, ◌+◌, IfOk, OnOk, map, length};
ghost use Rattle.express_syntax.specs.ExpressionViews.{capitals};
ghost use Rattle.express_syntax.specs.Schemas.{entity as entity_tree};
ghost use Rattle.express_syntax.specs.Views.{derived_of, entity_of, declaration_of};
ghost use Rattle.schema_semantics.specs.Names.{listed};
ghost use Rattle.schema_semantics.specs.Attributes.{IsDerivation};
ghost use Rattle.schema_semantics.specs.Parts.{for_each, parts_of_derived};
ghost use Rattle.schema_names.specs.Numbers.{IsAt};
ghost use Rattle.schema_attributes.specs.Derivations.{HasDerivation, derivations_in};
ghost use Rattle.schema_attribute_references.specs.steps.Taking.{schema_in};
ghost use Rattle.schema_unchecked_declarations.specs.UncheckedLists.{Adds, unchecked_in};
ghost use Rattle.schema_unchecked.specs.steps.Findings.{AreFound};
ghost use Rattle.schema_unchecked.specs.steps.Places.{derivations_before, AreDerivationsFrom};

use crate::findings::Findings;
use crate::list_parts::add_for;
use crate::reasons::reason_of_derived;
use express_syntax::tree::{Declaration, Derived, Entity};
use schema_semantics::unchecked::PartKind;
use schema_unchecked_declarations::limits::add_data_type;
use schema_unchecked_declarations::list::{Unchecked, attribute_label};
use std::alloc::{AllocError, Global};
use step_literals::literal::Word;

/// Returns `number + count`. Fails if the sum exceeds 32 bits.
fn number_behind(number: u32, count: usize) -> Result<u32, AllocError>
    ensures { IfOk result (λ n. n ≡ number + count) }
{
    match u32::try_from(count) {
        Ok(count) => number.checked_add(count).ok_or(AllocError),
        Err(_) => Err(AllocError),
    }
}

/// Returns the number of the first derived attribute after `declaration`, whose own have numbers
/// from `first` on.
pub(crate) fn first_behind(first: u32, declaration: &Declaration<'_>) -> Result<u32, AllocError>
    ensures { IfOk result (λ n. n ≡ first + length
        (derivations_in (declaration_of declaration.now))) }
{
    match declaration {
        Declaration::Entity(entity) => number_behind(first, entity.derived_attributes().len()),
        Declaration::Type(_) | Declaration::Skipped(_) => Ok(first),
    }
}

/// Adds the derived attribute `number` if it is unchecked, then the unchecked limits of its data
/// type.
fn add_derived<'a>(
    alloc: Global,
    findings: &Findings<'a, '_, '_>,
    list: &mut Vec<Unchecked>,
    holder: Word<'_>,
    number: u32,
    derived: &Derived<'a>,
) -> Result<(), AllocError>
    requires found { AreFound findings.now }
    ensures { (n : ℕ)
        → HasDerivation (schema_in findings.now.known) number (capitals holder.entry, n)
        → IsDerivation (schema_in findings.now.known) (capitals holder.entry, n)
        (derived_of derived.now)
        → OnOk result (Adds (parts_of_derived (schema_in findings.now.known)
        (capitals holder.entry) (derived_of derived.now))
        (unchecked_in list.old.items) (unchecked_in list.new.items)) }
{
    let reason = reason_of_derived(&findings.known, findings.judged, findings.ranks, number);
    let label = attribute_label(holder, &derived.attribute);
    add_for(alloc, list, PartKind::Derive, label, reason)?;
    add_data_type(alloc, list, label, &derived.data_type)
}

/// Adds the unchecked parts of derived attributes, which have numbers from `first` on.
fn add_deriveds<'a>(
    alloc: Global,
    findings: &Findings<'a, '_, '_>,
    list: &mut Vec<Unchecked>,
    holder: Word<'_>,
    first: u32,
    deriveds: &[Derived<'a>],
) -> Result<(), AllocError>
    requires found { AreFound findings.now }
    requires numbered { AreDerivationsFrom (schema_in findings.now.known) (capitals holder) first
        (map derived_of deriveds.now) }
    ensures { OnOk result (Adds (for_each (parts_of_derived (schema_in findings.now.known)
        (capitals holder.entry)) (map derived_of deriveds.now))
        (unchecked_in list.old.items) (unchecked_in list.new.items)) }
{
    for i in 0..deriveds.len() {
        let number = number_behind(first, i)?;
        add_derived(alloc, findings, list, holder, number, &deriveds[i])?;
    }
    Ok(())
}

/// Adds the unchecked parts of an entity's derived attributes, in the order of the text. They have
/// numbers from `first` on (ISO 10303-11, 9.2.1.2).
pub(crate) fn add_derived_attributes<'a>(
    alloc: Global,
    findings: &Findings<'a, '_, '_>,
    list: &mut Vec<Unchecked>,
    number: u32,
    first: u32,
    entity: &Entity<'a>,
) -> Result<(), AllocError>
    requires found { AreFound findings.now }
    requires at { IsAt (schema_in findings.now.known) number (entity_tree (entity_of entity.now)) }
    requires first { first ≡ derivations_before (schema_in findings.now.known) number }
    ensures { OnOk result (Adds (for_each (parts_of_derived (schema_in findings.now.known)
        (entity_of entity.now).name) (listed (entity_of entity.now).derived))
        (unchecked_in list.old.items) (unchecked_in list.new.items)) }
{
    add_deriveds(
        alloc,
        findings,
        list,
        entity.name,
        first,
        entity.derived_attributes(),
    )
}
