//! Uniqueness rules (ISO 10303-11, 9.2.2.1).

ghost use Rattle.std.specs.Prelude.{◌≡◌, ◌∷◌, [], OnOk, map};
ghost use Rattle.express_syntax.specs.ExpressionViews.{capitals};
ghost use Rattle.express_syntax.specs.Views.{unique_of};
ghost use Rattle.schema_semantics.specs.Names.{Name, IsEntity};
ghost use Rattle.schema_semantics.specs.Parts.{parts_of_uniques};
ghost use Rattle.schema_names.specs.Numbers.{HasNumber};
ghost use Rattle.schema_attribute_references.specs.steps.Taking.{schema_in};
ghost use Rattle.schema_unchecked_declarations.specs.UncheckedLists.{Adds, unchecked_in};
ghost use Rattle.schema_unchecked.specs.steps.Findings.{AreFound};
ghost use Rattle.schema_unchecked.specs.steps.Listing.{reason_by};

use crate::findings::Findings;
use crate::list_parts::{Holder, add_for, rule_label};
use express_syntax::tree::Unique;
use schema_attribute_references::unique_rule_names::{Naming, naming_of_all};
use schema_semantics::unchecked::{PartKind, Reason};
use schema_unchecked_declarations::list::Unchecked;
use std::alloc::{AllocError, Global};

/// Returns the reason that follows from the findings for a rule's attributes, if any.
fn reason_by(naming: Naming) -> Option<Reason>
    ensures { result ≡ reason_by naming }
{
    if naming.is_other {
        return Some(Reason::Profile);
    }
    if naming.is_not_one {
        return Some(Reason::Name);
    }
    None
}

/// Adds a rule if it is unchecked, by its label, if any, otherwise by its number in its clause.
fn add_unique<'a>(
    alloc: Global,
    findings: &Findings<'a, '_, '_>,
    list: &mut Vec<Unchecked>,
    holder: Holder<'_>,
    number: u64,
    unique: &Unique<'a>,
) -> Result<(), AllocError>
    requires found { AreFound findings.now }
    requires number { HasNumber (schema_in findings.now.known) (capitals holder.name)
        holder.number }
    requires entity { IsEntity (schema_in findings.now.known) (capitals holder.name) }
    ensures { OnOk result (Adds (parts_of_uniques (schema_in findings.now.known)
        (capitals holder.entry.name) number (unique_of unique.now ∷ []))
        (unchecked_in list.old.items) (unchecked_in list.new.items)) }
{
    let naming = naming_of_all(alloc, &findings.known, holder.number, &unique.attributes)?;
    let label = rule_label(holder.name, unique.label, number);
    add_for(alloc, list, PartKind::Unique, label, reason_by(naming))
}

/// Adds the unchecked ones of an entity's uniqueness rules.
pub(crate) fn add_uniques<'a>(
    alloc: Global,
    findings: &Findings<'a, '_, '_>,
    list: &mut Vec<Unchecked>,
    holder: Holder<'_>,
    uniques: &[Unique<'a>],
) -> Result<(), AllocError>
    requires found { AreFound findings.now }
    requires number { HasNumber (schema_in findings.now.known) (capitals holder.name)
        holder.number }
    requires entity { IsEntity (schema_in findings.now.known) (capitals holder.name) }
    ensures { OnOk result (Adds (parts_of_uniques (schema_in findings.now.known)
        (capitals holder.entry.name) 1 (map unique_of uniques.now))
        (unchecked_in list.old.items) (unchecked_in list.new.items)) }
{
    for i in 0..uniques.len() {
        add_unique(alloc, findings, list, holder, i as u64 + 1, &uniques[i])?;
    }
    Ok(())
}
