//! Adding parts with reasons, and the names of rules.

ghost use Rattle.std.specs.Prelude.{◌≡◌, ◌++◌, OnOk};
ghost use Rattle.express_syntax.specs.ExpressionViews.{capitals};
ghost use Rattle.express_syntax.specs.Views.{if_some};
ghost use Rattle.schema_semantics.specs.Parts.{dotted, label_of};
ghost use Rattle.schema_unchecked_declarations.specs.UncheckedLists.{label_name, unchecked_in};
ghost use Rattle.schema_unchecked.specs.steps.Listing.{given};

use schema_semantics::unchecked::{PartKind, Reason};
use schema_unchecked_declarations::list::{Label, Unchecked, add_part};
use std::alloc::{AllocError, Global};
use step_literals::literal::Word;

/// An entity or a defined type whose parts are listed.
#[derive(Clone, Copy)]
pub struct Holder<'a> {
    /// Its number among the declarations.
    pub number: u32,
    pub name: Word<'a>,
}

/// Adds a part if there is a reason.
pub(crate) fn add_for(
    alloc: Global,
    list: &mut Vec<Unchecked>,
    kind: PartKind,
    label: Label<'_>,
    reason: Option<Reason>,
) -> Result<(), AllocError>
    ensures { OnOk result (unchecked_in list.new.items
        ≡ unchecked_in list.old.items ++ given kind (label_name label.entry) reason) }
{
    match reason {
        Some(reason) => add_part(alloc, list, kind, label, reason),
        None => Ok(()),
    }
}

/// Returns the name of a rule: its label, if any, otherwise its number in its clause.
pub(crate) fn rule_label<'a>(holder: Word<'a>, label: Option<Word<'a>>, number: u64) -> Label<'a>
    ensures { label_name result ≡ dotted (capitals holder.entry)
        (label_of number (if_some capitals label.entry)) }
{
    match label {
        Some(label) => Label::Dotted(holder, label),
        None => Label::Numbered(holder, number),
    }
}
