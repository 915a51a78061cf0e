//! The labels of uniqueness rules (ISO 10303-11, 9.2.2.1).

ghost use Rattle.std.specs.Prelude.{◌≡◌};
ghost use Rattle.express_syntax.specs.ExpressionViews.{capitals};
ghost use Rattle.express_syntax.specs.Views.{if_some};
ghost use Rattle.schema_semantics.specs.Parts.{label_of};
ghost use Rattle.schema_constraints.specs.RuleViews.{label_seen};

use step_literals::literal::Word;

/// The label of a rule as it is written, or, if it has none, its number in its clause, counted from
/// 1 (ISO 10303-11, 9.2.2.1).
#[derive(Clone, Copy)]
pub enum RuleLabel<'a> {
    Written(Word<'a>),
    Numbered(u64),
}

/// Returns `label`, if any, otherwise `number`.
pub(crate) fn rule_label<'a>(label: Option<Word<'a>>, number: u64) -> RuleLabel<'a>
    ensures { label_seen result ≡ label_of number (if_some capitals label.entry) }
{
    match label {
        Some(label) => RuleLabel::Written(label),
        None => RuleLabel::Numbered(number),
    }
}
