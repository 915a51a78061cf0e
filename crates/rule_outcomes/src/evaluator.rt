//! Evaluating expressions at the instances of a population.

ghost use Rattle.std.specs.Prelude.{◌≡◌, IfOk};
ghost use Rattle.express_syntax.specs.ExpressionViews.{tree_of};
ghost use Rattle.express_logic.specs.Views.{datum_of};
ghost use Rattle.rule_values.specs.Parts.{element_datum, holding};
ghost use Rattle.rule_settings.specs.Settings.{IsSetting, Meant};
ghost use Rattle.rule_plans.specs.Limits.{IsLimit};
ghost use Rattle.rule_outcomes.specs.Outcomes.{meaning_in};

use express_logic::datum::Datum;
use express_syntax::expression::Expr;
use rule_evaluation::values::value_at;
use rule_plans::rank_limit::rank_limit;
use rule_settings::setting::Setting;
use rule_values::element::Element;
use rule_values::part::Part;
use std::alloc::{AllocError, Global};

/// An evaluator of the expressions of a schema at the instances of a population.
#[derive(Drop)]
pub struct Evaluator<'s, 't, 'r, 'a, 'e, 'p> {
    pub setting: &'p Setting<'s, 't, 'r, 'a, 'e, 'p>,
    /// A rank above those of all derived attributes.
    pub limit: u64,
}

impl<'s: 'r, 't, 'r, 'a: 'r, 'e, 'p> Evaluator<'s, 't, 'r, 'a, 'e, 'p> {
    /// Returns an evaluator for the schema and the population of `setting`.
    pub fn of(setting: &'p Setting<'s, 't, 'r, 'a, 'e, 'p>) -> Evaluator<'s, 't, 'r, 'a, 'e, 'p>
        ensures setting { result.setting.now ≡ setting.entry.now }
        ensures limit { IsLimit result.setting.now.formulas.now result.limit }
    {
        Evaluator {
            setting,
            limit: rank_limit(setting.formulas),
        }
    }

    /// Returns the value of `expression` with `me` as SELF, which is an instance or a value
    /// (ISO 10303-11, 9.2.1.2 and 12).
    pub fn evaluate(
        &self,
        alloc: Global,
        expression: &Expr<'s>,
        me: Element<'p, 'r>,
    ) -> Result<Datum<'r, Part<'p, 'r>>, AllocError>
        requires setting { IsSetting self.now.setting.now }
        requires limit { IsLimit self.now.setting.now.formulas.now self.now.limit }
        ensures { IfOk result (λ d. (m : Meant self.now.setting.now) → datum_of holding d
            ≡ meaning_in self.now.setting.now m (element_datum me.entry) (tree_of expression.now)) }
    {
        let mut value = Datum::Indeterminate;
        value_at(alloc, self.setting, expression, me, self.limit, &mut value)?;
        Ok(value)
    }
}
