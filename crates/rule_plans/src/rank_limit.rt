//! A rank above those of all derived attributes.

ghost use Rattle.std.specs.Prelude.{◌≡◌, ◌≤◌, max};
ghost use Rattle.rule_plans.specs.Limits.{above_rank, AreRanksBelow, IsLimit};

use schema_derived_attributes::formula::{Formula, Formulas};

/// Returns the greater of `limit` and the rank above that of `formula`, if any.
fn raised(limit: u64, formula: Option<Formula<'_, '_>>) -> u64
    ensures { result ≡ max limit (above_rank formula.entry) }
{
    match formula {
        Some(formula) => limit.max(formula.rank as u64 + 1),
        None => limit,
    }
}

/// Returns a rank above those of all formulas in `rows`.
fn limit_above(rows: &[Option<Formula<'_, '_>>]) -> u64
    ensures { AreRanksBelow rows.now result }
{
    let mut limit = 0;
    for formula in rows {
        limit = raised(limit, *formula);
    }
    limit
}

/// Returns a rank above those of all derived attributes of a schema.
pub fn rank_limit(formulas: &Formulas<'_, '_>) -> u64
    ensures { IsLimit formulas.now result }
{
    limit_above(&formulas.rows)
}
