//! The values that a search finds.
#![tactic(auto, unfolding(rule_values::specs::Parts::element_datum))]

ghost use Rattle.std.specs.Prelude.{◌≡◌, ◌||◌, ℕ, [], ◌∷◌, eqb, OnOk};
ghost use Rattle.graphs.specs.Graphs.{has};
ghost use Rattle.rule_values.specs.TableValues.{coded_datum};
ghost use Rattle.rule_plans.specs.steps.Seeking.{Adds};

use rule_values::element::Element;
use rule_values::types::ValueTypes;
use schema_underlying_types::base::Base;
use std::alloc::AllocError;
use step_values::slot::Slot;

/// A value, and the number of the defined type that it is of.
#[derive(Drop)]
pub struct Typed<'p, 'r> {
    pub number: u32,
    pub element: Element<'p, 'r>,
}

/// The values of wanted types that were found, or only these types.
#[derive(Drop)]
pub(crate) struct Found<'p, 'r> {
    /// Whether the values are collected; otherwise only the numbers of their types are.
    pub keeps: bool,
    pub values: Vec<Typed<'p, 'r>>,
    /// The numbers of the types, each once.
    pub types: Vec<u32>,
}

/// Adds `number`, unless it is in `types` already.
fn note(types: &mut Vec<u32>, number: u32) -> Result<(), AllocError>
    ensures { OnOk result ((i : ℕ)
        → has types.new.items i ≡ (has types.old.items i || eqb i number)) }
{
    if types.contains(&number) {
        return Ok(());
    }
    types.push(number)?;
    Ok(())
}

/// Adds a value of the defined type numbered `number`.
pub(crate) fn add<'p, 'r>(
    found: &mut Found<'p, 'r>,
    number: u32,
    types: &'p ValueTypes<'r>,
    base: &'p Base,
    value: Slot<'p, 'r>,
) -> Result<(), AllocError>
    ensures { OnOk result (Adds ((number, coded_datum types.entry.now base.now value.entry) ∷ [])
        found.old found.new) }
{
    if found.keeps {
        found.values.push(Typed {
            number,
            element: Element::Value { types, base, value },
        })?;
        return Ok(());
    }
    note(&mut found.types, number)
}
