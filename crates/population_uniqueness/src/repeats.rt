//! The instances that violate a uniqueness rule (ISO 10303-11, 9.2.2.1).

ghost use Rattle.std.specs.Prelude.{◌≡◌, [], map, IfOk};
ghost use Rattle.conformance.specs.RuleFindings.{repeats};
ghost use Rattle.schema_names.specs.Schemas.{the_schema};
ghost use Rattle.schema_constraints.specs.RuleViews.{unique_seen, IsNumberedUnique};
ghost use Rattle.typed_populations.specs.PopulationViews.{population_seen};

use crate::key_lookup::meets_again;
use crate::positions::{positions_at, positions_by_form};
use indexmap::IndexSet;
use schema_constraints::uniques::UniqueRule;
use std::alloc::{AllocError, Global};
use std::hash::RandomState;
use typed_populations::population::Population;

/// Returns the names of the instances with the key of an earlier instance, in the order of the file
/// (ISO 10303-11, 9.2.2.1). An instance has a key if the rule's entity is among its types, and none
/// of its values of the attributes that the rule names is unset or derived.
///
/// The keys of instances are hashed by `keys`. The time depends on the number of instances and the
/// size of these values.
pub fn repeats(
    alloc: Global,
    keys: RandomState,
    population: &Population<'_, '_, '_, '_>,
    rule: &UniqueRule<'_>,
) -> Result<Vec<u64>, AllocError>
    requires numbered { IsNumberedUnique (the_schema population.now.types.now.names) rule.now }
    ensures { IfOk result (λ v. v.items ≡ map (λ x. x.name)
        (repeats (unique_seen (the_schema population.now.types.now.names) rule.now) []
        (population_seen population.now))) }
{
    let positions = positions_by_form(alloc, keys, population.forms(), rule)?;
    let mut met = IndexSet::with_hasher(alloc, keys);
    let mut names = Vec::new(alloc);
    for row in 0..population.len() {
        let instance = population.instance(row);
        let places = positions_at(&positions, instance.form);
        if meets_again(alloc, &mut met, &instance.values, places)? {
            names.push(instance.name)?;
        }
    }
    Ok(names)
}
