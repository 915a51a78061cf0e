//! The pins of a population by the weak rules.

ghost use Rattle.std.specs.Prelude.{ℕ, IsTrue, ◌↔◌, IfOk};
ghost use Rattle.schema_names.specs.Schemas.{the_schema};
ghost use Rattle.schema_types.specs.TypeTables.{IsMade};
ghost use Rattle.conformance.specs.Bases.{Domain, IsDomain};
ghost use Rattle.conformance.specs.Choices.{MergeOptions};
ghost use Rattle.conformance.specs.Entities.{Entities, AreEntities};
ghost use Rattle.conformance.specs.Pins.{IsWeaklyPinned};
ghost use Rattle.schema_constraints.specs.RuleViews.{AreNumbered, rules_seen};
ghost use Rattle.merge_choices.specs.ChosenEntities.{AreChosen};
ghost use Rattle.typed_populations.specs.PopulationViews.{population_seen};
ghost use Rattle.population_pins.specs.Lists.{AreUniqueOf};
ghost use Rattle.population_pins.specs.PopulationPins.{is_pinned};

use crate::lists::UniqueLists;
use crate::rows::pin_by_forms;
use crate::sides::pin_sides;
use crate::unique_elements::gather_elements;
use crate::weak_pin_lists::Gathered;
use crate::weak_pins::WeakPins;
use merge_choices::choice::Chosen;
use population_inverses::extents::Extents;
use std::alloc::{AllocError, Global};

/// Returns the pins of a population by the weak rules. An instance is pinned if
/// - one of its types that has no subtype among them isn't chosen;
/// - it occurs, at any depth, in a SET or BAG; if `chosen` says `in_sets`, in one of more than one
///   value;
/// - it occurs inside an element of a LIST or ARRAY OF UNIQUE, and isn't that element itself;
/// - it is an instance of an entity that declares a uniqueness rule, or occurs in a value that the
///   rule names, whether or not the rule is checked;
/// - an inverse attribute of an instance holds it, or one of its own holds an instance.
///
/// The instances and their values are visited once. Each name is collected as often as something
/// pins it, and all of them are sorted at the end.
pub fn pins(
    alloc: Global,
    extents: &Extents<'_, '_, '_, '_, '_>,
    chosen: &Chosen,
) -> Result<WeakPins, AllocError>
    requires made { IsMade extents.now.population.now.types.now }
    requires numbered { AreNumbered
        (the_schema extents.now.population.now.types.now.names) extents.now.rules.now }
    ensures pins { let s = the_schema extents.now.population.now.types.now.names in
        (d : Domain) (en : Entities) (those : MergeOptions) → IsDomain s d → AreEntities s en
        → AreChosen s those chosen.now → IfOk result (λ t. (y : ℕ) → IsTrue (is_pinned t.pins y)
        ↔ IsWeaklyPinned s d en (rules_seen s extents.now.rules.now) those
        (population_seen extents.now.population.now) y) }
    // Whatever the classes of instances, these lists decide the gentle rules.
    ensures lists { let s = the_schema extents.now.population.now.types.now.names in
        IfOk result (λ t. AreUniqueOf s (population_seen extents.now.population.now) t.lists) }
{
    let population = extents.population;
    let mut names = Vec::new(alloc);
    pin_by_forms(alloc, population, &mut names, extents.rules, chosen)?;
    pin_sides(alloc, extents, &mut names)?;
    let lists = UniqueLists::new(alloc);
    let mut weak = Gathered { names, lists };
    gather_elements(alloc, population, &mut weak)?;
    let pins = weak.into_pins(alloc)?;
    Ok(pins)
}
