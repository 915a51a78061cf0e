//! The pins of a population by the weak rules, and what is needed to find those of the gentle
//! rules.

ghost use Rattle.std.specs.Prelude.{◌≡◌, ℕ, List, IsTrue, ◌⊎◌, ◌↔◌, IfOk, OnOk};
ghost use Rattle.express_syntax.specs.Schemas.{Schema};
ghost use Rattle.schema_semantics.specs.Names.{OneOf};
ghost use Rattle.conformance.specs.Bases.{Domain, IsDomain};
ghost use Rattle.conformance.specs.Entities.{Entities, AreEntities};
ghost use Rattle.conformance.specs.Pins.{StandsBesideItsClass};
ghost use Rattle.conformance.specs.Populations.{Instance};
ghost use Rattle.value_equality.specs.Tables.{shares};
ghost use Rattle.value_equality.specs.TableViews.{table_of};
ghost use Rattle.population_pins.specs.steps.Classes.{class_of, members_of, HasClassmate};
ghost use Rattle.population_pins.specs.Lists.{AreUniqueOf, StandsBeside};
ghost use Rattle.population_pins.specs.PopulationPins.{is_pinned};
ghost use Rattle.population_pins.specs.steps.Pinning as pinning;

use crate::classes::{Classes, pin_classmates};
use crate::lists::UniqueLists;
use crate::pin_names::Pins;
use std::alloc::{AllocError, Global};
use std::hash::RandomState;
use value_equality::table::Table;

/// The pins of a population by the weak rules, and what is needed to find those of the gentle rules
/// without the population.
#[derive(Drop)]
pub struct WeakPins {
    /// The instances that the weak rules pin.
    pub pins: Pins,
    /// The instances that are elements of the same LIST or ARRAY OF UNIQUE.
    pub lists: UniqueLists,
}

/// Pins the instances in each of these lists that have another instance of their class in the list.
fn pin_in_lists(
    alloc: Global,
    pinned: &mut Vec<u64>,
    classes: &Classes<'_>,
    lists: &UniqueLists,
) -> Result<(), AllocError>
    ensures { OnOk result (pinning.Pins
        (λ y. OneOf (λ l. HasClassmate (members_of (class_of classes.now) l) y) lists.now)
        pinned.old pinned.new) }
{
    for index in 0..lists.len() {
        pin_classmates(alloc, pinned, classes, lists.list(index))?;
    }
    Ok(())
}

/// Pins the instances in each of these lists that have another instance of their class in the list.
/// The classes are those at the last round of a table, whose members are visited if there is a
/// list.
fn pin_by_table(
    alloc: Global,
    keys: RandomState,
    pinned: &mut Vec<u64>,
    lists: &UniqueLists,
    table: &Table,
) -> Result<(), AllocError>
    ensures { OnOk result (pinning.Pins (λ y. OneOf
        (StandsBeside (shares (table_of table.now) table.now.rounds) y) lists.now)
        pinned.old pinned.new) }
{
    if lists.len() == 0 {
        return Ok(());
    }
    let classes = Classes::of(alloc, keys, table)?;
    pin_in_lists(alloc, pinned, &classes, lists)
}

/// The pins of a population by the gentle rules.
#[derive(Drop)]
pub struct GentlePins {
    pub pins: Pins,
    /// Whether the weak rules pin the same instances.
    pub are_weak: bool,
}

impl WeakPins {
    /// Returns the pins of the gentle rules: these pins, and the elements of each LIST or ARRAY OF
    /// UNIQUE of the population that have another instance of their class beside them
    /// (ISO 10303-11, 8.2.1 and 8.2.2).
    ///
    /// The classes are those at the last round of the table. The members of the table are visited
    /// if there is such a collection, and so are the lists. Names are hashed with `keys` if they
    /// are far apart.
    ///
    /// # Errors
    ///
    /// `AllocError` if memory runs out, or if the table has 2^32 members or more and there is such
    /// a collection.
    pub fn gentle(
        &self,
        alloc: Global,
        keys: RandomState,
        table: &Table,
    ) -> Result<Pins, AllocError>
        ensures { (s : Schema) (is : List Instance) → AreUniqueOf s is self.now.lists
            → (d : Domain) (en : Entities) → IsDomain s d → AreEntities s en
            → IfOk result (λ t. (y : ℕ) → IsTrue (is_pinned t y)
            ↔ (IsTrue (is_pinned self.now.pins y) ⊎ OneOf (StandsBesideItsClass s d en
            (shares (table_of table.now) table.now.rounds) y) is)) }
    {
        let mut beside = Vec::new(alloc);
        pin_by_table(alloc, keys, &mut beside, &self.lists, table)?;
        let mut names = self.pins.names.clone()?;
        names.extend(beside)?;
        Ok(Pins { names })
    }

    /// Returns the pins of the gentle rules, and whether the weak rules pin the same instances. The
    /// set of the weak pins becomes that of the gentle ones. Names are hashed with `keys` if they
    /// are far apart.
    ///
    /// # Errors
    ///
    /// `AllocError` if memory runs out, or if the table has 2^32 members or more and there is a
    /// list of elements OF UNIQUE.
    pub fn into_gentle(
        self,
        alloc: Global,
        keys: RandomState,
        table: &Table,
    ) -> Result<GentlePins, AllocError>
        ensures pins { (s : Schema) (is : List Instance) → AreUniqueOf s is self.lists
            → (d : Domain) (en : Entities) → IsDomain s d → AreEntities s en
            → IfOk result (λ t. (y : ℕ) → IsTrue (is_pinned t.pins y)
            ↔ (IsTrue (is_pinned self.pins y) ⊎ OneOf (StandsBesideItsClass s d en
            (shares (table_of table.now) table.now.rounds) y) is)) }
        // Nothing is unpinned.
        ensures grows { IfOk result (λ t. (y : ℕ) → IsTrue (is_pinned self.pins y)
            → IsTrue (is_pinned t.pins y)) }
        ensures weak { IfOk result (λ t. IsTrue t.are_weak
            ↔ ((y : ℕ) → is_pinned t.pins y ≡ is_pinned self.pins y)) }
    {
        let WeakPins { pins, lists } = self;
        let mut beside = Vec::new(alloc);
        pin_by_table(alloc, keys, &mut beside, &lists, table)?;
        let mut names = pins.names;
        let count = names.len();
        names.extend(beside)?;
        let are_weak = names.len() == count;
        Ok(GentlePins {
            pins: Pins { names },
            are_weak,
        })
    }
}
