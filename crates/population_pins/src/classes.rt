//! The classes of instances, and pinning those that have another of their class beside them.

ghost use Rattle.std.specs.Prelude.{◌≡◌, ℕ, List, [], ◌∷◌, ◌++◌, map, Some, IfOk, OnOk};
ghost use Rattle.value_equality.specs.TableViews.{table_of};
ghost use Rattle.value_equality.specs.Tables.{class_at};
ghost use Rattle.population_pins.specs.steps.Pinning.{Pins};
ghost use Rattle.population_pins.specs.steps.Classes.{
  class_of,
  with_name,
  with_member,
  members_of,
  first_of,
  AreFirsts,
  ComesBeside,
  ComesAfter,
  HasClassmate,
};

use crate::pinned_names::pin;
use population_rows::index::RowIndex;
use std::alloc::{AllocError, Global};
use std::collections::BTreeMap;
use std::hash::RandomState;
use value_equality::table::{Table, class_above};

/// The most members that a table may have.
const MOST_MEMBERS: usize = 0xFFFF_FFFF;

/// The classes of instances at the last round of a table.
#[derive(Drop)]
pub struct Classes<'t> {
    table: &'t Table,
    /// The positions of the table's members, by name.
    places: RowIndex,
}

/// Returns the names of the members of a table.
fn member_names(alloc: Global, members: &[(u64, u32)]) -> Result<Vec<u64>, AllocError>
    ensures { IfOk result (λ v. v.items ≡ map (λ m. m.0) members.now) }
{
    let mut names = Vec::with_capacity(alloc, members.len())?;
    for member in members {
        names.push(member.0)?;
    }
    Ok(names)
}

impl<'t> Classes<'t> {
    /// Returns the classes at the last round of a table. Names are hashed with `keys` if they are
    /// far apart. The members are visited once.
    ///
    /// # Errors
    ///
    /// `AllocError` if memory runs out, or if the table has 2^32 members or more.
    pub fn of(alloc: Global, keys: RandomState, table: &'t Table) -> Result<Classes<'t>, AllocError>
        ensures { IfOk result (λ c. (y : ℕ)
            → class_of c y ≡ class_at (table_of table.now) y table.now.rounds) }
    {
        if table.members.len() > MOST_MEMBERS {
            return Err(AllocError);
        }
        let names = member_names(alloc, &table.members)?;
        let places = RowIndex::of(alloc, keys, &names)?;
        Ok(Classes { table, places })
    }

    /// Returns the class of a name, if any. It allocates no memory.
    pub fn class(&self, name: u64) -> Option<u32>
        ensures { result ≡ class_of self.now name }
    {
        let place = self.places.find(name)?;
        let (_, class) = *self.table.members.get(place as usize)?;
        class_above(&self.table.classes, self.table.rounds, class)
    }
}

/// Pins the first name of a class and a later one, if they differ.
fn pin_two(pinned: &mut Vec<u64>, first: u64, name: u64) -> Result<(), AllocError>
    ensures { OnOk result (Pins (ComesBeside (Some first) name) pinned.old pinned.new) }
{
    if first != name {
        pin(pinned, first)?;
        pin(pinned, name)?;
    }
    Ok(())
}

/// Pins an instance and the first of its class, if there is an earlier one. Otherwise notes the
/// instance as the first of its class.
fn pin_beside_first(
    pinned: &mut Vec<u64>,
    firsts: &mut BTreeMap<u32, u64>,
    class: u32,
    name: u64,
) -> Result<(), AllocError>
    ensures { (before : List (ℕ × ℕ)) → AreFirsts firsts.old before
        → OnOk result (AreFirsts firsts.new (before ++ (class, name) ∷ [])
        × Pins (ComesBeside (first_of before class) name) pinned.old pinned.new) }
{
    match firsts.get(&class).copied() {
        Some(first) => pin_two(pinned, first, name),
        None => {
            firsts.insert(class, name)?;
            Ok(())
        }
    }
}

/// Pins an instance and the first of its class, if there is an earlier one. An instance that has no
/// class is left out.
fn pin_element(
    pinned: &mut Vec<u64>,
    firsts: &mut BTreeMap<u32, u64>,
    classes: &Classes<'_>,
    name: u64,
) -> Result<(), AllocError>
    ensures { (before : List (ℕ × ℕ)) → AreFirsts firsts.old before
        → OnOk result (AreFirsts firsts.new
        (before ++ with_member (with_name name (class_of classes.now name)) [])
        × Pins (ComesAfter before (with_name name (class_of classes.now name)))
        pinned.old pinned.new) }
{
    match classes.class(name) {
        Some(class) => pin_beside_first(pinned, firsts, class, name),
        None => Ok(()),
    }
}

/// Pins each of these instances that shares its class with another of them.
pub(crate) fn pin_classmates(
    alloc: Global,
    pinned: &mut Vec<u64>,
    classes: &Classes<'_>,
    names: &[u64],
) -> Result<(), AllocError>
    ensures { OnOk result (Pins (HasClassmate (members_of (class_of classes.now) names.now))
        pinned.old pinned.new) }
{
    let mut firsts = BTreeMap::new(alloc);
    for name in names {
        pin_element(pinned, &mut firsts, classes, *name)?;
    }
    Ok(())
}
