//! The classes of instances at a round, by position and as labels of references.

ghost use Rattle.std.specs.Prelude.{
  ◌≡◌,
  ◌<◌,
  ◌≤◌,
  ℕ,
  All,
  IfOk,
  MatchOption,
  None,
  Some,
  is_some,
  length,
  map,
  slice_get,
  true,
};
ghost use Rattle.value_equality.specs.Rows.{row_at};
ghost use Rattle.value_equality.specs.Maps.{is_pinned};
ghost use Rattle.value_equality.specs.Standard.{IsWellFormed};
ghost use Rattle.value_equality.specs.Tables.{HasMembers};
ghost use Rattle.value_equality.specs.TableViews.{table_of};
ghost use Rattle.certificate_checks.specs.steps.ClassesAt.{AreClassesAt};
ghost use Rattle.certificate_checks.specs.steps.ComputedParents.{led_by_classes};
ghost use Rattle.certificate_checks.specs.steps.ComputedStability.{label_by, labels_by};
ghost use Rattle.certificate_checks.specs.steps.Places.{by_place};

use crate::ancestors::ancestors;
use std::alloc::{AllocError, Global};
use std::collections::BTreeSet;
use step_values::labels::{Label, Labels};
use value_equality::plain::Plain;
use value_equality::table::Table;

/// The classes of the instances of a population at a round, by position, and which instances are
/// pinned.
///
/// As labels, a reference to a free instance outside bags of more than one value stands for the class
/// of the instance, and any other reference for the instance itself.
#[derive(Drop)]
pub struct Classes<'a, 'p> {
    pub input: &'p Plain<'a>,
    pub pinned: &'p BTreeSet<u64>,
    pub classes: Vec<u32>,
    ghost each: { length classes.items ≡ length input.now },
}

/// Returns the classes of the instances of a population at a round, by position.
///
/// The members of the table are the names of the population, in order.
pub fn classes_at<'a>(
    alloc: Global,
    input: &Plain<'a>,
    table: &Table,
    round: u32,
) -> Result<Vec<u32>, AllocError>
    requires members { HasMembers input.now (table_of table.now) }
    requires well_formed { IsWellFormed (table_of table.now) }
    ensures { IfOk result (λ v. AreClassesAt input.now (table_of table.now) round v.items) }
{
    // its contract says that no name occurs twice
    let _rows = input.len();
    let ancestors = ancestors(alloc, table, round)?;
    led_by_classes(alloc, &table.members, &ancestors)
}

/// Returns, for each member, the entry of `ancestors` at its class.
fn led_by_classes(
    alloc: Global,
    members: &[(u64, u32)],
    ancestors: &[usize],
) -> Result<Vec<u32>, AllocError>
    requires declared { All (λ (m : ℕ × ℕ). m.1 < length ancestors.now) members.now }
    requires below { (c a : ℕ) → slice_get ancestors.now c ≡ Some a → a ≤ c }
    ensures { IfOk result (λ v. v.items ≡ led_by_classes ancestors.now members.now) }
{
    let mut classes = Vec::with_capacity(alloc, members.len())?;
    for member in members {
        let ancestor = ancestors[member.1 as usize];
        classes.push(ancestor as u32)?;
    }
    Ok(classes)
}

/// Returns the class of each member of a table at the last round.
pub fn classes_of(alloc: Global, members: &[(u64, u32)]) -> Result<Vec<u32>, AllocError>
    ensures { IfOk result (λ v. v.items ≡ map (λ (m : ℕ × ℕ). m.1) members.now) }
{
    let mut classes = Vec::with_capacity(alloc, members.len())?;
    for member in members {
        classes.push(member.1)?;
    }
    Ok(classes)
}

impl<'a, 'p> Classes<'a, 'p> {
    /// Returns the class of the instance with this name, if any.
    fn class(&self, name: u64) -> Option<u32>
        ensures { MatchOption result (row_at self.now.input.now name ≡ None)
            (λ c. (is_some (row_at self.now.input.now name) ≡ true)
            × (c ≡ by_place self.now.input.now self.now.classes.items name)) }
    {
        // its contract says that no name occurs twice
        let _rows = self.input.len();
        let place = self.input.find(name)?;
        Some(self.classes[place])
    }

    /// Returns the label of a reference outside bags of more than one value.
    fn label(&self, name: u64) -> Label
        ensures { result ≡ label_by (is_pinned self.now.pinned.now) self.now.input.now
            self.now.classes.items name }
    {
        if self.pinned.contains(&name) {
            return Label::Name(name);
        }
        match self.class(name) {
            None => Label::Name(name),
            Some(class) => Label::Class(class),
        }
    }
}

impl<'a, 'p> Labels for Classes<'a, 'p> {
    ghost labelling = { λ c. labels_by (is_pinned c.pinned.now) c.input.now c.classes.items };

    fn outside(&self, name: u64) -> Label {
        self.label(name)
    }

    fn inside(&self, name: u64) -> u64 {
        name
    }
}
