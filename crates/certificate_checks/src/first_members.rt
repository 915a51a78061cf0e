//! The first member of each class.

ghost use Rattle.std.specs.Prelude.{◌≡◌, ◌<◌, ℕ, All, IfOk, length};
ghost use Rattle.step_values.specs.Labels.{renaming};
ghost use Rattle.value_equality.specs.Images.{head_of};
ghost use Rattle.value_equality.specs.Rows.{names};
ghost use Rattle.value_equality.specs.Standard.{IsWellFormed};
ghost use Rattle.value_equality.specs.Tables.{HasMembers, shares};
ghost use Rattle.value_equality.specs.TableViews.{table_of};
ghost use Rattle.certificate_checks.specs.steps.ComputedFirsts.{TellsFrom, firsts_of, is_first};
ghost use Rattle.certificate_checks.specs.steps.Places.{by_place};

use std::alloc::{AllocError, Global};
use step_values::labels::{Label, Labels};
use value_equality::plain::Plain;
use value_equality::table::Table;

/// The first member of the class of each instance of a population, by position.
///
/// As labels, each reference stands for the first member of the class of its target.
#[derive(Drop)]
pub struct Firsts<'a, 'p> {
    pub input: &'p Plain<'a>,
    pub firsts: Vec<u64>,
}

impl<'a, 'p> Firsts<'a, 'p> {
    /// Returns the first members of the classes of a table at its last round.
    ///
    /// The members of the table are the names of the population, in order.
    pub fn of(
        alloc: Global,
        input: &'p Plain<'a>,
        table: &Table,
    ) -> Result<Firsts<'a, 'p>, AllocError>
        requires members { HasMembers input.now (table_of table.now) }
        requires well_formed { IsWellFormed (table_of table.now) }
        ensures input { IfOk result (λ f. f.input.now ≡ input.now) }
        ensures firsts { IfOk result (λ f. by_place input.now f.firsts.items
            ≡ head_of (names input.now) (shares (table_of table.now) table.now.rounds)) }
    {
        // its contract says that no name occurs twice
        let _rows = input.len();
        let firsts = firsts_by_member(alloc, table.classes.len(), &table.members)?;
        Ok(Firsts { input, firsts })
    }

    /// Returns the first member of the class of a name; the name itself if it isn't that of an
    /// instance.
    pub fn first(&self, name: u64) -> u64
        ensures { result ≡ by_place self.now.input.now self.now.firsts.items name }
    {
        // its contract says that no name occurs twice
        let _rows = self.input.len();
        let Some(place) = self.input.find(name) else {
            return name;
        };
        match self.firsts.get(place) {
            None => name,
            Some(first) => *first,
        }
    }

    /// Whether a name is that of an instance that is the first member of its class.
    pub(crate) fn is_first(&self, name: u64) -> bool
        ensures { result ≡ is_first self.now.input.now
            (by_place self.now.input.now self.now.firsts.items) name }
    {
        if !self.input.contains(name) {
            return false;
        }
        self.first(name) == name
    }
}

/// Returns the first member of the class of each member.
fn firsts_by_member(
    alloc: Global,
    count: usize,
    members: &[(u64, u32)],
) -> Result<Vec<u64>, AllocError>
    requires { All (λ (m : ℕ × ℕ). m.1 < count) members.now }
    ensures { IfOk result (λ v. v.items ≡ firsts_of members.now) }
{
    let by_class = firsts_by_class(alloc, count, members)?;
    let mut firsts = Vec::with_capacity(alloc, members.len())?;
    for i in 0..members.len() {
        let (_, class) = members[i];
        let first = by_class[class as usize];
        firsts.push(first)?;
    }
    Ok(firsts)
}

/// Returns the first member of each class; 0 for a class without members.
fn firsts_by_class(
    alloc: Global,
    count: usize,
    members: &[(u64, u32)],
) -> Result<Vec<u64>, AllocError>
    requires { All (λ (m : ℕ × ℕ). m.1 < count) members.now }
    ensures tells { IfOk result (λ v. TellsFrom members.now v.items 0) }
    ensures length { IfOk result (λ v. length v.items ≡ count) }
{
    let mut firsts = vec![in alloc; 0; count]?;
    for i in (0..members.len()).rev() {
        let (name, class) = members[i];
        firsts[class as usize] = name;
    }
    Ok(firsts)
}

impl<'a, 'p> Labels for Firsts<'a, 'p> {
    ghost labelling = { λ f. renaming (by_place f.input.now f.firsts.items) };

    fn outside(&self, name: u64) -> Label {
        Label::Name(self.first(name))
    }

    fn inside(&self, name: u64) -> u64 {
        self.first(name)
    }
}
