//! Whether a table is well-formed.

ghost use Rattle.std.specs.Prelude.{◌≡◌, ◌<◌, ◌↔◌, ℕ, All, IsTrue, length};
ghost use Rattle.value_equality.specs.Standard.{IsWellFormed};
ghost use Rattle.value_equality.specs.Tables.{began};
ghost use Rattle.value_equality.specs.TableViews.{origin_of, table_of};
ghost use Rattle.certificate_checks.specs.steps.ComputedParents.{HasParent};

use value_equality::table::{Origin, Table};

/// Whether a table is well-formed:
/// - the parent of each class that was split off has a lower number and began at an earlier round;
/// - no class begins after the last round;
/// - the class of each member is one of the table's.
pub fn is_well_formed(table: &Table) -> bool
    ensures { IsTrue result ↔ IsWellFormed (table_of table.now) }
{
    if !have_parents(table) {
        return false;
    }
    are_declared(&table.members, table.classes.len())
}

/// Whether each class that was split off has a proper parent, and begins no later than at the last
/// round.
fn have_parents(table: &Table) -> bool
    ensures { IsTrue result ↔ ((c : ℕ) → HasParent (table_of table.now) c) }
{
    for class in 0..table.classes.len() {
        if !has_parent(table, class) {
            return false;
        }
    }
    true
}

/// Whether a class, if it was split off, has a proper parent, and begins no later than at the last
/// round.
fn has_parent(table: &Table, class: usize) -> bool
    requires { class < length table.now.classes.items }
    ensures { IsTrue result ↔ HasParent (table_of table.now) class }
{
    let Origin::Split { parent, round } = table.classes[class] else {
        return true;
    };
    if parent as usize >= class {
        return false;
    }
    if round > table.rounds {
        return false;
    }
    began(table.classes[parent as usize]) < round
}

/// Returns the round at which a class begins.
fn began(origin: Origin) -> u32
    ensures { result ≡ began (origin_of origin) }
{
    match origin {
        Origin::Start => 0,
        Origin::Split { round, .. } => round,
    }
}

/// Whether the class of each member is below the number of classes.
fn are_declared(members: &[(u64, u32)], count: usize) -> bool
    ensures { IsTrue result ↔ All (λ (m : ℕ × ℕ). m.1 < count) members.now }
{
    for i in 0..members.len() {
        let (_, class) = members[i];
        if class as usize >= count {
            return false;
        }
    }
    true
}
