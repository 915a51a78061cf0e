//! Whether the members of a table are the instances of a population.

ghost use Rattle.std.specs.Prelude.{◌↔◌, IsTrue};
ghost use Rattle.value_equality.specs.Tables.{HasMembers};
ghost use Rattle.value_equality.specs.TableViews.{table_of};

use value_equality::plain::Plain;
use value_equality::table::Table;

/// Whether the members of a table are the names of a population, in order, and no others.
pub fn names_match<'a>(input: &Plain<'a>, table: &Table) -> bool
    ensures { IsTrue result ↔ HasMembers input.now (table_of table.now) }
{
    if table.members.len() != input.len() {
        return false;
    }
    for place in 0..input.len() {
        let (name, _) = table.members[place];
        if name != input.name(place) {
            return false;
        }
    }
    true
}
