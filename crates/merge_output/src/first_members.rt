//! The first member of each class.

ghost use Rattle.std.specs.Prelude.{◌≡◌, ◌<◌, ◌==◌, None, Some, length, map, set, get_or, IfOk, MatchOption};
ghost use Rattle.std.specs.List.{IsDistinct};
ghost use Rattle.value_equality.specs.TableViews.{table_of};
ghost use Rattle.merge_output.specs.steps.Rewriting.{members, first_of_class};
ghost use Rattle.merge_output.specs.steps.Firsts.{own_class, or_name};

use std::alloc::{AllocError, Global};
use value_equality::table::{Table, class_above};

/// Returns the name of the first member of `member`'s class, among `member` and those before it;
/// its own name if it has no class. `firsts` has the first member of each class so far.
fn head(table: &Table, firsts: &mut Vec<Option<u64>>, member: (u64, u32)) -> u64
    requires each { length firsts.old.items ≡ length (table_of table.now).classes }
    ensures { MatchOption (own_class (table_of table.now) member.1)
        ((result ≡ member.0) × (firsts.new.items ≡ firsts.old.items))
        (λ c. (result ≡ or_name member.0 (get_or firsts.old.items c None))
        × (firsts.new.items ≡ set firsts.old.items c (Some result))) }
{
    let Some(class) = class_above(&table.classes, table.rounds, member.1) else {
        return member.0;
    };
    let place = class as usize;
    match firsts[place] {
        Some(first) => first,
        None => {
            firsts[place] = Some(member.0);
            member.0
        }
    }
}

/// Returns for each member the name of the first member of its class at the last round; its own
/// name if it has no class.
pub(crate) fn heads_of(alloc: Global, table: &Table) -> Result<Vec<u64>, AllocError>
    requires distinct { IsDistinct (◌==◌) (members (table_of table.now)) }
    ensures { IfOk result (λ heads. heads.items
        ≡ map (first_of_class (table_of table.now)) (members (table_of table.now))) }
{
    let mut firsts: Vec<Option<u64>> = vec![in alloc; None; table.classes.len()]?;
    let mut heads = Vec::with_capacity(alloc, table.members.len())?;
    for i in 0..table.members.len() {
        let name = head(table, &mut firsts, table.members[i]);
        heads.push(name)?;
    }
    Ok(heads)
}
