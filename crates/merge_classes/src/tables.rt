//! Numbers of positions as the table of a population.

ghost use Rattle.std.specs.Prelude.{◌≡◌, ◌<◌, ◌^◌, All, IfOk, length, map};
ghost use Rattle.value_equality.specs.Rows.{names};
ghost use Rattle.value_equality.specs.TableViews.{member_of, origin_of};
ghost use Rattle.merge_classes.specs.Laws.{members_of, origin_in, table_of};
ghost use Rattle.merge_classes.specs.steps.ComputedFirsts.{AreFirsts};

use crate::classes::Classes;
use crate::numbered_classes::Found;
use partition_refinement::numbering::{self, Numbering};
use std::alloc::{AllocError, Global};
use value_equality::plain::Plain;
use value_equality::table::{Origin, Table};

/// Returns the classes of a population, from the numbers of its positions.
pub(crate) fn classes_of<'a>(
    alloc: Global,
    input: &Plain<'a>,
    found: Found,
) -> Result<Classes, AllocError>
    requires each { length found.numbering.members.items ≡ length input.now }
    requires firsts { AreFirsts (table_of (names input.now) found.last found.numbering.origins.items
        found.numbering.members.items) found.numbering.firsts.items }
    ensures table { IfOk result (λ t. t ≡ table_of
        (names input.now) found.last found.numbering.origins.items
        found.numbering.members.items) }
    ensures names { IfOk result (λ t. All (λ m. m.0 < 2 ^ 64) t.members) }
{
    let rounds = found.last;
    let signed = found.signed;
    let Numbering {
        firsts,
        origins: began,
        members: numbers,
    } = found.numbering;
    let classes = origins(alloc, &began)?;
    drop(began);
    let members = members(alloc, input, &numbers)?;
    Ok(Classes {
        table: Table {
            rounds,
            classes,
            members,
        },
        firsts,
        signed,
    })
}

/// Returns the origins of classes, as in a table.
fn origins(alloc: Global, origins: &[numbering::Origin]) -> Result<Vec<Origin>, AllocError>
    ensures { IfOk result (λ v. map origin_of v.items ≡ map origin_in origins.now) }
{
    let mut classes = Vec::with_capacity(alloc, origins.len())?;
    for origin in origins {
        classes.push(origin_from(*origin))?;
    }
    Ok(classes)
}

/// Returns the origin of a class, as in a table.
fn origin_from(origin: numbering::Origin) -> Origin
    ensures { origin_of result ≡ origin_in origin }
{
    match origin {
        numbering::Origin::Start => Origin::Start,
        numbering::Origin::Split { parent, round } => Origin::Split { parent, round },
    }
}

/// Returns each name with the number at its position.
fn members<'a>(
    alloc: Global,
    input: &Plain<'a>,
    numbers: &[u32],
) -> Result<Vec<(u64, u32)>, AllocError>
    requires { length numbers.now ≡ length input.now }
    ensures members { IfOk result (λ v. map member_of v.items
        ≡ members_of (names input.now) numbers.now) }
    ensures names { IfOk result (λ v. All (λ m. m.0 < 2 ^ 64) (map member_of v.items)) }
{
    let mut members = Vec::with_capacity(alloc, numbers.len())?;
    for place in 0..numbers.len() {
        members.push((input.name(place), numbers[place]))?;
    }
    Ok(members)
}
