//! The ranks of derived attributes.

ghost use Rattle.std.specs.Prelude.{
  ◌≡◌,
  ℕ,
  ◌+◌,
  ◌<◌,
  ◌^◌,
  Some,
  None,
  cond,
  map,
  max,
  length,
  get_or,
  All,
  IfOk,
};
ghost use Rattle.graphs.specs.Graphs.{graph_of, IsGraph};
ghost use Rattle.graphs.specs.Orders.{IsOrder, IsElsewhere, Solves};
ghost use Rattle.schema_semantics.specs.Faults.{IsResolved};
ghost use Rattle.schema_names.specs.Schemas.{the_schema};
ghost use Rattle.schema_derived_attributes.specs.steps.Tables.{above_all, rank_from};
ghost use Rattle.schema_derived_attributes.specs.AttributeRanks.{AreUses, AreFaulty, AreRanksOf};

use graphs::orders::order;
use schema_names::names::Names;
use std::alloc::{AllocError, Global};

fn greater(a: u32, b: u32) -> u32
    ensures { result ≡ max a b }
{
    if a < b { b } else { a }
}

/// Returns one more than the greatest rank of `after`, or 0 if `after` is empty. `None` if one of
/// them has no rank, or if `is_faulty`.
fn rank(ranks: &[Option<u32>], after: &[u32], is_faulty: bool) -> Option<u32>
    requires within { All (λ b. b < length ranks.now) after.now }
    requires room { (b r : ℕ) → get_or ranks.now b None ≡ Some r → r + 1 < 2 ^ 32 }
    ensures { result ≡ cond is_faulty None
        (above_all (map (λ b. get_or ranks.now b None) after.now)) }
{
    if is_faulty {
        return None;
    }
    let mut rank: u32 = 0;
    for b in after {
        let Some(below) = ranks[*b as usize] else {
            return None;
        };
        rank = greater(below + 1, rank);
    }
    Some(rank)
}

/// Returns the ranks of all derived attributes, computed in `order`, in which each comes after
/// those that it uses.
fn ranks_along(
    alloc: Global,
    uses: &[Vec<u32>],
    order: &[u32],
    faulty: &[bool],
) -> Result<Vec<Option<u32>>, AllocError>
    requires graph { IsGraph (graph_of uses.now) }
    requires order { IsOrder (graph_of uses.now) order.now }
    requires few { length order.now < 2 ^ 32 }
    requires faulty { length faulty.now ≡ length uses.now }
    ensures length { IfOk result (λ t. length t.items ≡ length uses.now) }
    ensures ranks { IfOk result (λ t. Solves (graph_of uses.now) order.now (rank_from faulty.now)
        (λ a. get_or t.items a None)) }
    ensures others { IfOk result (λ t. IsElsewhere order.now None (λ a. get_or t.items a None)) }
{
    let mut ranks = vec![in alloc; None; uses.len()]?;
    for a in order {
        let above = rank(&ranks, &uses[*a as usize], faulty[*a as usize]);
        ranks[*a as usize] = above;
    }
    Ok(ranks)
}

/// Returns the ranks of the derived attributes of a schema whose names are resolved, by number.
///
/// `uses` lists the derived attributes that each may use, and `faulty` marks those that are faulty
/// by themselves. A rank is one more than the greatest rank of the attributes that the attribute
/// may use, or 0 if there are none. A derived attribute has no rank if it is faulty or reaches
/// itself, or if its uses reach one that is faulty or reaches itself. Takes time proportional to
/// the count of derived attributes and uses.
pub fn rank_derivations(
    alloc: Global,
    names: &Names<'_, '_>,
    uses: &[Vec<u32>],
    faulty: &[bool],
) -> Result<Vec<Option<u32>>, AllocError>
    requires resolved { IsResolved (the_schema names.now) }
    requires uses { AreUses (the_schema names.now) (graph_of uses.now) }
    requires graph { IsGraph (graph_of uses.now) }
    requires few { length uses.now < 2 ^ 32 }
    requires faulty { AreFaulty (the_schema names.now) faulty.now }
    ensures { IfOk result (λ t. AreRanksOf (the_schema names.now) t.items) }
{
    let order = order(alloc, uses)?;
    ranks_along(alloc, uses, &order, faulty)
}
