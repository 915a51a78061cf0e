//! The derived attributes of a schema.

ghost use Rattle.std.specs.Prelude.{◌≡◌, ◌<◌, ◌^◌, length, map, slice_get, Some, IfOk, OnOk};
ghost use Rattle.graphs.specs.Graphs.{graph_of};
ghost use Rattle.express_syntax.specs.Views.{declaration_of, derived_of};
ghost use Rattle.schema_names.specs.Numbers.{IsAt};
ghost use Rattle.schema_attributes.specs.Derivations.{derivations_in};
ghost use Rattle.schema_attribute_references.specs.steps.Taking.{IsKnown, schema_in};
ghost use Rattle.schema_data_types.specs.Items.{AreItems};
ghost use Rattle.schema_unchecked.specs.steps.Judging.{AreJudged};
ghost use Rattle.schema_unchecked.specs.steps.Growing.{AddsJudged};
ghost use Rattle.schema_unchecked.specs.steps.Surveyed.{below, uses_below, is_faulty};
ghost use Rattle.schema_derived_attributes.specs.steps.Asked.{deriveds_in};
ghost use Rattle.schema_derived_attributes.specs.AttributeRanks.{AreRanksOf};

use crate::judgement::{Judgement, judge};
use express_syntax::tree::{Declaration, Derived};
use schema_attribute_references::schema_facts::Known;
use schema_data_types::items::Items;
use schema_data_types::values::Atom;
use schema_derived_attributes::ranks::rank_derivations;
use std::alloc::{AllocError, Global};
use std::slice;

/// The most derived attributes that a schema may have: they get 32-bit numbers.
const MOST_DERIVATIONS: usize = 4_294_967_295;

/// Returns the DERIVE clause of an entity. Empty for other declarations.
fn deriveds_in<'d, 'a>(declaration: &'d Declaration<'a>) -> &'d [Derived<'a>]
    ensures { map derived_of result.now ≡ deriveds_in (declaration_of declaration.now) }
{
    match declaration {
        Declaration::Entity(entity) => entity.derived_attributes(),
        _ => &[],
    }
}

/// Adds the judgements of the derived attributes of a declaration.
fn judge_declaration<'r, 'a>(
    alloc: Global,
    known: &Known<'a, '_, 'r>,
    items: &'r Items<'a>,
    number: u32,
    declaration: &Declaration<'a>,
    judged: &mut Vec<Judgement>,
) -> Result<(), AllocError>
    requires known { IsKnown known.now }
    requires items { AreItems (schema_in known.now) items.now }
    requires at { IsAt (schema_in known.now) number (declaration_of declaration.now) }
    ensures { OnOk result (AddsJudged (schema_in known.now) judged.old.items
        (derivations_in (declaration_of declaration.now)) judged.new.items) }
{
    let own = Atom::Instance(number);
    for derived in deriveds_in(declaration) {
        judged.push(judge(alloc, known, items, slice::from_ref(&own), &derived.body)?)?;
    }
    Ok(())
}

/// Returns the judgements of the derived attributes of a schema, by number.
pub fn judge_derivations<'r, 'a>(
    alloc: Global,
    known: &Known<'a, '_, 'r>,
    items: &'r Items<'a>,
) -> Result<Vec<Judgement>, AllocError>
    requires known { IsKnown known.now }
    requires items { AreItems (schema_in known.now) items.now }
    ensures { IfOk result (λ t. AreJudged (schema_in known.now) t.items) }
{
    let mut judged = Vec::new(alloc);
    let declarations = &known.tables.names.schema.declarations;
    for number in 0..declarations.len() {
        judge_declaration(
            alloc,
            known,
            items,
            number as u32,
            &declarations[number],
            &mut judged,
        )?;
    }
    Ok(judged)
}

/// Returns the numbers of `uses` that are below `count`.
fn row_below(alloc: Global, uses: &[u32], count: usize) -> Result<Vec<u32>, AllocError>
    ensures { IfOk result (λ row. row.items ≡ below count uses.now) }
{
    let mut row = Vec::new(alloc);
    for number in uses {
        if (*number as usize) < count {
            row.push(*number)?;
        }
    }
    Ok(row)
}

/// Returns by number the derived attributes that each may use.
fn rows_of_uses(alloc: Global, judged: &[Judgement]) -> Result<Vec<Vec<u32>>, AllocError>
    ensures { IfOk result (λ rows. graph_of rows.items
        ≡ map (uses_below (length judged.now)) judged.now) }
{
    let mut rows = Vec::new(alloc);
    for judgement in judged {
        rows.push(row_below(alloc, &judgement.uses, judged.len())?)?;
    }
    Ok(rows)
}

/// Returns by number whether a derived attribute is faulty by itself.
fn faulty_ones(alloc: Global, judged: &[Judgement]) -> Result<Vec<bool>, AllocError>
    ensures { IfOk result (λ faulty. faulty.items ≡ map is_faulty judged.now) }
{
    let mut faulty = Vec::new(alloc);
    for judgement in judged {
        faulty.push(judgement.reason.is_some())?;
    }
    Ok(faulty)
}

/// Returns the ranks of the derived attributes of a schema, by number; `None` for one that is set
/// aside (ISO 10303-11, 9.2.1.2).
///
/// # Errors
/// `AllocError` if memory runs out or there are more than 2^32 - 1 derived attributes.
pub fn derivation_ranks(
    alloc: Global,
    known: &Known<'_, '_, '_>,
    judged: &[Judgement],
) -> Result<Vec<Option<u32>>, AllocError>
    requires known { IsKnown known.now }
    requires judged { AreJudged (schema_in known.now) judged.now }
    ensures { IfOk result (λ t. AreRanksOf (schema_in known.now) t.items) }
{
    if judged.len() > MOST_DERIVATIONS {
        return Err(AllocError);
    }
    let uses = rows_of_uses(alloc, judged)?;
    let faulty = faulty_ones(alloc, judged)?;
    rank_derivations(alloc, known.tables.names, &uses, &faulty)
}
