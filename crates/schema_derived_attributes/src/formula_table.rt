//! The formulas of the derived attributes of a schema, by number.

ghost use Rattle.std.specs.Prelude.{◌≡◌, None, map, get_or, flat_map, option_map, IfOk, OnOk};
ghost use Rattle.express_syntax.specs.Views.{body_of, derived_of, declaration_of};
ghost use Rattle.schema_semantics.specs.Faults.{IsResolved};
ghost use Rattle.schema_names.specs.Schemas.{the_schema};
ghost use Rattle.schema_derived_attributes.specs.steps.Asked.{deriveds_in};
ghost use Rattle.schema_derived_attributes.specs.AttributeRanks.{AreRanksOf};
ghost use Rattle.schema_derived_attributes.specs.Formulas.{formula_seen, AreFormulasOf};
ghost use Rattle.schema_derived_attributes.specs.steps.Making.{formula_by, Adds};

use crate::formula::{Formula, Formulas};
use crate::rank_lookup::first_derivations;
use express_syntax::tree::{Body, Declaration, Derived};
use schema_names::names::Names;
use std::alloc::{AllocError, Global};

/// Returns the formula with this rank and body. `None` without a rank or an expression.
fn formula_of<'t, 'a>(rank: Option<u32>, body: &'t Body<'a>) -> Option<Formula<'a, 't>>
    ensures { option_map formula_seen result ≡ formula_by rank (body_of body.now) }
{
    let Some(rank) = rank else {
        return None;
    };
    match body {
        Body::Expression(expression) => Some(Formula { rank, expression }),
        Body::SetAside(_) => None,
    }
}

/// Returns the rank with this number, if any.
fn rank_of(ranks: &[Option<u32>], number: usize) -> Option<u32>
    ensures { result ≡ get_or ranks.now number None }
{
    if number < ranks.len() {
        ranks[number]
    } else {
        None
    }
}

/// Adds the formulas of `deriveds`, whose numbers are the next ones.
fn add_deriveds<'t, 'a>(
    formulas: &mut Vec<Option<Formula<'a, 't>>>,
    ranks: &[Option<u32>],
    deriveds: &'t [Derived<'a>],
) -> Result<(), AllocError>
    ensures { OnOk result (Adds ranks.now (map derived_of deriveds.now) formulas.old.items
        formulas.new.items) }
{
    for derived in deriveds {
        let rank = rank_of(ranks, formulas.len());
        formulas.push(formula_of(rank, &derived.body))?;
    }
    Ok(())
}

/// Returns the DERIVE clause of an entity. Empty for other declarations.
fn deriveds_of<'t, 'a>(declaration: &'t Declaration<'a>) -> &'t [Derived<'a>]
    ensures { map derived_of result.now ≡ deriveds_in (declaration_of declaration.now) }
{
    match declaration {
        Declaration::Entity(entity) => entity.derived_attributes(),
        _ => &[],
    }
}

/// Adds the formulas of all declarations, in the order of the text.
fn add_all<'t, 'a>(
    formulas: &mut Vec<Option<Formula<'a, 't>>>,
    ranks: &[Option<u32>],
    declarations: &'t [Declaration<'a>],
) -> Result<(), AllocError>
    ensures { OnOk result (Adds ranks.now
        (flat_map deriveds_in (map declaration_of declarations.now)) formulas.old.items
        formulas.new.items) }
{
    for declaration in declarations {
        add_deriveds(formulas, ranks, deriveds_of(declaration))?;
    }
    Ok(())
}

/// Returns the formulas of the derived attributes of a schema whose names are resolved
/// (ISO 10303-11, 9.2.1.2).
///
/// Takes time proportional to the count of declarations and derived attributes.
///
/// # Errors
/// `AllocError` if memory runs out or there are more than 2^32 - 1 derived attributes.
pub fn formulas<'t, 'a>(
    alloc: Global,
    names: &Names<'a, 't>,
    ranks: &[Option<u32>],
) -> Result<Formulas<'a, 't>, AllocError>
    requires resolved { IsResolved (the_schema names.now) }
    requires ranks { AreRanksOf (the_schema names.now) ranks.now }
    ensures { IfOk result (AreFormulasOf (the_schema names.now)) }
{
    let mut rows: Vec<Option<Formula<'a, 't>>> = Vec::new(alloc);
    add_all(&mut rows, ranks, &names.schema.declarations)?;
    let firsts = first_derivations(alloc, names)?;
    Ok(Formulas { rows, firsts })
}
