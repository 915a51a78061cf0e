//! Sets of possible values that don't depend on a schema.

ghost use Rattle.std.specs.Prelude.{OnOk};
ghost use Rattle.express_syntax.specs.ExpressionViews.{literal_of};
ghost use Rattle.express_syntax.specs.Schemas.{Schema};
ghost use Rattle.schema_semantics.specs.Sets.{Only, OfLiteral, OfCall, Aggregates};
ghost use Rattle.schema_data_types.specs.steps.Values.{AddsAll, Holds, IsMeant, sort_of};

use express_syntax::expression::{Function, Literal};
use schema_data_types::values::{Atom, Sort};
use std::alloc::AllocError;

/// Adds the values of `sort` that are of no SELECT.
pub(crate) fn add_sort(sort: Sort, atoms: &mut Vec<Atom>) -> Result<(), AllocError>
    ensures { (s : Schema)
        → OnOk result (AddsAll s atoms.old.items (Only (sort_of sort)) atoms.new.items) }
{
    atoms.push(Atom::Value(sort, false))?;
    Ok(())
}

/// Adds the possible values of a literal (ISO 10303-11, 7.5 and 14).
pub(crate) fn add_literal(literal: &Literal<'_>, atoms: &mut Vec<Atom>) -> Result<(), AllocError>
    ensures { (s : Schema) → OnOk result
        (AddsAll s atoms.old.items (OfLiteral (literal_of literal.now)) atoms.new.items) }
{
    match literal {
        Literal::Number(_) => add_sort(Sort::Number, atoms),
        Literal::String(_) => add_sort(Sort::String, atoms),
        Literal::Encoded(_) => add_sort(Sort::String, atoms),
        Literal::Binary(_) => add_sort(Sort::Binary, atoms),
        Literal::Logical(_) => add_sort(Sort::Logical, atoms),
        Literal::Indeterminate => Ok(()),
    }
}

/// Adds the possible results of a function call (ISO 10303-11, 15).
pub(crate) fn add_call(function: Function, atoms: &mut Vec<Atom>) -> Result<(), AllocError>
    ensures { (s : Schema)
        → OnOk result (AddsAll s atoms.old.items (OfCall function) atoms.new.items) }
{
    match function {
        Function::Exists => add_sort(Sort::Logical, atoms),
        Function::Sizeof | Function::Hiindex | Function::Loindex => add_sort(Sort::Number, atoms),
        Function::Typeof => Ok(()),
    }
}

/// Adds `atom` as an aggregate of no SELECT, if it is an aggregate.
fn add_aggregate(atom: Atom, atoms: &mut Vec<Atom>) -> Result<(), AllocError>
    ensures { (s : Schema) → OnOk result
        (AddsAll s atoms.old.items (Aggregates (IsMeant s atom)) atoms.new.items) }
{
    if let Atom::Aggregate(number, _) = atom {
        atoms.push(Atom::Aggregate(number, false))?;
    }
    Ok(())
}

/// Adds the aggregates in `some`, as of no SELECT (ISO 10303-11, 12.6.7).
pub(crate) fn add_aggregates(some: &[Atom], atoms: &mut Vec<Atom>) -> Result<(), AllocError>
    ensures { (s : Schema) → OnOk result
        (AddsAll s atoms.old.items (Aggregates (Holds s some.now)) atoms.new.items) }
{
    for atom in some {
        add_aggregate(*atom, atoms)?;
    }
    Ok(())
}
