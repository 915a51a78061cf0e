//! The possible values of expressions.

ghost use Rattle.std.specs.Prelude.{IfOk, OnOk, map};
ghost use Rattle.express_syntax.specs.ExpressionViews.{
  root_of,
  qualifiers_of,
  tree_of,
  trees_of,
};
ghost use Rattle.schema_semantics.specs.Sets.{Elements, May, OfReference};
ghost use Rattle.schema_semantics.specs.Reasons.{ElementsOf, OfTrees};
ghost use Rattle.schema_names.specs.Schemas.{the_schema};
ghost use Rattle.schema_data_types.specs.steps.Values.{AddsAll, AreTables, Holds, IsMeant};
ghost use Rattle.schema_attribute_references.specs.steps.Taking.{IsSet, schema_in};
ghost use Rattle.schema_expression_types.specs.steps.Scopes.{IsScope, own_in, variables_in};

use crate::atoms::{add_aggregates, add_call, add_literal, add_sort};
use crate::references::refer;
use crate::scope::Scope;
use express_syntax::expression::{Expr, Qualifier, Root};
use schema_data_types::values::{Atom, Sort, Tables, add_values};
use std::alloc::{AllocError, Global};

/// Adds the possible elements of `atom`, if it is an aggregate.
fn add_elements(
    tables: &Tables<'_, '_, '_>,
    atom: Atom,
    atoms: &mut Vec<Atom>,
) -> Result<(), AllocError>
    requires tables { AreTables tables.now }
    ensures { OnOk result (AddsAll (the_schema tables.now.names.now) atoms.old.items
        (Elements (the_schema tables.now.names.now)
        (IsMeant (the_schema tables.now.names.now) atom)) atoms.new.items) }
{
    let Atom::Aggregate(number, _) = atom else {
        return Ok(());
    };
    if (number as usize) < tables.data_types.forms.len() {
        add_values(tables, number, atoms)
    } else {
        Ok(())
    }
}

/// Returns the possible elements of the aggregates in `atoms` (ISO 10303-11, 12.6.1).
pub fn elements(
    alloc: Global,
    tables: &Tables<'_, '_, '_>,
    atoms: &[Atom],
) -> Result<Vec<Atom>, AllocError>
    requires tables { AreTables tables.now }
    ensures { IfOk result (λ t. IsSet (the_schema tables.now.names.now)
        (Elements (the_schema tables.now.names.now)
        (Holds (the_schema tables.now.names.now) atoms.now)) t.items) }
{
    let mut elements = Vec::new(alloc);
    for atom in atoms {
        add_elements(tables, *atom, &mut elements)?;
    }
    Ok(elements)
}

/// Adds the possible values of a reference.
fn add_reference<'a>(
    alloc: Global,
    scope: &Scope<'a, '_, '_, '_>,
    root: Root<'_>,
    qualifiers: &[Qualifier<'a>],
    atoms: &mut Vec<Atom>,
) -> Result<(), AllocError>
    requires scope { IsScope scope.now }
    ensures { OnOk result (AddsAll (schema_in scope.now.known) atoms.old.items
        (OfReference (schema_in scope.now.known) (own_in scope.now) (variables_in scope.now)
        (root_of root.entry) (qualifiers_of qualifiers.now)) atoms.new.items) }
{
    let reference = refer(alloc, scope, root, qualifiers)?;
    atoms.extend_from_slice(&reference.may)?;
    Ok(())
}

/// Adds the possible values of an expression.
fn add_possible<'a>(
    alloc: Global,
    scope: &Scope<'a, '_, '_, '_>,
    expression: &Expr<'a>,
    atoms: &mut Vec<Atom>,
) -> Result<(), AllocError>
    requires scope { IsScope scope.now }
    ensures { OnOk result (AddsAll (schema_in scope.now.known) atoms.old.items
        (May (schema_in scope.now.known) (own_in scope.now) (variables_in scope.now)
        (tree_of expression.now)) atoms.new.items) }
{
    match expression {
        Expr::Literal(literal) => add_literal(literal, atoms),
        Expr::Signed(_, _) => add_sort(Sort::Number, atoms),
        Expr::Reference(root, qualifiers) => {
            add_reference(alloc, scope, *root, qualifiers, atoms)
        }
        Expr::Parenthesized(inner) => add_possible(alloc, scope, inner, atoms),
        Expr::Aggregate(_) => Ok(()),
        Expr::Query { source, .. } => {
            let mut sources = Vec::new(alloc);
            add_possible(alloc, scope, source, &mut sources)?;
            add_aggregates(&sources, atoms)
        }
        Expr::Call(function, _) => add_call(*function, atoms),
        Expr::Nvl(value, substitute) => {
            add_possible(alloc, scope, value, atoms)?;
            add_possible(alloc, scope, substitute, atoms)
        }
        Expr::Interval { .. } => add_sort(Sort::Logical, atoms),
        Expr::Not(_) => add_sort(Sort::Logical, atoms),
        Expr::Conjunction(_, _) => add_sort(Sort::Logical, atoms),
        Expr::Disjunction(_, _) => add_sort(Sort::Logical, atoms),
        Expr::Comparison(_, _, _) => add_sort(Sort::Logical, atoms),
    }
}

/// Returns the possible values of an expression.
pub fn possible<'a>(
    alloc: Global,
    scope: &Scope<'a, '_, '_, '_>,
    expression: &Expr<'a>,
) -> Result<Vec<Atom>, AllocError>
    requires scope { IsScope scope.now }
    ensures { IfOk result (λ t. IsSet (schema_in scope.now.known) (May (schema_in scope.now.known)
        (own_in scope.now) (variables_in scope.now) (tree_of expression.now)) t.items) }
{
    let mut atoms = Vec::new(alloc);
    add_possible(alloc, scope, expression, &mut atoms)?;
    Ok(atoms)
}

/// Returns the possible values of the expressions `items`.
fn possible_items<'a>(
    alloc: Global,
    scope: &Scope<'a, '_, '_, '_>,
    items: &[Expr<'a>],
) -> Result<Vec<Atom>, AllocError>
    requires scope { IsScope scope.now }
    ensures { IfOk result (λ t. IsSet (schema_in scope.now.known) (OfTrees
        (schema_in scope.now.known) (own_in scope.now) (variables_in scope.now)
        (trees_of items.now)) t.items) }
{
    let mut atoms = Vec::new(alloc);
    for item in items {
        add_possible(alloc, scope, item, &mut atoms)?;
    }
    Ok(atoms)
}

/// Returns the possible elements of the aggregates that `expression` may be.
fn elements_of<'a>(
    alloc: Global,
    scope: &Scope<'a, '_, '_, '_>,
    expression: &Expr<'a>,
) -> Result<Vec<Atom>, AllocError>
    requires scope { IsScope scope.now }
    ensures { IfOk result (λ t. IsSet (schema_in scope.now.known)
        (Elements (schema_in scope.now.known) (May (schema_in scope.now.known)
        (own_in scope.now) (variables_in scope.now) (tree_of expression.now))) t.items) }
{
    let atoms = possible(alloc, scope, expression)?;
    elements(alloc, &scope.known.tables, &atoms)
}

/// Returns the possible elements of an expression on the right of IN (ISO 10303-11, 12.2.3).
pub fn possible_elements<'a>(
    alloc: Global,
    scope: &Scope<'a, '_, '_, '_>,
    expression: &Expr<'a>,
) -> Result<Vec<Atom>, AllocError>
    requires scope { IsScope scope.now }
    ensures { IfOk result (λ t. IsSet (schema_in scope.now.known) (ElementsOf
        (schema_in scope.now.known) (own_in scope.now) (variables_in scope.now)
        (tree_of expression.now)) t.items) }
{
    match expression {
        Expr::Parenthesized(inner) => possible_elements(alloc, scope, inner),
        Expr::Aggregate(items) => possible_items(alloc, scope, items),
        _ => elements_of(alloc, scope, expression),
    }
}
