//! Trees that are moved to the heap.

ghost use Rattle.express_syntax.specs.ExpressionViews.{tree_of, trees_of, alternatives_of};
ghost use Rattle.express_expressions.specs.steps.Pieces.{Builds, conjoined, disjoined};

use crate::builders;
use crate::refusals::NotRead;
use express_syntax::expression::{Alternative, Expr};
use std::alloc::Global;

/// Returns the tree, moved to the heap, and the index `end`.
pub(crate) fn boxed<'a>(
    alloc: Global,
    whole: Expr<'a>,
    end: usize,
) -> Result<(Box<Expr<'a>>, usize), NotRead>
    ensures { Builds (tree_of whole.entry) end result }
{
    let whole = Box::new(alloc, whole)?;
    Ok((whole, end))
}

/// Returns the first expression, joined by AND with the others, if any.
pub(crate) fn conjoined<'a>(
    alloc: Global,
    first: Box<Expr<'a>>,
    others: Vec<Expr<'a>>,
    end: usize,
) -> Result<(Box<Expr<'a>>, usize), NotRead>
    ensures { Builds (conjoined (tree_of first.entry.value) (trees_of others.entry.items))
        end result }
{
    if others.is_empty() {
        Ok((first, end))
    } else {
        boxed(alloc, builders::conjunction(first, others), end)
    }
}

/// Returns the first expression, followed by the alternatives, if any.
pub(crate) fn disjoined<'a>(
    alloc: Global,
    first: Box<Expr<'a>>,
    others: Vec<Alternative<'a>>,
    end: usize,
) -> Result<(Box<Expr<'a>>, usize), NotRead>
    ensures { Builds (disjoined (tree_of first.entry.value) (alternatives_of others.entry.items))
        end result }
{
    if others.is_empty() {
        Ok((first, end))
    } else {
        boxed(alloc, builders::disjunction(first, others), end)
    }
}
