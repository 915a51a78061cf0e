//! Trees built from their parts.

ghost use Rattle.std.specs.Prelude.{◌≡◌};
ghost use Rattle.express_syntax.specs.Trees;
ghost use Rattle.express_syntax.specs.ExpressionViews.{
  choice,
  of_attribute,
  of_group,
  of_element,
  capitals,
  number_of,
  literal_of,
  root_of,
  tree_of,
  trees_of,
  selection_of,
  choice_of,
  qualifiers_of,
  alternatives_of,
};

use express_syntax::expression::{
    Alternative, Expr, Function, Junction, Limit, Literal, Number, Qualifier, Relation, Root, Sign,
};
use step_literals::literal::Word;

/// Builds a literal.
pub(crate) fn literal(value: Literal<'_>) -> Expr<'_>
    ensures { tree_of result ≡ Trees.literal (literal_of value.entry) }
{
    Expr::Literal(value)
}

/// Builds a number with a sign.
pub(crate) fn signed(sign: Sign, value: Number<'_>) -> Expr<'_>
    ensures { tree_of result ≡ Trees.signed sign (number_of value.entry) }
{
    Expr::Signed(sign, value)
}

/// Builds a reference with its qualifiers.
pub(crate) fn reference<'a>(root: Root<'a>, mut qualifiers: Vec<Qualifier<'a>>) -> Expr<'a>
    ensures { tree_of result
        ≡ Trees.reference (root_of root.entry) (qualifiers_of qualifiers.entry.items) }
{
    qualifiers.shrink_to_fit();
    Expr::Reference(root, qualifiers)
}

/// Builds an expression in parentheses.
pub(crate) fn parenthesized(inner: Box<Expr<'_>>) -> Expr<'_>
    ensures { tree_of result ≡ Trees.parenthesized (tree_of inner.entry.value) }
{
    Expr::Parenthesized(inner)
}

/// Builds an aggregate with these elements.
pub(crate) fn aggregate(mut elements: Vec<Expr<'_>>) -> Expr<'_>
    ensures { tree_of result ≡ Trees.aggregate (trees_of elements.entry.items) }
{
    elements.shrink_to_fit();
    Expr::Aggregate(elements)
}

/// Builds an interval, with the relations of its ends to the item.
pub(crate) fn interval<'a>(
    low: Box<Expr<'a>>,
    above: Limit,
    item: Box<Expr<'a>>,
    below: Limit,
    high: Box<Expr<'a>>,
) -> Expr<'a>
    ensures { tree_of result
        ≡ Trees.interval (tree_of low.entry.value) above (tree_of item.entry.value) below
        (tree_of high.entry.value) }
{
    Expr::Interval {
        low,
        above,
        item,
        below,
        high,
    }
}

/// Builds a query over a source.
pub(crate) fn query<'a>(
    variable: Word<'a>,
    source: Box<Expr<'a>>,
    condition: Box<Expr<'a>>,
) -> Expr<'a>
    ensures { tree_of result
        ≡ Trees.query (capitals variable.entry) (tree_of source.entry.value)
        (tree_of condition.entry.value) }
{
    Expr::Query {
        variable,
        source,
        condition,
    }
}

/// Builds the call of a function of the language.
pub(crate) fn call(function: Function, argument: Box<Expr<'_>>) -> Expr<'_>
    ensures { tree_of result ≡ Trees.call function (tree_of argument.entry.value) }
{
    Expr::Call(function, argument)
}

/// Builds NVL of a value and its substitute.
pub(crate) fn nvl<'a>(value: Box<Expr<'a>>, substitute: Box<Expr<'a>>) -> Expr<'a>
    ensures { tree_of result
        ≡ Trees.nvl (tree_of value.entry.value) (tree_of substitute.entry.value) }
{
    Expr::Nvl(value, substitute)
}

/// Builds NOT of a primary.
pub(crate) fn negation(inner: Box<Expr<'_>>) -> Expr<'_>
    ensures { tree_of result ≡ Trees.negation (tree_of inner.entry.value) }
{
    Expr::Not(inner)
}

/// Builds AND between the first expression and the others.
pub(crate) fn conjunction<'a>(first: Box<Expr<'a>>, mut others: Vec<Expr<'a>>) -> Expr<'a>
    ensures { tree_of result
        ≡ Trees.conjunction (tree_of first.entry.value) (trees_of others.entry.items) }
{
    others.shrink_to_fit();
    Expr::Conjunction(first, others)
}

/// Builds OR and XOR between the first expression and the others.
pub(crate) fn disjunction<'a>(first: Box<Expr<'a>>, mut others: Vec<Alternative<'a>>) -> Expr<'a>
    ensures { tree_of result
        ≡ Trees.disjunction (tree_of first.entry.value) (alternatives_of others.entry.items) }
{
    others.shrink_to_fit();
    Expr::Disjunction(first, others)
}

/// Builds a comparison.
pub(crate) fn comparison<'a>(
    left: Box<Expr<'a>>,
    relation: Relation,
    right: Box<Expr<'a>>,
) -> Expr<'a>
    ensures { tree_of result
        ≡ Trees.comparison (tree_of left.entry.value) relation (tree_of right.entry.value) }
{
    Expr::Comparison(left, relation, right)
}

/// Builds `.` and an attribute.
pub(crate) fn attribute(name: Word<'_>) -> Qualifier<'_>
    ensures { selection_of result ≡ of_attribute (capitals name.entry) }
{
    Qualifier::Attribute(name)
}

/// Builds `\`, an entity, `.` and an attribute.
pub(crate) fn group<'a>(entity: Word<'a>, name: Word<'a>) -> Qualifier<'a>
    ensures { selection_of result ≡ of_group (capitals entity.entry) (capitals name.entry) }
{
    Qualifier::Group(entity, name)
}

/// Builds the index of an element, in brackets.
pub(crate) fn index(element: Box<Expr<'_>>) -> Qualifier<'_>
    ensures { selection_of result ≡ of_element (tree_of element.entry.value) }
{
    Qualifier::Index(element)
}

/// Builds OR or XOR and the term after it.
pub(crate) fn alternative(junction: Junction, term: Expr<'_>) -> Alternative<'_>
    ensures { choice_of result ≡ choice junction (tree_of term.entry) }
{
    Alternative { junction, term }
}
