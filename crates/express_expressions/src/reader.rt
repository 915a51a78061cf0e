//! Expressions, read from lexemes (ISO 10303-11, 12).

ghost use Rattle.std.specs.Prelude.{◌≡◌, ◌∷◌, ℕ, List, MatchOption, IfOk};
ghost use Rattle.express_lexer.specs.declared.marks.Mark.TheVariants as marks;
ghost use Rattle.express_syntax.specs.declared.keyword.Keyword.TheVariants as keywords;
ghost use Rattle.express_syntax.specs.Words.{words_of, keyword, mark, name};
ghost use Rattle.express_syntax.specs.Trees.{word_of_function};
ghost use Rattle.express_syntax.specs.Grammar.{
  primary,
  unary,
  term,
  simple,
  expression,
  IsExpression,
  IsNone,
};
ghost use Rattle.express_syntax.specs.steps.Reads.{Stops, Stands};
ghost use Rattle.express_expressions.specs.steps.Pieces.{
  words_from,
  begun,
  beginning_word,
  level_of,
  Before,
  Elements,
  More,
  Others,
  Selects,
  Attribute,
  AttributeNone,
  Qualifies,
  VariableNone,
  boxed_tree,
  FindsPart,
  FindsBehind,
  FindsBound,
  FindsSigned,
};
ghost use Rattle.express_syntax.specs.ExpressionViews.{
  capitals,
  tree_of,
  trees_of,
  alternatives_of,
  selection_of,
  qualifiers_of,
};

use crate::boxes::{boxed, conjoined, disjoined};
use crate::builders;
use crate::front::{
    behind_keyword, behind_mark, is_deepest, is_unqualified, is_unrelated, junction_first,
    limit_first, name_first, number_first, relation_first, sign_first, start_first,
};
use crate::primary_starts::{Inner, Start};
use crate::refusals::NotRead;
use express_lexer::marks::Mark;
use express_syntax::expression::{Alternative, Expr, Function, Limit, Qualifier, Sign};
use express_syntax::keyword::Keyword;
use express_syntax::lexeme::Lexeme;
use std::alloc::{AllocError, Global};
use step_literals::literal::Word;

/// The tree that is read, and the index after it.
type Read<X> = Result<(X, usize), NotRead>;

/// Reads the number after a sign.
fn signed<'a>(alloc: Global, sign: Sign, lexemes: &[Lexeme<'a>], at: usize) -> Read<Box<Expr<'a>>>
    ensures { FindsSigned sign at lexemes.now result }
{
    let Some((number, rest)) = number_first(lexemes, at) else {
        return Err(NotRead::NoExpression);
    };
    if is_unqualified(lexemes, rest) {
        boxed(alloc, builders::signed(sign, number), rest)
    } else {
        Err(NotRead::NoExpression)
    }
}

/// Reads the variable after QUERY, up to the mark before the source.
fn variable<'a>(lexemes: &[Lexeme<'a>], at: usize) -> Option<(Word<'a>, usize)>
    ensures { MatchOption result (VariableNone (words_from at lexemes.now))
        (λ p. words_from at lexemes.now
        ≡ mark marks.Open ∷ name (capitals p.0) ∷ mark marks.QuerySource
        ∷ words_from p.1 lexemes.now) }
{
    let first = behind_mark(lexemes, at, Mark::Open)?;
    let (variable, second) = name_first(lexemes, first)?;
    let end = behind_mark(lexemes, second, Mark::QuerySource)?;
    Some((variable, end))
}

/// Reads a qualifier that is an attribute, with or without its group.
fn attribute<'a>(lexemes: &[Lexeme<'a>], at: usize) -> Option<(Qualifier<'a>, usize)>
    ensures { MatchOption result (AttributeNone (words_from at lexemes.now))
        (λ p. Attribute (words_from at lexemes.now) (selection_of p.0)
        (words_from p.1 lexemes.now)) }
{
    let Some(more) = behind_mark(lexemes, at, Mark::Backslash) else {
        let more = behind_mark(lexemes, at, Mark::Dot)?;
        let (attribute, end) = name_first(lexemes, more)?;
        return Some((builders::attribute(attribute), end));
    };
    let (entity, more) = name_first(lexemes, more)?;
    let more = behind_mark(lexemes, more, Mark::Dot)?;
    let (attribute, end) = name_first(lexemes, more)?;
    Some((builders::group(entity, attribute), end))
}

/// Reads a simple expression, or two with a relation between them.
#[cycle(reader)]
fn expression<'a>(
    alloc: Global,
    lexemes: &[Lexeme<'a>],
    at: usize,
    depth: u32,
) -> Read<Box<Expr<'a>>>
    ensures { FindsPart (Stands depth expression) boxed_tree at lexemes.now result }
{
    let (left, rest) = simple(alloc, lexemes, at, depth)?;
    let Some((relation, more)) = relation_first(lexemes, rest) else {
        return Ok((left, rest));
    };
    let (right, end) = simple(alloc, lexemes, more, depth)?;
    if !is_unrelated(lexemes, end) {
        return Err(NotRead::NoExpression);
    }
    boxed(alloc, builders::comparison(left, relation, right), end)
}

/// Reads terms with OR or XOR between them.
#[cycle(reader)]
fn simple<'a>(alloc: Global, lexemes: &[Lexeme<'a>], at: usize, depth: u32) -> Read<Box<Expr<'a>>>
    ensures { FindsPart (Stands depth simple) boxed_tree at lexemes.now result }
{
    let (first, rest) = term(alloc, lexemes, at, depth)?;
    let (others, end) = alternatives(alloc, lexemes, rest, depth)?;
    disjoined(alloc, first, others, end)
}

/// Reads OR or XOR and a term, any number of times.
#[cycle(reader)]
fn alternatives<'a>(
    alloc: Global,
    lexemes: &[Lexeme<'a>],
    at: usize,
    depth: u32,
) -> Read<Vec<Alternative<'a>>>
    requires { Stops term (words_from at lexemes.now) }
    ensures { FindsPart (More depth) (λ xs. alternatives_of xs.items) at lexemes.now result }
{
    let mut others = Vec::new(alloc);
    let mut left = at;
    loop {
        let Some((junction, more)) = junction_first(lexemes, left) else {
            return Ok((others, left));
        };
        let (term, rest) = term(alloc, lexemes, more, depth)?;
        others.push(builders::alternative(junction, Box::into_inner(term)))?;
        left = rest;
    }
}

/// Reads unary expressions with AND between them.
#[cycle(reader)]
fn term<'a>(alloc: Global, lexemes: &[Lexeme<'a>], at: usize, depth: u32) -> Read<Box<Expr<'a>>>
    ensures { FindsPart (Stands depth term) boxed_tree at lexemes.now result }
{
    let (first, rest) = unary(alloc, lexemes, at, depth)?;
    let (others, end) = conjuncts(alloc, lexemes, rest, depth)?;
    conjoined(alloc, first, others, end)
}

/// Reads AND and a unary expression, any number of times.
#[cycle(reader)]
fn conjuncts<'a>(
    alloc: Global,
    lexemes: &[Lexeme<'a>],
    at: usize,
    depth: u32,
) -> Read<Vec<Expr<'a>>>
    requires { Stops unary (words_from at lexemes.now) }
    ensures { FindsPart (Others depth) (λ xs. trees_of xs.items) at lexemes.now result }
{
    let mut others = Vec::new(alloc);
    let mut left = at;
    loop {
        let Some(more) = behind_keyword(lexemes, left, Keyword::And) else {
            return Ok((others, left));
        };
        let (other, rest) = unary(alloc, lexemes, more, depth)?;
        others.push(Box::into_inner(other))?;
        left = rest;
    }
}

/// Reads a primary, NOT and a primary, or a sign and a number.
#[cycle(reader)]
fn unary<'a>(alloc: Global, lexemes: &[Lexeme<'a>], at: usize, depth: u32) -> Read<Box<Expr<'a>>>
    ensures { FindsPart (Stands depth unary) boxed_tree at lexemes.now result }
{
    if let Some((sign, more)) = sign_first(lexemes, at) {
        return signed(alloc, sign, lexemes, more);
    }
    let Some(more) = behind_keyword(lexemes, at, Keyword::Not) else {
        return primary(alloc, lexemes, at, depth);
    };
    let (inner, end) = primary(alloc, lexemes, more, depth)?;
    boxed(alloc, builders::negation(inner), end)
}

/// Reads a primary with all its qualifiers.
#[cycle(reader)]
fn primary<'a>(alloc: Global, lexemes: &[Lexeme<'a>], at: usize, depth: u32) -> Read<Box<Expr<'a>>>
    ensures { FindsPart (Stands depth primary) boxed_tree at lexemes.now result }
{
    let Some((start, more)) = start_first(lexemes, at) else {
        return Err(NotRead::NoExpression);
    };
    let (whole, end) = started(alloc, start, lexemes, more, depth)?;
    if !is_unqualified(lexemes, end) {
        return Err(NotRead::NoExpression);
    }
    Ok((whole, end))
}

/// Reads the rest of a primary with this start. The caller tests that no qualifier follows it.
#[cycle(reader)]
fn started<'a>(
    alloc: Global,
    start: Start<'a>,
    lexemes: &[Lexeme<'a>],
    at: usize,
    depth: u32,
) -> Read<Box<Expr<'a>>>
    ensures { FindsBehind (beginning_word (begun start.entry)) depth at lexemes.now result }
{
    match start {
        Start::Literal(value) => boxed(alloc, builders::literal(value), at),
        Start::Parenthesis => parenthesized(alloc, lexemes, at, depth),
        Start::Bracket => {
            let (values, end) = elements(alloc, lexemes, at, depth)?;
            boxed(alloc, builders::aggregate(values), end)
        }
        Start::Brace => interval(alloc, lexemes, at, depth),
        Start::Query => query(alloc, lexemes, at, depth),
        Start::Call(function) => called(alloc, function, lexemes, at, depth),
        Start::Nvl => nvl(alloc, lexemes, at, depth),
        Start::Reference(root) => {
            let (qualifiers, end) = qualifiers(alloc, lexemes, at, depth)?;
            boxed(alloc, builders::reference(root, qualifiers), end)
        }
    }
}

/// Reads an expression in parentheses, after the opening one.
#[cycle(reader)]
fn parenthesized<'a>(
    alloc: Global,
    lexemes: &[Lexeme<'a>],
    at: usize,
    depth: u32,
) -> Read<Box<Expr<'a>>>
    ensures { FindsBehind (mark marks.Open) depth at lexemes.now result }
{
    let (inner, end) = before(alloc, lexemes, at, depth, Inner::Expression, Mark::Close)?;
    boxed(alloc, builders::parenthesized(inner), end)
}

/// Reads the argument of a function, with its parentheses.
#[cycle(reader)]
fn called<'a>(
    alloc: Global,
    function: Function,
    lexemes: &[Lexeme<'a>],
    at: usize,
    depth: u32,
) -> Read<Box<Expr<'a>>>
    ensures { FindsBehind (word_of_function function) depth at lexemes.now result }
{
    let Some(more) = behind_mark(lexemes, at, Mark::Open) else {
        return Err(NotRead::NoExpression);
    };
    let (argument, end) = before(alloc, lexemes, more, depth, Inner::Expression, Mark::Close)?;
    boxed(alloc, builders::call(function, argument), end)
}

/// Reads an expression of this level.
#[cycle(reader)]
fn inside<'a>(
    alloc: Global,
    lexemes: &[Lexeme<'a>],
    at: usize,
    depth: u32,
    inner: Inner,
) -> Read<Box<Expr<'a>>>
    ensures { FindsPart (Stands depth (level_of inner)) boxed_tree at lexemes.now result }
{
    match inner {
        Inner::Simple => simple(alloc, lexemes, at, depth),
        Inner::Expression => expression(alloc, lexemes, at, depth),
    }
}

/// Reads an expression inside a bracket, up to and including this mark.
#[cycle(reader)]
fn before<'a>(
    alloc: Global,
    lexemes: &[Lexeme<'a>],
    at: usize,
    depth: u32,
    inner: Inner,
    end: Mark,
) -> Read<Box<Expr<'a>>>
    ensures { FindsPart (Before depth (level_of inner) (mark end)) boxed_tree at
        lexemes.now result }
{
    if is_deepest(depth) {
        return Err(NotRead::NoExpression);
    }
    let (whole, rest) = inside(alloc, lexemes, at, depth + 1, inner)?;
    let Some(behind) = behind_mark(lexemes, rest, end) else {
        return Err(NotRead::NoExpression);
    };
    Ok((whole, behind))
}

/// Reads a simple expression inside a brace, and the limit after it.
#[cycle(reader)]
fn bound<'a>(
    alloc: Global,
    lexemes: &[Lexeme<'a>],
    at: usize,
    depth: u32,
) -> Result<(Box<Expr<'a>>, Limit, usize), NotRead>
    ensures { FindsBound depth at lexemes.now result }
{
    if is_deepest(depth) {
        return Err(NotRead::NoExpression);
    }
    let (value, rest) = simple(alloc, lexemes, at, depth + 1)?;
    let Some((limit, behind)) = limit_first(lexemes, rest) else {
        return Err(NotRead::NoExpression);
    };
    Ok((value, limit, behind))
}

/// Reads an interval, after its opening brace.
#[cycle(reader)]
fn interval<'a>(alloc: Global, lexemes: &[Lexeme<'a>], at: usize, depth: u32) -> Read<Box<Expr<'a>>>
    ensures { FindsBehind (mark marks.OpenBrace) depth at lexemes.now result }
{
    let (low, above, second) = bound(alloc, lexemes, at, depth)?;
    let (item, below, third) = bound(alloc, lexemes, second, depth)?;
    let (high, end) = before(
        alloc,
        lexemes,
        third,
        depth,
        Inner::Simple,
        Mark::CloseBrace,
    )?;
    boxed(
        alloc,
        builders::interval(low, above, item, below, high),
        end,
    )
}

/// Reads a query, after the word QUERY.
#[cycle(reader)]
fn query<'a>(alloc: Global, lexemes: &[Lexeme<'a>], at: usize, depth: u32) -> Read<Box<Expr<'a>>>
    ensures { FindsBehind (keyword keywords.Query) depth at lexemes.now result }
{
    let Some((variable, first)) = variable(lexemes, at) else {
        return Err(NotRead::NoExpression);
    };
    let (source, second) = before(alloc, lexemes, first, depth, Inner::Simple, Mark::Bar)?;
    let (condition, end) = before(
        alloc,
        lexemes,
        second,
        depth,
        Inner::Expression,
        Mark::Close,
    )?;
    boxed(alloc, builders::query(variable, source, condition), end)
}

/// Reads the arguments of NVL, with their parentheses.
#[cycle(reader)]
fn nvl<'a>(alloc: Global, lexemes: &[Lexeme<'a>], at: usize, depth: u32) -> Read<Box<Expr<'a>>>
    ensures { FindsBehind (keyword keywords.Nvl) depth at lexemes.now result }
{
    let Some(first) = behind_mark(lexemes, at, Mark::Open) else {
        return Err(NotRead::NoExpression);
    };
    let (value, second) = before(alloc, lexemes, first, depth, Inner::Expression, Mark::Comma)?;
    let (substitute, end) = before(
        alloc,
        lexemes,
        second,
        depth,
        Inner::Expression,
        Mark::Close,
    )?;
    boxed(alloc, builders::nvl(value, substitute), end)
}

/// Reads the elements of an aggregate, and the bracket that closes it.
#[cycle(reader)]
fn elements<'a>(alloc: Global, lexemes: &[Lexeme<'a>], at: usize, depth: u32) -> Read<Vec<Expr<'a>>>
    ensures { FindsPart (Elements depth) (λ xs. trees_of xs.items) at lexemes.now result }
{
    if is_deepest(depth) {
        return Err(NotRead::NoExpression);
    }
    let mut values = Vec::new(alloc);
    if let Some(end) = behind_mark(lexemes, at, Mark::CloseBracket) {
        return Ok((values, end));
    }
    let mut left = at;
    loop {
        let (value, rest) = expression(alloc, lexemes, left, depth + 1)?;
        values.push(Box::into_inner(value))?;
        if let Some(end) = behind_mark(lexemes, rest, Mark::CloseBracket) {
            return Ok((values, end));
        }
        let Some(more) = behind_mark(lexemes, rest, Mark::Comma) else {
            return Err(NotRead::NoExpression);
        };
        left = more;
    }
}

/// Reads the qualifiers of a reference.
#[cycle(reader)]
fn qualifiers<'a>(
    alloc: Global,
    lexemes: &[Lexeme<'a>],
    at: usize,
    depth: u32,
) -> Read<Vec<Qualifier<'a>>>
    ensures { FindsPart (Selects depth) (λ xs. qualifiers_of xs.items) at lexemes.now result }
{
    let mut qualifiers = Vec::new(alloc);
    let mut left = at;
    loop {
        if is_unqualified(lexemes, left) {
            return Ok((qualifiers, left));
        }
        let (qualifier, rest) = qualifier(alloc, lexemes, left, depth)?;
        qualifiers.push(qualifier)?;
        left = rest;
    }
}

/// Reads a qualifier: the index of an element, or an attribute.
#[cycle(reader)]
fn qualifier<'a>(
    alloc: Global,
    lexemes: &[Lexeme<'a>],
    at: usize,
    depth: u32,
) -> Read<Qualifier<'a>>
    ensures { FindsPart (Qualifies depth) selection_of at lexemes.now result }
{
    let Some(more) = behind_mark(lexemes, at, Mark::OpenBracket) else {
        return match attribute(lexemes, at) {
            Some(found) => Ok(found),
            None => Err(NotRead::NoExpression),
        };
    };
    let (element, end) = before(
        alloc,
        lexemes,
        more,
        depth,
        Inner::Simple,
        Mark::CloseBracket,
    )?;
    Ok((builders::index(element), end))
}

/// Reads the lexemes of one expression (ISO 10303-11, 12), with `depth` parentheses, brackets and
/// braces open around it. With its own brackets at most 64 may be open.
///
/// Returns `None` if the lexemes aren't those of an expression.
///
/// # Errors
///
/// `AllocError` if memory runs out.
pub fn read_expression<'a>(
    alloc: Global,
    lexemes: &[Lexeme<'a>],
    depth: u32,
) -> Result<Option<Expr<'a>>, AllocError>
    ensures { IfOk result (λ r. MatchOption r (IsNone depth (words_of lexemes.now))
        (λ e. IsExpression depth (words_of lexemes.now) (tree_of e))) }
{
    match expression(alloc, lexemes, 0, depth) {
        Ok((whole, rest)) => {
            if rest >= lexemes.len() {
                Ok(Some(Box::into_inner(whole)))
            } else {
                Ok(None)
            }
        }
        Err(NotRead::NoExpression) => Ok(None),
        Err(NotRead::Memory) => Err(AllocError),
    }
}
