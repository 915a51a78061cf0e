//! What is at an index of lexemes, and the index after it.

ghost use Rattle.std.specs.Prelude.{
  ◌≡◌,
  [],
  ◌∷◌,
  ◌+◌,
  ◌<◌,
  ◌≤◌,
  ℕ,
  List,
  length,
  MatchOption,
  MatchBool,
};
ghost use Rattle.express_syntax.specs.declared.expression.Relation.{Relation};
ghost use Rattle.express_syntax.specs.Words.{word_of, name, keyword, mark};
ghost use Rattle.express_syntax.specs.Trees.{
  word_of_number,
  word_of_sign,
  word_of_relation,
  word_of_limit,
  word_of_junction,
};
ghost use Rattle.express_syntax.specs.Grammar.{primary, depth_limit};
ghost use Rattle.express_syntax.specs.steps.Reads.{Stops};
ghost use Rattle.express_expressions.specs.steps.Pieces.{
  words_from,
  Lacks,
  Finds,
  FindsWord,
  begun,
  beginning_word,
};
ghost use Rattle.express_syntax.specs.ExpressionViews.{capitals, number_of};

use crate::literals::{junction_at, limit_at, name_at, number_at, relation_at, sign_at};
use crate::primary_starts::{Start, start_of};
use express_lexer::marks::Mark;
use express_syntax::expression::{Junction, LEVELS, Limit, Number, Relation, Sign};
use express_syntax::keyword::Keyword;
use express_syntax::lexeme::{Lexeme, is_keyword, is_mark};
use step_literals::literal::Word;

/// Returns the lexeme at this index, if any.
fn first_at<'a>(lexemes: &[Lexeme<'a>], at: usize) -> Option<Lexeme<'a>>
    ensures { MatchOption result (words_from at lexemes.now ≡ [])
        (λ x. (at < length lexemes.now)
        × (words_from at lexemes.now ≡ word_of x ∷ words_from (at + 1) lexemes.now)) }
{
    lexemes.get(at).copied()
}

/// Returns the index after this mark, if it is at `at`.
pub(crate) fn behind_mark(lexemes: &[Lexeme<'_>], at: usize, wanted: Mark) -> Option<usize>
    ensures { FindsWord (mark wanted) at lexemes.now result }
{
    let first = first_at(lexemes, at)?;
    if is_mark(first, wanted) {
        Some(at + 1)
    } else {
        None
    }
}

/// Returns the index after this keyword, if it is at `at`.
pub(crate) fn behind_keyword(lexemes: &[Lexeme<'_>], at: usize, wanted: Keyword) -> Option<usize>
    ensures { FindsWord (keyword wanted) at lexemes.now result }
{
    let first = first_at(lexemes, at)?;
    if is_keyword(first, wanted) {
        Some(at + 1)
    } else {
        None
    }
}

/// Returns the name at `at` and the index after it, if any.
pub(crate) fn name_first<'a>(lexemes: &[Lexeme<'a>], at: usize) -> Option<(Word<'a>, usize)>
    ensures { Finds name capitals at lexemes.now result }
{
    let first = first_at(lexemes, at)?;
    let word = name_at(first)?;
    Some((word, at + 1))
}

/// Returns the number at `at` and the index after it, if any.
pub(crate) fn number_first<'a>(lexemes: &[Lexeme<'a>], at: usize) -> Option<(Number<'a>, usize)>
    ensures { Finds word_of_number number_of at lexemes.now result }
{
    let first = first_at(lexemes, at)?;
    let number = number_at(first)?;
    Some((number, at + 1))
}

/// Returns the sign at `at` and the index after it, if any.
pub(crate) fn sign_first<'a>(lexemes: &[Lexeme<'a>], at: usize) -> Option<(Sign, usize)>
    ensures { Finds word_of_sign (λ s. s) at lexemes.now result }
{
    let first = first_at(lexemes, at)?;
    let sign = sign_at(first)?;
    Some((sign, at + 1))
}

/// Returns the relation at `at` and the index after it, if any.
pub(crate) fn relation_first<'a>(lexemes: &[Lexeme<'a>], at: usize) -> Option<(Relation, usize)>
    ensures { Finds word_of_relation (λ r. r) at lexemes.now result }
{
    let first = first_at(lexemes, at)?;
    let relation = relation_at(first)?;
    Some((relation, at + 1))
}

/// Returns the relation to an end of an interval at `at` and the index after it, if any.
pub(crate) fn limit_first<'a>(lexemes: &[Lexeme<'a>], at: usize) -> Option<(Limit, usize)>
    ensures { Finds word_of_limit (λ l. l) at lexemes.now result }
{
    let first = first_at(lexemes, at)?;
    let limit = limit_at(first)?;
    Some((limit, at + 1))
}

/// Returns OR or XOR at `at` and the index after it, if any.
pub(crate) fn junction_first<'a>(lexemes: &[Lexeme<'a>], at: usize) -> Option<(Junction, usize)>
    ensures { Finds word_of_junction (λ j. j) at lexemes.now result }
{
    let first = first_at(lexemes, at)?;
    let junction = junction_at(first)?;
    Some((junction, at + 1))
}

/// Returns the start of a primary at `at` and the index after it, if any.
pub(crate) fn start_first<'a>(lexemes: &[Lexeme<'a>], at: usize) -> Option<(Start<'a>, usize)>
    ensures { Finds beginning_word begun at lexemes.now result }
{
    let first = first_at(lexemes, at)?;
    let start = start_of(first)?;
    Some((start, at + 1))
}

/// Whether no qualifier begins at `at`.
pub(crate) fn is_unqualified(lexemes: &[Lexeme<'_>], at: usize) -> bool
    ensures { MatchBool result (Stops primary (words_from at lexemes.now))
        (Stops primary (words_from at lexemes.now) → ⊥) }
{
    match first_at(lexemes, at) {
        Some(Lexeme::Mark(Mark::Dot | Mark::Backslash | Mark::OpenBracket)) => false,
        _ => true,
    }
}

/// Whether no relation is at `at`.
pub(crate) fn is_unrelated(lexemes: &[Lexeme<'_>], at: usize) -> bool
    ensures { MatchBool result
        ((x : Relation) → Lacks (word_of_relation x) (words_from at lexemes.now))
        ((x : Relation) × (rest : List _)
        × (words_from at lexemes.now ≡ word_of_relation x ∷ rest)) }
{
    relation_first(lexemes, at).is_none()
}

/// Whether no further parenthesis, bracket or brace may be open.
pub(crate) fn is_deepest(depth: u32) -> bool
    ensures { MatchBool result (depth_limit ≤ depth) (depth < depth_limit) }
{
    depth >= LEVELS
}
