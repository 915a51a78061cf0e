//! The lexemes that are names, numbers, signs and relations (ISO 10303-11, 7.5 and 12).

ghost use Rattle.express_syntax.specs.Words.{name};
ghost use Rattle.express_syntax.specs.Trees.{
  word_of_number,
  word_of_sign,
  word_of_relation,
  word_of_limit,
  word_of_junction,
};
ghost use Rattle.express_syntax.specs.ExpressionViews.{capitals, number_of};
ghost use Rattle.express_expressions.specs.steps.Pieces.{Spells};

use express_lexer::marks::Mark;
use express_syntax::expression::{Junction, Limit, Number, Relation, Sign};
use express_syntax::keyword::Keyword;
use express_syntax::lexeme::Lexeme;
use step_literals::literal::Word;

/// Returns the number that the lexeme is, if any.
pub(crate) fn number_at(lexeme: Lexeme<'_>) -> Option<Number<'_>>
    ensures { Spells word_of_number number_of lexeme.entry result }
{
    match lexeme {
        Lexeme::Integer(digits) => Some(Number::Integer(digits)),
        Lexeme::Real(number) => Some(Number::Real(number)),
        _ => None,
    }
}

/// Returns the name that the lexeme is, if any.
pub(crate) fn name_at(lexeme: Lexeme<'_>) -> Option<Word<'_>>
    ensures { Spells name capitals lexeme.entry result }
{
    match lexeme {
        Lexeme::Name(word) => Some(word),
        _ => None,
    }
}

/// Returns the sign that the lexeme is, if any.
pub(crate) fn sign_at(lexeme: Lexeme<'_>) -> Option<Sign>
    ensures { Spells word_of_sign (λ s. s) lexeme.entry result }
{
    match lexeme {
        Lexeme::Mark(Mark::Plus) => Some(Sign::Plus),
        Lexeme::Mark(Mark::Minus) => Some(Sign::Minus),
        _ => None,
    }
}

/// Returns the relation that the lexeme is, if any.
pub(crate) fn relation_at(lexeme: Lexeme<'_>) -> Option<Relation>
    ensures { Spells word_of_relation (λ r. r) lexeme.entry result }
{
    match lexeme {
        Lexeme::Mark(Mark::Equal) => Some(Relation::Equal),
        Lexeme::Mark(Mark::NotEqual) => Some(Relation::NotEqual),
        Lexeme::Mark(Mark::Less) => Some(Relation::Less),
        Lexeme::Mark(Mark::Greater) => Some(Relation::Greater),
        Lexeme::Mark(Mark::LessOrEqual) => Some(Relation::LessOrEqual),
        Lexeme::Mark(Mark::GreaterOrEqual) => Some(Relation::GreaterOrEqual),
        Lexeme::Keyword(Keyword::In) => Some(Relation::In),
        _ => None,
    }
}

/// Returns the relation to an end of an interval that the lexeme is, if any.
pub(crate) fn limit_at(lexeme: Lexeme<'_>) -> Option<Limit>
    ensures { Spells word_of_limit (λ l. l) lexeme.entry result }
{
    match lexeme {
        Lexeme::Mark(Mark::Less) => Some(Limit::Less),
        Lexeme::Mark(Mark::LessOrEqual) => Some(Limit::LessOrEqual),
        _ => None,
    }
}

/// Returns OR or XOR if the lexeme is one of them.
pub(crate) fn junction_at(lexeme: Lexeme<'_>) -> Option<Junction>
    ensures { Spells word_of_junction (λ j. j) lexeme.entry result }
{
    match lexeme {
        Lexeme::Keyword(Keyword::Or) => Some(Junction::Or),
        Lexeme::Keyword(Keyword::Xor) => Some(Junction::Xor),
        _ => None,
    }
}
