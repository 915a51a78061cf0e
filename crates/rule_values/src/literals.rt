//! Literals (ISO 10303-11, 7.5).

ghost use Rattle.std.specs.Prelude.{◌≡◌};
ghost use Rattle.std.specs.Option.{option_map};
ghost use Rattle.express_syntax.specs.ExpressionViews.{literal_of, number_of, tree_of};
ghost use Rattle.express_logic.specs.Views.{datum_of, text_of};
ghost use Rattle.conformance.specs.Expressions.{of_literal, of_signed, string_of};
ghost use Rattle.rule_values.specs.Parts.{holding};

use crate::part::Part;
use express_logic::datum::Datum;
use express_logic::strings::AnyString;
use express_syntax::expression::{Expr, Literal, Number, Sign};
use step_literals::literal::Decimal;

/// Returns the decimal that `number` is written as.
fn decimal<'a>(number: Number<'a>) -> Decimal<'a>
    ensures { result.text.now ≡ Rattle.conformance.specs.Expressions.spelling
        (number_of number.entry) }
{
    match number {
        Number::Integer(decimal) => decimal,
        Number::Real(decimal) => decimal,
    }
}

/// Returns the datum of `literal`.
pub fn literal_datum<'p, 'r>(literal: Literal<'r>) -> Datum<'r, Part<'p, 'r>>
    ensures { datum_of holding result ≡ of_literal (literal_of literal.entry) }
{
    match literal {
        Literal::Number(number) => Datum::Number(decimal(number)),
        Literal::String(string) => Datum::Items(string),
        Literal::Encoded(string) => Datum::Encoded(string),
        Literal::Binary(binary) => Datum::Flags(binary),
        Literal::Logical(p) => Datum::Logical(p),
        Literal::Indeterminate => Datum::Indeterminate,
    }
}

/// Returns the datum of `number` after `sign`.
pub fn signed_datum<'p, 'r>(sign: Sign, number: Number<'r>) -> Datum<'r, Part<'p, 'r>>
    ensures { datum_of holding result ≡ of_signed sign (number_of number.entry) }
{
    match sign {
        Sign::Plus => Datum::Number(decimal(number)),
        Sign::Minus => Datum::Minus(decimal(number)),
    }
}

/// Returns the string if `expression` is a string literal, in parentheses or not.
pub fn string_of<'r>(expression: &Expr<'r>) -> Option<AnyString<'r>>
    ensures { option_map text_of result ≡ string_of (tree_of expression.now) }
{
    match expression {
        Expr::Literal(Literal::String(string)) => Some(AnyString::Simple(*string)),
        Expr::Literal(Literal::Encoded(string)) => Some(AnyString::Encoded(*string)),
        Expr::Parenthesized(inner) => string_of(inner),
        _ => None,
    }
}
