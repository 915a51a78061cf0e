//! The first lexeme of a primary.

ghost use Rattle.std.specs.Prelude.{◌≡◌};
ghost use Rattle.express_syntax.specs.Words.{word_of};
ghost use Rattle.express_expressions.specs.steps.Pieces.{
  begins,
  beginning_of,
  beginning_of_keyword,
  beginning_of_mark,
};

use express_lexer::marks::Mark;
use express_syntax::expression::{Function, Literal, Logical, Number, Root};
use express_syntax::keyword::Keyword;
use express_syntax::lexeme::Lexeme;

/// The level of the expression inside brackets.
#[derive(Clone, Copy)]
pub(crate) enum Inner {
    Simple,
    Expression,
}

/// The first lexeme of a primary.
#[derive(Clone, Copy)]
pub(crate) enum Start<'a> {
    Literal(Literal<'a>),
    Parenthesis,
    Bracket,
    Brace,
    Query,
    Call(Function),
    Nvl,
    Reference(Root<'a>),
}

fn start_of_keyword<'a>(keyword: Keyword) -> Option<Start<'a>>
    ensures { begins result ≡ beginning_of_keyword keyword }
{
    match keyword {
        Keyword::False => Some(Start::Literal(Literal::Logical(Logical::False))),
        Keyword::Unknown => Some(Start::Literal(Literal::Logical(Logical::Unknown))),
        Keyword::True => Some(Start::Literal(Literal::Logical(Logical::True))),
        Keyword::Query => Some(Start::Query),
        Keyword::Exists => Some(Start::Call(Function::Exists)),
        Keyword::Sizeof => Some(Start::Call(Function::Sizeof)),
        Keyword::Hiindex => Some(Start::Call(Function::Hiindex)),
        Keyword::Loindex => Some(Start::Call(Function::Loindex)),
        Keyword::Typeof => Some(Start::Call(Function::Typeof)),
        Keyword::Nvl => Some(Start::Nvl),
        Keyword::SelfWord => Some(Start::Reference(Root::SelfInstance)),
        _ => None,
    }
}

fn start_of_mark<'a>(mark: Mark) -> Option<Start<'a>>
    ensures { begins result ≡ beginning_of_mark mark }
{
    match mark {
        Mark::Unknown => Some(Start::Literal(Literal::Indeterminate)),
        Mark::Open => Some(Start::Parenthesis),
        Mark::OpenBracket => Some(Start::Bracket),
        Mark::OpenBrace => Some(Start::Brace),
        _ => None,
    }
}

/// Returns the start of a primary that begins with this lexeme, if any does.
pub(crate) fn start_of<'a>(lexeme: Lexeme<'a>) -> Option<Start<'a>>
    ensures { begins result ≡ beginning_of (word_of lexeme.entry) }
{
    match lexeme {
        Lexeme::Keyword(keyword) => start_of_keyword(keyword),
        Lexeme::Name(word) => Some(Start::Reference(Root::Name(word))),
        Lexeme::Integer(number) => Some(Start::Literal(Literal::Number(Number::Integer(number)))),
        Lexeme::Real(number) => Some(Start::Literal(Literal::Number(Number::Real(number)))),
        Lexeme::String(text) => Some(Start::Literal(Literal::String(text))),
        Lexeme::Encoded(text) => Some(Start::Literal(Literal::Encoded(text))),
        Lexeme::Binary(bits) => Some(Start::Literal(Literal::Binary(bits))),
        Lexeme::Mark(mark) => start_of_mark(mark),
    }
}
