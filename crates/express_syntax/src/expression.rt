//! Expressions as trees (ISO 10303-11, 12).

use express_lexer::literal::{Binary, EncodedString, SimpleString};
use step_literals::literal::{Decimal, Word};

/// The greatest number of parentheses, brackets and braces that are open at once.
pub const LEVELS: u32 = 64;

/// An integer or a real without a sign (ISO 10303-11, 7.5).
#[derive(Clone, Copy)]
pub enum Number<'a> {
    Integer(Decimal<'a>),
    Real(Decimal<'a>),
}

/// The sign before an operand (ISO 10303-11, 12.2).
#[derive(Clone, Copy, Debug, PartialEq, Eq)]
pub enum Sign {
    Plus,
    Minus,
}

/// The constants of LOGICAL (ISO 10303-11, 14).
#[derive(Clone, Copy, Debug, PartialEq, Eq)]
pub enum Logical {
    False,
    Unknown,
    True,
}

/// A literal or a constant of the language (ISO 10303-11, 7.5 and 14).
#[derive(Clone, Copy)]
pub enum Literal<'a> {
    Number(Number<'a>),
    String(SimpleString<'a>),
    Encoded(EncodedString<'a>),
    Binary(Binary<'a>),
    Logical(Logical),
    /// `?`
    Indeterminate,
}

/// How two values are compared (ISO 10303-11, 12.2).
#[derive(Clone, Copy, Debug, PartialEq, Eq)]
pub enum Relation {
    Equal,
    NotEqual,
    Less,
    Greater,
    LessOrEqual,
    GreaterOrEqual,
    In,
}

/// How a value is compared with an end of an interval (ISO 10303-11, 12.2.4).
#[derive(Clone, Copy, Debug, PartialEq, Eq)]
pub enum Limit {
    Less,
    LessOrEqual,
}

/// OR or XOR (ISO 10303-11, 12.4).
#[derive(Clone, Copy, Debug, PartialEq, Eq)]
pub enum Junction {
    Or,
    Xor,
}

/// A function of the language with one argument (ISO 10303-11, 15).
#[derive(Clone, Copy, Debug, PartialEq, Eq)]
pub enum Function {
    Exists,
    Sizeof,
    Hiindex,
    Loindex,
    Typeof,
}

/// The first part of a reference.
#[derive(Clone, Copy)]
pub enum Root<'a> {
    /// SELF
    SelfInstance,
    Name(Word<'a>),
}

/// A qualifier of a reference (ISO 10303-11, 12.7).
#[derive(Drop)]
#[cycle(expression)]
pub enum Qualifier<'a> {
    /// `.` and an attribute
    Attribute(Word<'a>),
    /// `\`, an entity, `.` and an attribute
    Group(Word<'a>, Word<'a>),
    /// `[`, the index of an element, and `]`
    Index(Box<Expr<'a>>),
}

/// OR or XOR, and the term after it.
#[derive(Drop)]
#[cycle(expression)]
pub struct Alternative<'a> {
    pub junction: Junction,
    pub term: Expr<'a>,
}

/// An expression.
#[derive(Drop)]
#[cycle(expression)]
pub enum Expr<'a> {
    Literal(Literal<'a>),
    /// A sign and a number.
    Signed(Sign, Number<'a>),
    Reference(Root<'a>, Vec<Qualifier<'a>>),
    /// An expression in parentheses.
    Parenthesized(Box<Expr<'a>>),
    /// `[ .. ]`
    Aggregate(Vec<Expr<'a>>),
    /// `{ low < item <= high }`
    Interval {
        low: Box<Expr<'a>>,
        above: Limit,
        item: Box<Expr<'a>>,
        below: Limit,
        high: Box<Expr<'a>>,
    },
    /// `QUERY (variable <* source | condition)`
    Query {
        variable: Word<'a>,
        source: Box<Expr<'a>>,
        condition: Box<Expr<'a>>,
    },
    Call(Function, Box<Expr<'a>>),
    /// NVL of two arguments.
    Nvl(Box<Expr<'a>>, Box<Expr<'a>>),
    Not(Box<Expr<'a>>),
    /// AND between the first expression and the others, of which there is at least one.
    Conjunction(Box<Expr<'a>>, Vec<Expr<'a>>),
    /// OR and XOR, from left to right: the first term and at least one more.
    Disjunction(Box<Expr<'a>>, Vec<Alternative<'a>>),
    Comparison(Box<Expr<'a>>, Relation, Box<Expr<'a>>),
}
