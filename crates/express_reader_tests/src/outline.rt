//! Outlines of expressions: operators before what they join, names and literals as they are spelled.

use express_reader::expression::{
    Alternative, Expr, Function, Junction, Limit, Literal, Logical, Number, Qualifier, Relation,
    Root, Sign,
};

// Returns the rest of a text after a prefix; `None` if it doesn't begin so, or for `None`.
fn behind<'w>(text: Option<&'w [u8]>, front: &[u8]) -> Option<&'w [u8]> {
    match text {
        Some(text) => text.strip_prefix(front),
        None => None,
    }
}

fn number_text<'a>(number: &Number<'a>) -> &'a [u8] {
    match number {
        Number::Integer(digits) => digits.spelling(),
        Number::Real(digits) => digits.spelling(),
    }
}

fn literal_text<'a>(literal: &Literal<'a>) -> &'a [u8] {
    match literal {
        Literal::Number(number) => number_text(number),
        Literal::String(text) => text.spelling(),
        Literal::Encoded(text) => text.spelling(),
        Literal::Binary(bits) => bits.spelling(),
        Literal::Logical(Logical::False) => b"FALSE",
        Literal::Logical(Logical::Unknown) => b"UNKNOWN",
        Literal::Logical(Logical::True) => b"TRUE",
        Literal::Indeterminate => b"?",
    }
}

fn relation_text(relation: Relation) -> &'static [u8] {
    match relation {
        Relation::Equal => b"=(",
        Relation::NotEqual => b"<>(",
        Relation::Less => b"<(",
        Relation::Greater => b">(",
        Relation::LessOrEqual => b"<=(",
        Relation::GreaterOrEqual => b">=(",
        Relation::In => b"IN(",
    }
}

fn limit_text(limit: Limit) -> &'static [u8] {
    match limit {
        Limit::Less => b" < ",
        Limit::LessOrEqual => b" <= ",
    }
}

fn function_text(function: Function) -> &'static [u8] {
    match function {
        Function::Exists => b"EXISTS(",
        Function::Sizeof => b"SIZEOF(",
        Function::Hiindex => b"HIINDEX(",
        Function::Loindex => b"LOINDEX(",
        Function::Typeof => b"TYPEOF(",
    }
}

fn sign_text(sign: Sign) -> &'static [u8] {
    match sign {
        Sign::Plus => b"+",
        Sign::Minus => b"-",
    }
}

fn junction_text(junction: Junction) -> &'static [u8] {
    match junction {
        Junction::Or => b"OR(",
        Junction::Xor => b"XOR(",
    }
}

fn root_text<'a>(root: &Root<'a>) -> &'a [u8] {
    match root {
        Root::SelfInstance => b"SELF",
        Root::Name(name) => name.spelling(),
    }
}

/// Returns the rest of a text after the outline of an expression; `None` if it doesn't begin so.
#[cycle(outline)]
pub(crate) fn outline<'w>(text: Option<&'w [u8]>, expression: &Expr<'_>) -> Option<&'w [u8]> {
    match expression {
        Expr::Literal(literal) => behind(text, literal_text(literal)),
        Expr::Signed(sign, number) => behind(behind(text, sign_text(*sign)), number_text(number)),
        Expr::Reference(root, qualifiers) => selected(behind(text, root_text(root)), qualifiers),
        Expr::Parenthesized(inner) => around(text, b"(", inner, b")"),
        Expr::Aggregate(items) => behind(each(behind(text, b"["), items), b"]"),
        Expr::Interval {
            low,
            above,
            item,
            below,
            high,
        } => {
            let text = around(text, b"{", low, limit_text(*above));
            let text = around(text, b"", item, limit_text(*below));
            around(text, b"", high, b"}")
        }
        Expr::Query {
            variable,
            source,
            condition,
        } => {
            let text = behind(behind(text, b"QUERY("), variable.spelling());
            let text = around(text, b" ", source, b" ");
            around(text, b"", condition, b")")
        }
        Expr::Call(function, argument) => around(text, function_text(*function), argument, b")"),
        Expr::Nvl(first, second) => around(around(text, b"NVL(", first, b" "), b"", second, b")"),
        Expr::Not(inner) => around(text, b"NOT(", inner, b")"),
        Expr::Conjunction(first, others) => more(around(text, b"AND(", first, b" "), others),
        Expr::Disjunction(first, others) => {
            alternatives(outline(openings(text, others), first), others)
        }
        Expr::Comparison(left, relation, right) => {
            let text = around(text, relation_text(*relation), left, b" ");
            around(text, b"", right, b")")
        }
    }
}

/// Returns the rest after an expression between two texts.
#[cycle(outline)]
fn around<'w>(
    text: Option<&'w [u8]>,
    before: &[u8],
    expression: &Expr<'_>,
    after: &[u8],
) -> Option<&'w [u8]> {
    behind(outline(behind(text, before), expression), after)
}

/// Returns the rest after some expressions and a closing bracket.
#[cycle(outline)]
fn more<'w>(text: Option<&'w [u8]>, expressions: &[Expr<'_>]) -> Option<&'w [u8]> {
    behind(each(text, expressions), b")")
}

/// Returns the rest after some expressions with spaces between.
#[cycle(outline)]
fn each<'w>(text: Option<&'w [u8]>, expressions: &[Expr<'_>]) -> Option<&'w [u8]> {
    let mut text = text;
    for i in 0..expressions.len() {
        if i > 0 {
            text = behind(text, b" ");
        }
        text = outline(text, &expressions[i]);
    }
    text
}

/// Returns the rest after the qualifiers of a reference.
#[cycle(outline)]
fn selected<'w>(text: Option<&'w [u8]>, qualifiers: &[Qualifier<'_>]) -> Option<&'w [u8]> {
    let mut text = text;
    for qualifier in qualifiers {
        text = select(text, qualifier);
    }
    text
}

#[cycle(outline)]
fn select<'w>(text: Option<&'w [u8]>, qualifier: &Qualifier<'_>) -> Option<&'w [u8]> {
    match qualifier {
        Qualifier::Attribute(name) => behind(behind(text, b"."), name.spelling()),
        Qualifier::Group(entity, name) => {
            let text = behind(behind(text, b"\\"), entity.spelling());
            behind(behind(text, b"."), name.spelling())
        }
        Qualifier::Index(index) => around(text, b"[", index, b"]"),
    }
}

/// Returns the rest after the operators of a disjunction, the last operator first.
fn openings<'w>(text: Option<&'w [u8]>, alternatives: &[Alternative<'_>]) -> Option<&'w [u8]> {
    let mut text = text;
    for i in 0..alternatives.len() {
        let opening = junction_text(alternatives[alternatives.len() - 1 - i].junction);
        text = behind(text, opening);
    }
    text
}

/// Returns the rest after the terms that follow the first one of a disjunction.
#[cycle(outline)]
fn alternatives<'w>(text: Option<&'w [u8]>, alternatives: &[Alternative<'_>]) -> Option<&'w [u8]> {
    let mut text = text;
    for alternative in alternatives {
        text = around(text, b" ", &alternative.term, b")");
    }
    text
}
