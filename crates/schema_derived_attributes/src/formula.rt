//! The formulas of derived attributes.

use express_syntax::expression::Expr;

/// The formula of a derived attribute (ISO 10303-11, 9.2.1.2): its expression, and a rank above
/// those of all derived attributes that the expression may use.
#[derive(Clone, Copy)]
pub struct Formula<'a, 't> {
    pub rank: u32,
    pub expression: &'t Expr<'a>,
}

/// The formulas of the derived attributes of a schema.
#[derive(Drop)]
pub struct Formulas<'a, 't> {
    /// The formulas by number of derived attribute; `None` for one that is set aside.
    pub rows: Vec<Option<Formula<'a, 't>>>,
    /// By declaration, the count of derived attributes in the declarations before it.
    pub firsts: Vec<u32>,
}
