//! A checked domain rule.

use express_syntax::expression::Expr;
use schema_constraints::label::RuleLabel;

/// The declaration that states a domain rule, by its number.
#[derive(Clone, Copy)]
pub enum RuleHolder {
    /// An entity (ISO 10303-11, 9.2.2.2).
    Entity(u32),
    /// A defined type (ISO 10303-11, 9.1).
    Type(u32),
}

/// A checked domain rule: its condition holds for each instance of the entity that states it, or
/// for each value of the defined type.
#[derive(Clone, Copy)]
pub struct DomainRule<'a, 't> {
    pub holder: RuleHolder,
    pub label: RuleLabel<'a>,
    pub condition: &'t Expr<'a>,
}
