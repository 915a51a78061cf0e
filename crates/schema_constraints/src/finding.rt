//! Findings: violations of the rules of a schema that apply to a whole population.

use schema_unchecked_declarations::list::Label;

/// The kind of a violation (ISO 10303-11, 9.1, 9.2.1.3 and 9.2.2).
#[derive(Clone, Copy, Debug, PartialEq, Eq)]
pub enum RuleFindingKind {
    /// A domain rule is FALSE.
    WhereFalse,
    /// An earlier instance has the same key in a uniqueness rule.
    UniqueBroken,
    /// An inverse attribute has more instances than its upper bound, or fewer than its lower bound.
    InverseBound,
}

/// An instance that breaks a rule.
#[derive(Clone, Copy)]
pub struct RuleFinding<'s> {
    pub kind: RuleFindingKind,
    /// The name of the instance.
    pub instance: u64,
    /// The name of the rule: the entity or type that states it and its label, or its number in its
    /// clause if it has no label.
    pub rule: Label<'s>,
}
