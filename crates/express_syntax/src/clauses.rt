//! The optional clauses of declarations as lists, the names of attributes, and the integers of
//! bounds.

ghost use Rattle.std.specs.Prelude.{◌≡◌, ℤ, [], map, FitsSigned, MatchOption};
ghost use Rattle.std.specs.Int.{w64};
ghost use Rattle.express_syntax.specs.Clauses.{name_of, is_minus, IsInteger};
ghost use Rattle.express_syntax.specs.Views.{bound_of, attribute_of, attributes_of};

use crate::expression::Sign;
use crate::tree::{
    Attribute, AttributeList, Bound, Derived, Entity, Inverse, Rule, TypeDeclaration, Unique,
};
use std::slice;
use step_literals::literal::Word;

impl<'a> TypeDeclaration<'a> {
    /// Returns the domain rules of a defined type; empty if WHERE is absent (ISO 10303-11, 9.1).
    pub fn domain_rules(&self) -> &[Rule<'a>]
        ensures { MatchOption self.now.rules (result.now ≡ []) (λ rules. result.now ≡ rules.items) }
    {
        match &self.rules {
            Some(rules) => rules,
            None => &[],
        }
    }
}

impl<'a> Entity<'a> {
    /// Returns the direct supertypes of an entity; empty if SUBTYPE OF is absent (ISO 10303-11,
    /// 9.2.3).
    pub fn supertypes(&self) -> &[Word<'a>]
        ensures { MatchOption self.now.subtype_of (result.now ≡ [])
            (λ names. result.now ≡ names.items) }
    {
        match &self.subtype_of {
            Some(names) => names,
            None => &[],
        }
    }

    /// Returns the derived attributes of an entity; empty if DERIVE is absent (ISO 10303-11,
    /// 9.2.1.2).
    pub fn derived_attributes(&self) -> &[Derived<'a>]
        ensures { MatchOption self.now.derived (result.now ≡ [])
            (λ derived. result.now ≡ derived.items) }
    {
        match &self.derived {
            Some(derived) => derived,
            None => &[],
        }
    }

    /// Returns the inverse attributes of an entity; empty if INVERSE is absent (ISO 10303-11,
    /// 9.2.1.3).
    pub fn inverse_attributes(&self) -> &[Inverse<'a>]
        ensures { MatchOption self.now.inverses (result.now ≡ [])
            (λ inverses. result.now ≡ inverses.items) }
    {
        match &self.inverses {
            Some(inverses) => inverses,
            None => &[],
        }
    }

    /// Returns the uniqueness rules of an entity; empty if UNIQUE is absent (ISO 10303-11,
    /// 9.2.2.1).
    pub fn uniqueness_rules(&self) -> &[Unique<'a>]
        ensures { MatchOption self.now.uniques (result.now ≡ [])
            (λ uniques. result.now ≡ uniques.items) }
    {
        match &self.uniques {
            Some(uniques) => uniques,
            None => &[],
        }
    }

    /// Returns the domain rules of an entity; empty if WHERE is absent (ISO 10303-11, 9.2.2.2).
    pub fn domain_rules(&self) -> &[Rule<'a>]
        ensures { MatchOption self.now.rules (result.now ≡ []) (λ rules. result.now ≡ rules.items) }
    {
        match &self.rules {
            Some(list) => list,
            None => &[],
        }
    }
}

impl<'a> Attribute<'a> {
    /// Returns the attribute's own name; for a redeclared attribute the name after the entity.
    pub fn name(&self) -> Word<'a>
        ensures { result ≡ name_of self.now }
    {
        match *self {
            Attribute::Unqualified(name) => name,
            Attribute::Redeclared(_, name) => name,
        }
    }
}

impl<'a> AttributeList<'a> {
    /// Returns the list of these attributes.
    pub fn of(attributes: Vec<Attribute<'a>>) -> AttributeList<'a>
        ensures { attributes_of result ≡ map attribute_of attributes.entry.items }
    {
        match attributes.as_slice() {
            [attribute] => AttributeList::One(*attribute),
            _ => AttributeList::Several(attributes),
        }
    }

    /// Returns the attributes of the list.
    pub fn as_slice(&self) -> &[Attribute<'a>]
        ensures { map attribute_of result.now ≡ attributes_of self.now }
    {
        match self {
            AttributeList::One(attribute) => slice::from_ref(attribute),
            AttributeList::Several(attributes) => attributes,
        }
    }
}

/// Whether there is a sign and it is `-`.
fn is_minus(sign: Option<Sign>) -> bool
    ensures { result ≡ is_minus sign }
{
    matches!(sign, Some(Sign::Minus))
}

impl<'a> Bound<'a> {
    /// Returns the integer of the bound, with its sign (ISO 10303-11, 8.2).
    ///
    /// `None` if the integer is beyond the range of `i64`, for `?`, and for tokens that are no
    /// integer.
    pub fn value(&self) -> Option<i64>
        ensures { MatchOption result
            ((n : ℤ) → FitsSigned w64 n → IsInteger (bound_of self.now) n → ⊥)
            (λ n. IsInteger (bound_of self.now) n) }
    {
        match *self {
            Bound::Value(sign, digits) => digits.whole_turned(is_minus(sign)),
            _ => None,
        }
    }
}
