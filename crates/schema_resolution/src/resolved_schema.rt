//! The resolution of a schema.

ghost use Rattle.std.specs.Prelude.{◌≡◌, ◌<◌, Some, length, slice_get};
ghost use Rattle.express_syntax.specs.ExpressionViews.{capitals};
ghost use Rattle.schema_semantics.specs.Parts.{AreUnchecked};
ghost use Rattle.schema_names.specs.Numbers.{number_of};
ghost use Rattle.schema_names.specs.Schemas.{the_schema};
ghost use Rattle.schema_explicit_attributes.specs.Places.{all_places};
ghost use Rattle.schema_unchecked_declarations.specs.UncheckedLists.{unchecked_in};
ghost use Rattle.schema_derived_attributes.specs.AttributeRanks.{IsRankOf};
ghost use Rattle.schema_types.specs.steps.Graphs.{AreSupers, IsKind, ArePlacesOf, place_of};
ghost use Rattle.schema_resolution.specs.SchemaFindings.{IsJudged, AreDomainTables};
ghost use Rattle.schema_constraints.specs.RuleTables.{AreRuleTables};

use crate::findings::{DomainTables, Judged};
use schema_constraints::tables::RuleTables;
use schema_derived_attributes::rank_lookup::rank_at;
use schema_explicit_attributes::attributes::Place;
use schema_types::types::ResolvedTypes;
use schema_unchecked_declarations::list::Unchecked;
use step_literals::literal::Word;

/// A schema whose names are resolved, with its tables.
///
/// The number of a type or an entity is the position of its declaration in the text, counted from
/// 0. The number of an explicit attribute is its position among the explicit attributes of the
/// text.
#[derive(Drop)]
pub struct ResolvedSchema<'a, 't> {
    /// The types, and the explicit attributes of instances.
    pub types: ResolvedTypes<'a, 't>,
    /// The findings for the rules and derived attributes.
    pub judged: Judged,
    /// The evaluated parts: the formulas of derived attributes, and the checked domain rules
    /// (ISO 10303-11, 9.2.1.2, 9.1 and 9.2.2.2).
    pub domain: DomainTables<'a, 't>,
    /// The rules that apply to a whole population: uniqueness rules and inverse attributes
    /// (ISO 10303-11, 9.2.2.1 and 9.2.1.3).
    pub rules: RuleTables<'a>,
    pub ghost judged_is: { ∥ IsJudged (the_schema types.names) judged ∥₁ },
    pub ghost domain_is: { ∥ AreDomainTables (the_schema types.names) domain ∥₁ },
    pub ghost rules_are: { ∥ AreRuleTables (the_schema types.names) rules ∥₁ },
}

impl<'a, 't> ResolvedSchema<'a, 't> {
    /// Returns the number of the type or entity of this name, if any.
    pub fn find(&self, name: Word<'_>) -> Option<u32>
        ensures { result ≡ number_of (the_schema self.now.types.names) (capitals name.entry) }
    {
        self.types.find(name)
    }

    /// Returns the proper supertypes of `entity`, each once (ISO 10303-11, 9.2.3.3).
    pub fn supers(&self, entity: u32) -> &[u32]
        requires { entity < length self.now.types.names.schema.now.declarations.items }
        ensures { ∥ AreSupers (the_schema self.now.types.names) entity result.now ∥₁ }
    {
        self.types.supers(entity)
    }

    /// Whether `entity` is `other` or one of its subtypes (ISO 10303-11, 9.2.3.3).
    pub fn is_kind_of(&self, entity: u32, other: u32) -> bool
        requires { entity < length self.now.types.names.schema.now.declarations.items }
        ensures { ∥ IsKind (the_schema self.now.types.names) entity other result ∥₁ }
    {
        self.types.is_kind_of(entity, other)
    }

    /// Returns the numbers of the explicit attributes of an entity's instances, in order: those of
    /// its supertypes in turn, then its own, each once (ISO 10303-11, 9.2.3.3).
    pub fn places(&self, entity: u32) -> &[u32]
        requires { entity < length self.now.types.names.schema.now.declarations.items }
        ensures { ∥ ArePlacesOf (the_schema self.now.types.names) entity result.now ∥₁ }
    {
        self.types.places(entity)
    }

    /// Returns the explicit attribute with this number, and the entity that declares it.
    pub fn place(&self, number: u32) -> Place<'a, 't>
        requires { number < length (all_places (the_schema self.now.types.names)) }
        ensures { slice_get (all_places (the_schema self.now.types.names)) number
            ≡ Some (place_of result) }
    {
        self.types.place(number)
    }

    /// Returns the rank of the derived attribute of this name that `entity` itself declares or
    /// redeclares: one more than the greatest rank of those that it may use, or 0 if it uses none
    /// (ISO 10303-11, 9.2.1.2). `None` if there is no such attribute, or if it isn't checked.
    pub fn rank(&self, entity: u32, attribute: Word<'_>) -> Option<u32>
        requires { entity < length self.now.types.names.schema.now.declarations.items }
        ensures { ∥ IsRankOf (the_schema self.now.types.names) entity
            (capitals attribute.entry) result ∥₁ }
    {
        let judged = &self.judged;
        rank_at(
            &self.types.names,
            &self.domain.formulas.firsts,
            &judged.ranks,
            entity,
            attribute,
        )
    }

    /// Returns the unchecked parts of the schema, in the order of the text, each with the first
    /// reason that applies.
    pub fn unchecked(&self) -> &[Unchecked]
        ensures { ∥ AreUnchecked (the_schema self.now.types.names) (unchecked_in result.now) ∥₁ }
    {
        &self.judged.unchecked
    }

    /// Returns the unchecked parts of the schema, in the order of the text, each with the first
    /// reason that applies, and drops the rest.
    pub fn into_unchecked(self) -> Vec<Unchecked>
        ensures { ∥ AreUnchecked (the_schema self.entry.types.names)
            (unchecked_in result.items) ∥₁ }
    {
        let judged = self.judged;
        judged.unchecked
    }
}
