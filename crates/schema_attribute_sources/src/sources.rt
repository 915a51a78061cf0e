//! The sources of attribute values, by the types of an instance.

ghost use Rattle.std.specs.Prelude.{◌≡◌, List, Some, IfOk, IfSome};
ghost use Rattle.std.specs.Option.{option_map};
ghost use Rattle.express_syntax.specs.ExpressionViews.{capitals};
ghost use Rattle.schema_types.specs.TypeTables.{IsMade};
ghost use Rattle.schema_names.specs.Schemas.{the_schema};
ghost use Rattle.schema_underlying_types.specs.BaseViews.{name_at};
ghost use Rattle.conformance.specs.Rules.{InverseAttribute as InverseTree};
ghost use Rattle.conformance.specs.Attributes.{Attributes, AreAttributes, IsDeclaring};
ghost use Rattle.schema_attribute_sources.specs.AskedSources.{
  IsTypeNumber,
  IsAskedSource,
  IsSourceByName,
  IsSourceByGroup,
  IsKnownSource,
};
ghost use Rattle.schema_attribute_sources.specs.SourceViews.{
  types_seen,
  AreTypes,
  inverses_seen,
  source_seen,
  IsNumberedSource,
};
ghost use Rattle.schema_attribute_sources.specs.Tables.{AreSources, AreResolvedSources, IsLowestFound};

use crate::declaring_entity::{Declarer, declaring};
use crate::derivations::{Asked, first_giving};
use crate::group_references::group_member;
use crate::lowest_type::{is_below_all, lowest};
use crate::source::{Derivation, Source};
use crate::stored_attributes::stored_source;
use schema_constraints::attribute_order::{ordered_inverses, ordered_places};
use schema_constraints::inverses::InverseAttribute;
use schema_explicit_attributes::supertype_lines::lines;
use schema_names::declaration_graphs::supertype_graph;
use schema_types::types::ResolvedTypes;
use std::alloc::{AllocError, Global};
use step_literals::literal::Word;

/// The tables of a schema from which the sources of attribute values are found.
#[derive(Drop)]
pub struct AttributeSources {
    /// By declaration, the supertype chain of an entity: itself, then the chains of its supertypes
    /// in turn.
    pub lines: Vec<Vec<u32>>,
    /// The numbers of the explicit attributes, sorted by the names of their entities, then by their
    /// own.
    pub places: Vec<u32>,
    /// The numbers of the inverse attributes, sorted by the numbers of their entities, then by
    /// their names.
    pub inverses: Vec<u32>,
}

/// Returns the source of a value that one of the types derives: `lowest`, if it is below all other
/// types that derive the value (ISO 10303-11, 9.2.3.4).
fn derived_source(
    schema: &ResolvedTypes<'_, '_>,
    sources: &AttributeSources,
    asked: Asked<'_>,
    lowest: u32,
    types: &[u32],
) -> Source
    requires made { IsMade schema.now }
    requires sources { AreSources (the_schema schema.now.names) sources.now }
    requires types { AreTypes (the_schema schema.now.names) types.now }
    requires asked { IsTypeNumber (the_schema schema.now.names) asked.entity }
    requires lowest { IsLowestFound schema.now sources.now (capitals asked.name) asked.entity
        types.now (Some lowest) }
    ensures source { (all : List InverseTree)
        → IsAskedSource (the_schema schema.now.names) all types.now asked.entry result }
    ensures numbered { (all : List InverseTree)
        → IsNumberedSource (the_schema schema.now.names) all result }
{
    if !is_below_all(schema, &sources.lines, asked, lowest, types) {
        return Source::Unclear;
    }
    match first_giving(&schema.names, &sources.lines, lowest, asked) {
        Some(number) => Source::Derived(Derivation {
            entity: lowest,
            number,
        }),
        None => Source::Unclear,
    }
}

/// Returns the source of the value of `asked` in instances of the types, one of which declares it.
fn source_of(
    schema: &ResolvedTypes<'_, '_>,
    sources: &AttributeSources,
    inverses: &[InverseAttribute<'_>],
    asked: Asked<'_>,
    types: &[u32],
) -> Source
    requires known { AreResolvedSources schema.now sources.now inverses.now }
    requires types { AreTypes (the_schema schema.now.names) types.now }
    requires asked { IsTypeNumber (the_schema schema.now.names) asked.entity }
    requires declaring { let s = the_schema schema.now.names in
        IsDeclaring s (types_seen s types.now) (capitals asked.name) (name_at s asked.entity) }
    ensures source { let s = the_schema schema.now.names in
        IsAskedSource s (inverses_seen s inverses.now) types.now asked.entry result }
    ensures numbered { IsKnownSource schema.now inverses.now result }
{
    match lowest(schema, &sources.lines, asked, types) {
        Some(lowest) => derived_source(schema, sources, asked, lowest, types),
        None => stored_source(schema, sources, inverses, asked),
    }
}

impl AttributeSources {
    /// Returns the tables of a schema whose names are resolved, and of its inverse attributes.
    ///
    /// Takes time proportional to the count of numbers that entities inherit from the chains of
    /// their supertypes, plus the time to sort the attributes.
    pub fn of(
        alloc: Global,
        schema: &ResolvedTypes<'_, '_>,
        inverses: &[InverseAttribute<'_>],
    ) -> Result<AttributeSources, AllocError>
        requires { IsMade schema.now }
        ensures { IfOk result (AreSources (the_schema schema.now.names)) }
    {
        let supertypes = supertype_graph(alloc, &schema.names)?;
        let lines = lines(alloc, &schema.names, &supertypes)?;
        let places = ordered_places(alloc, &schema.places.attributes)?;
        let inverses = ordered_inverses(alloc, inverses)?;
        Ok(AttributeSources {
            lines,
            places,
            inverses,
        })
    }
}

/// Returns the source of the value of the attribute `name` in instances of the types, or `None` if
/// no type declares one. The source is `Unclear` if two types declare one (ISO 10303-11, 12.7.3).
///
/// Takes time proportional to the count of attributes of the types, plus the lengths of the
/// supertype chains of the entities in redeclarations of this name as derived.
pub fn attribute_source(
    schema: &ResolvedTypes<'_, '_>,
    sources: &AttributeSources,
    inverses: &[InverseAttribute<'_>],
    types: &[u32],
    name: Word<'_>,
) -> Option<Source>
    requires known { AreResolvedSources schema.now sources.now inverses.now }
    requires types { AreTypes (the_schema schema.now.names) types.now }
    ensures named { IsSourceByName schema.now inverses.now types.now
        (capitals name.entry) result }

    // The source doesn't depend on how the schema's meaning is represented.
    ensures value { let s = the_schema schema.now.names in
        let all = inverses_seen s inverses.now in
        (m : Attributes) → AreAttributes s all m → option_map (source_seen s all) result
        ≡ m.source (types_seen s types.now) (capitals name.entry) }
    ensures numbered { IfSome result (IsKnownSource schema.now inverses.now) }
{
    match declaring(&schema.names, types, name) {
        Declarer::Nobody => None,
        Declarer::One(entity) => {
            let asked = Asked { entity, name };
            Some(source_of(schema, sources, inverses, asked, types))
        }
        Declarer::Several => Some(Source::Unclear),
    }
}

/// Returns the source of the value of the attribute to which `\entity.name` refers in instances of
/// the types: the entity's own, otherwise the only one that it inherits. The source is `Unclear` if
/// there is no such attribute, or if the instances aren't of `entity` (ISO 10303-11, 12.7.4).
///
/// Takes the time of `attribute_source`, plus time proportional to the count of attributes of the
/// entity's supertypes.
pub fn group_source(
    schema: &ResolvedTypes<'_, '_>,
    sources: &AttributeSources,
    inverses: &[InverseAttribute<'_>],
    types: &[u32],
    entity: Word<'_>,
    name: Word<'_>,
) -> Source
    requires known { AreResolvedSources schema.now sources.now inverses.now }
    requires types { AreTypes (the_schema schema.now.names) types.now }
    ensures group { IsSourceByGroup schema.now inverses.now types.now
        (capitals entity.entry) (capitals name.entry) result }

    // The source doesn't depend on how the schema's meaning is represented.
    ensures value { let s = the_schema schema.now.names in
        let all = inverses_seen s inverses.now in
        (m : Attributes) → AreAttributes s all m → source_seen s all result
        ≡ m.source_of (types_seen s types.now) (capitals entity.entry) (capitals name.entry) }
    ensures numbered { IsKnownSource schema.now inverses.now result }
{
    match group_member(schema, types, entity, name) {
        Some(entity) => {
            let asked = Asked { entity, name };
            source_of(schema, sources, inverses, asked, types)
        }
        None => Source::Unclear,
    }
}
