//! The tables that are made of a schema: the ranks of its derived attributes, its unchecked parts,
//! its evaluated parts, and its rules that apply to a whole population.

ghost use Rattle.std.specs.Prelude.{◌≡◌, IfOk, length};
ghost use Rattle.graphs.specs.Graphs.{graph_of};
ghost use Rattle.schema_semantics.specs.Faults.{IsResolved};
ghost use Rattle.schema_names.specs.Schemas.{the_schema};
ghost use Rattle.schema_explicit_attributes.specs.Supertypes.{AreAbove};
ghost use Rattle.schema_explicit_attributes.specs.Places.{places_of, all_places};
ghost use Rattle.schema_types.specs.TypeTables.{IsMade};
ghost use Rattle.schema_attribute_references.specs.steps.Taking.{IsKnown, schema_in};
ghost use Rattle.schema_data_types.specs.Items.{AreItems};
ghost use Rattle.schema_explicit_attributes.specs.SupertypeLines.{HaveLines};
ghost use Rattle.schema_data_types.specs.ShapeTables.{AreShapes};
ghost use Rattle.schema_resolution.specs.SchemaFindings.{
  AreTypes,
  AreMeanings,
  HasOwnPlaces,
  IsJudged,
  AreDomainTables,
  AreFound,
};

use crate::evaluated_parts::domain_by;
use crate::population_rules::rules_by;
use graphs::closures::reversal;
use schema_attribute_references::schema_facts::Known;
use schema_attributes::attributes::Attributes;
use schema_constraints::tables::RuleTables;
use schema_data_types::forms::{DataTypes, data_types};
use schema_data_types::items::Items;
use schema_data_types::shape_table::shapes;
use schema_data_types::shapes::Shape;
use schema_data_types::value_givers::{Parts, parts_of};
use schema_data_types::values::Tables;
use schema_derived_attributes::formula::Formulas;
use schema_domain_rules::rule::DomainRule;
use schema_explicit_attributes::places::AttributePlaces;
use schema_explicit_attributes::supertype_lines::lines;
use schema_names::declaration_graphs::{part_graph, supertype_graph};
use schema_names::names::Names;
use schema_types::types::ResolvedTypes;
use schema_unchecked::derivations::{derivation_ranks, judge_derivations};
use schema_unchecked::findings::Findings;
use schema_unchecked::list::unchecked_parts;
use schema_unchecked_declarations::list::Unchecked;
use std::alloc::{AllocError, Global};
use std::hash::RandomState;

/// The data types of a schema by number, their shapes, and the parts of defined types.
#[derive(Drop)]
struct Types {
    data_types: DataTypes,
    parts: Parts,
    shapes: Vec<Shape>,
}

/// Returns the data types of a schema, with their parts and shapes.
fn make_types(alloc: Global, names: &Names<'_, '_>) -> Result<Types, AllocError>
    requires resolved { IsResolved (the_schema names.now) }
    ensures { IfOk result (AreTypes (the_schema names.now)) }
{
    let data_types = data_types(alloc, names)?;
    let edges = part_graph(alloc, names)?;
    let shapes = shapes(alloc, names, &data_types, &edges)?;
    let parts = parts_of(alloc, names, &edges)?;
    Ok(Types {
        data_types,
        parts,
        shapes,
    })
}

/// Returns the supertype chain of each entity: itself, then the chains of its supertypes in turn.
fn lines_of(alloc: Global, names: &Names<'_, '_>) -> Result<Vec<Vec<u32>>, AllocError>
    requires resolved { IsResolved (the_schema names.now) }
    ensures lines { IfOk result (λ rows. HaveLines (the_schema names.now) (graph_of rows.items)) }
    ensures each { IfOk result (λ rows. length rows.items
        ≡ length names.now.schema.now.declarations.items) }
{
    let supertypes = supertype_graph(alloc, names)?;
    lines(alloc, names, &supertypes)
}

/// The meanings of names in the expressions of a schema, except its data types.
#[derive(Drop)]
struct Meanings<'a> {
    lines: Vec<Vec<u32>>,
    below: Vec<Vec<u32>>,
    attributes: Attributes<'a>,
    items: Items<'a>,
}

/// Returns the attributes, supertype chains, subtypes and enumeration items of a schema.
fn make_meanings<'a>(
    alloc: Global,
    keys: RandomState,
    names: &Names<'a, '_>,
    types: &Types,
    above: &[Vec<u32>],
) -> Result<Meanings<'a>, AllocError>
    requires resolved { IsResolved (the_schema names.now) }
    requires types { AreTypes (the_schema names.now) types.now }
    requires above { AreAbove (the_schema names.now) (graph_of above.now) }
    ensures { IfOk result (AreMeanings (the_schema names.now) (graph_of above.now)) }
{
    let lines = lines_of(alloc, names)?;
    let below = reversal(alloc, above)?;
    let attributes = Attributes::of(alloc, keys, names, &types.data_types, &lines, &types.shapes)?;
    let items = Items::of(alloc, keys, names)?;
    Ok(Meanings {
        lines,
        below,
        attributes,
        items,
    })
}

/// The findings for the rules and derived attributes of a schema.
#[derive(Drop)]
pub struct Judged {
    /// The ranks of derived attributes, by number; `None` for one that is set aside.
    pub ranks: Vec<Option<u32>>,
    /// The unchecked parts, in the order of the text.
    pub unchecked: Vec<Unchecked>,
}

/// The evaluated parts of a schema: the formulas of its derived attributes, and its checked domain
/// rules (ISO 10303-11, 9.2.1.2, 9.1 and 9.2.2.2).
#[derive(Drop)]
pub struct DomainTables<'a, 't> {
    pub formulas: Formulas<'a, 't>,
    /// The checked domain rules, in the order of the text.
    pub rules: Vec<DomainRule<'a, 't>>,
}

/// The findings for the rules and derived attributes of a schema, and the evaluated ones.
#[derive(Drop)]
struct Bodies<'a, 't> {
    judged: Judged,
    domain: DomainTables<'a, 't>,
}

/// Returns the findings for the rules and derived attributes of a schema, and the evaluated ones.
fn judge_by<'r, 't, 'a>(
    alloc: Global,
    known: &Known<'a, 't, 'r>,
    items: &'r Items<'a>,
    lines: &'r [Vec<u32>],
    shapes: &'r [Shape],
) -> Result<Bodies<'a, 't>, AllocError>
    requires known { IsKnown known.now }
    requires items { AreItems (schema_in known.now) items.now }
    requires lines { HaveLines (schema_in known.now) (graph_of lines.now) }
    requires each { length lines.now ≡ length
        known.now.tables.names.now.schema.now.declarations.items }
    requires shapes { AreShapes (schema_in known.now) shapes.now }
    ensures judged { IfOk result (λ b. IsJudged (schema_in known.now) b.judged) }
    ensures domain { IfOk result (λ b. AreDomainTables (schema_in known.now) b.domain) }
{
    let judged = judge_derivations(alloc, known, items)?;
    let ranks = derivation_ranks(alloc, known, &judged)?;
    let findings = Findings {
        known: *known,
        items,
        lines,
        shapes,
        judged: &judged,
        ranks: &ranks,
    };
    let unchecked = unchecked_parts(alloc, &findings)?;
    let domain = domain_by(alloc, &findings)?;
    let judged = Judged { ranks, unchecked };
    Ok(Bodies { judged, domain })
}

/// The findings and rules of a schema.
#[derive(Drop)]
pub(crate) struct Found<'a, 't> {
    pub judged: Judged,
    /// The evaluated parts.
    pub domain: DomainTables<'a, 't>,
    /// The rules that apply to a whole population.
    pub rules: RuleTables<'a>,
}

/// Returns the findings and rules of a schema from its tables.
fn found_by<'r, 't, 'a>(
    alloc: Global,
    known: &Known<'a, 't, 'r>,
    items: &'r Items<'a>,
    lines: &'r [Vec<u32>],
    shapes: &'r [Shape],
    explicit: &'r AttributePlaces<'a, 't>,
) -> Result<Found<'a, 't>, AllocError>
    requires known { IsKnown known.now }
    requires items { AreItems (schema_in known.now) items.now }
    requires lines { HaveLines (schema_in known.now) (graph_of lines.now) }
    requires each { length lines.now ≡ length
        known.now.tables.names.now.schema.now.declarations.items }
    requires shapes { AreShapes (schema_in known.now) shapes.now }
    requires places { places_of explicit.now.attributes.items ≡ all_places (schema_in known.now) }
    requires own { HasOwnPlaces (schema_in known.now) explicit.now }
    ensures { IfOk result (AreFound (schema_in known.now)) }
{
    let Bodies { judged, domain } = judge_by(alloc, known, items, lines, shapes)?;
    let rules = rules_by(alloc, known, lines, explicit)?;
    Ok(Found {
        judged,
        domain,
        rules,
    })
}

/// Returns the findings and rules of a schema with these types. Names are hashed with `keys`.
pub(crate) fn judge<'r, 't, 'a>(
    alloc: Global,
    keys: RandomState,
    resolved: &'r ResolvedTypes<'a, 't>,
) -> Result<Found<'a, 't>, AllocError>
    requires { IsMade resolved.now }
    ensures { IfOk result (AreFound (the_schema resolved.now.names)) }
{
    let names = &resolved.names;
    let above = resolved.above.as_slice();
    let types = make_types(alloc, names)?;
    let meanings = make_meanings(alloc, keys, names, &types, above)?;
    let known = Known {
        tables: Tables {
            names,
            data_types: &types.data_types,
            parts: &types.parts,
        },
        above,
        below: &meanings.below,
        attributes: &meanings.attributes,
    };
    found_by(
        alloc,
        &known,
        &meanings.items,
        &meanings.lines,
        &types.shapes,
        &resolved.places,
    )
}
