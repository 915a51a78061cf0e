//! The rules of a schema that apply to a whole population (ISO 10303-11, 9.2.2.1 and 9.2.1.3).

ghost use Rattle.std.specs.Prelude.{◌≡◌, IfOk, length};
ghost use Rattle.graphs.specs.Graphs.{graph_of};
ghost use Rattle.schema_explicit_attributes.specs.Places.{places_of, all_places, ArePlaceRows};
ghost use Rattle.schema_explicit_attributes.specs.SupertypeLines.{HaveLines};
ghost use Rattle.schema_attribute_references.specs.steps.Taking.{IsKnown, schema_in};
ghost use Rattle.schema_constraints.specs.RuleTables.{AreRuleTables};

use schema_attribute_references::schema_facts::Known;
use schema_constraints::attribute_order::ordered_places;
use schema_constraints::sources::Sources;
use schema_constraints::tables::{RuleTables, rule_tables};
use schema_explicit_attributes::places::AttributePlaces;
use std::alloc::{AllocError, Global};

/// Returns the uniqueness rules and the inverse attributes of a schema.
pub(crate) fn rules_by<'r, 't, 'a>(
    alloc: Global,
    known: &Known<'a, 't, 'r>,
    lines: &'r [Vec<u32>],
    explicit: &'r AttributePlaces<'a, 't>,
) -> Result<RuleTables<'a>, AllocError>
    requires known { IsKnown known.now }
    requires lines { HaveLines (schema_in known.now) (graph_of lines.now) }
    requires each { length lines.now ≡ length
        known.now.tables.names.now.schema.now.declarations.items }
    requires places { places_of explicit.now.attributes.items ≡ all_places (schema_in known.now) }
    requires own { ArePlaceRows (all_places (schema_in known.now))
        (schema_in known.now).declarations
        (graph_of explicit.now.own.items) }
    ensures { IfOk result (AreRuleTables (schema_in known.now)) }
{
    let ordered = ordered_places(alloc, &explicit.attributes)?;
    rule_tables(
        alloc,
        &Sources {
            known: *known,
            lines,
            places: &explicit.attributes,
            own: &explicit.own,
            ordered: &ordered,
        },
    )
}
