//! The lowest of the types that derive the value of an attribute (ISO 10303-11, 9.2.3.4).

ghost use Rattle.std.specs.Prelude.{◌≡◌, ℕ, None};
ghost use Rattle.std.specs.List.{list_all};
ghost use Rattle.graphs.specs.Graphs.{graph_of};
ghost use Rattle.express_syntax.specs.ExpressionViews.{capitals};
ghost use Rattle.schema_names.specs.Schemas.{the_schema};
ghost use Rattle.schema_attribute_sources.specs.steps.Deriving.{derives};
ghost use Rattle.schema_attribute_sources.specs.steps.Lowest.{leads, lower, with_type, lowest_from, is_below};

use crate::derivations::{Asked, derives};
use schema_explicit_attributes::supertypes::is_or_leads;
use schema_types::types::ResolvedTypes;

/// Returns `number` if it is `lowest` or a subtype, or if there is no `lowest`; otherwise `lowest`.
fn lower(above: &[Vec<u32>], lowest: Option<u32>, number: u32) -> Option<u32>
    ensures { result ≡ lower (leads (graph_of above.now)) lowest number }
{
    let Some(old) = lowest else {
        return Some(number);
    };
    if is_or_leads(above, number, old) {
        return Some(number);
    }
    Some(old)
}

/// Returns the lower of `lowest` and `number` if `number` derives the value of `asked`, otherwise
/// `lowest`.
fn with_type(
    schema: &ResolvedTypes<'_, '_>,
    lines: &[Vec<u32>],
    asked: Asked<'_>,
    lowest: Option<u32>,
    number: u32,
) -> Option<u32>
    ensures { result ≡ with_type (derives (the_schema schema.now.names) (graph_of lines.now)
        (capitals asked.entry.name) asked.entry.entity) (leads (graph_of schema.now.above.items))
        lowest number }
{
    if derives(&schema.names, lines, number, asked) {
        return lower(&schema.above, lowest, number);
    }
    lowest
}

/// Returns a type that derives the value of `asked`: the one below all others that do, if there is
/// such a type. `None` if no type derives it.
pub(crate) fn lowest(
    schema: &ResolvedTypes<'_, '_>,
    lines: &[Vec<u32>],
    asked: Asked<'_>,
    types: &[u32],
) -> Option<u32>
    ensures { result ≡ lowest_from (derives (the_schema schema.now.names) (graph_of lines.now)
        (capitals asked.entry.name) asked.entry.entity) (leads (graph_of schema.now.above.items))
        None types.now }
{
    let mut lowest = None;
    for number in types {
        lowest = with_type(schema, lines, asked, lowest, *number);
    }
    lowest
}

/// Whether `entity` is `number` or a subtype of it, or `number` doesn't derive the value of
/// `asked`.
fn is_below(
    schema: &ResolvedTypes<'_, '_>,
    lines: &[Vec<u32>],
    asked: Asked<'_>,
    entity: u32,
    number: u32,
) -> bool
    ensures { result ≡ is_below (derives (the_schema schema.now.names) (graph_of lines.now)
        (capitals asked.entry.name) asked.entry.entity) (leads (graph_of schema.now.above.items))
        entity number }
{
    if !derives(&schema.names, lines, number, asked) {
        return true;
    }
    is_or_leads(&schema.above, entity, number)
}

/// Whether `entity` is, or is a subtype of, each of the types that derive the value of `asked`.
pub(crate) fn is_below_all(
    schema: &ResolvedTypes<'_, '_>,
    lines: &[Vec<u32>],
    asked: Asked<'_>,
    entity: u32,
    types: &[u32],
) -> bool
    ensures { result ≡ list_all (is_below
        (derives (the_schema schema.now.names) (graph_of lines.now)
        (capitals asked.entry.name) asked.entry.entity) (leads (graph_of schema.now.above.items))
        entity) types.now }
{
    for number in types {
        if !is_below(schema, lines, asked, entity, *number) {
            return false;
        }
    }
    true
}
