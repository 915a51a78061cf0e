//! The tables by which a file is merged according to its schema.

ghost use Rattle.std.specs.Prelude.{◌≡◌, IfOk};
ghost use Rattle.schema_names.specs.Schemas.{the_schema};
ghost use Rattle.schema_resolution.specs.SoundGraphs.{IsSound};
ghost use Rattle.conformance.specs.Choices.{MergeOptions};
ghost use Rattle.conformance.specs.OtherNames.{other_names};
ghost use Rattle.step_exchange.specs.Exchanges.{structure};
ghost use Rattle.merge_choices.specs.ChosenEntities.{AreOptionsOf};
ghost use Rattle.population_forms.specs.steps.Tables.{AreTables};
ghost use Rattle.merge_tables.specs.steps.Merges.{HaveMembers, Merges, last_of};
ghost use Rattle.merge_tables.specs.steps.ComputedTables.{Comes};

use crate::tables::standard_tables;
use file_findings::checked_file::{Checked, conforming};
use file_findings::findings::Found;
use merge_choices::choice::Chosen;
use population_forms::tables::SchemaTables;
use resources::Resources;
use schema_resolution::resolved_schema::ResolvedSchema;
use std::alloc::AllocError;
use step_exchange::structure::Exchange;
use value_equality::table::Table;

/// The result of merging a file.
#[derive(Drop)]
pub enum Merging<'s> {
    /// The file has findings; these are all.
    Faulty(Found<'s>),
    /// The file has no findings.
    Clean {
        /// The number of pairs of an instance and a domain rule whose outcome is UNKNOWN, at most
        /// 2^64 - 1.
        unknown: u64,
        /// The table of partition refinement under the weak pins.
        first: Table,
        /// The table of partition refinement under the gentle pins, which the classes of `first`
        /// determine. `None` if the gentle rules pin no further instances; it equals `first` then.
        second: Option<Table>,
    },
}

/// Returns the table that decides the merge: `second`, if any, otherwise `first`. Instances that
/// share a class at its last round are merged.
pub fn last_of<'t>(first: &'t Table, second: &'t Option<Table>) -> &'t Table
    ensures { result.now ≡ last_of first.entry.now second.entry.now }
{
    match second {
        Some(second) => second,
        None => first,
    }
}

/// Computes the merge of a file, with the tables of its schema.
fn merged_by_tables<'r, 't, 's: 'a, 'a: 'r>(
    resources: Resources,
    graph: &'r ResolvedSchema<'s, 't>,
    tables: &'r SchemaTables,
    chosen: &Chosen,
    exchange: &'r Exchange<'a>,
) -> Result<Merging<'s>, AllocError>
    requires sound { IsSound graph.now }
    requires tables { AreTables graph.now.types tables.now }
    ensures { IfOk result (Comes (the_schema graph.entry.now.types.names)
        (other_names graph.entry.now.types.names.schema.now) chosen.now
        (structure exchange.entry.now) exchange.entry.now.names) }
{
    let checked = conforming(resources, graph, tables, chosen, exchange)?;
    match checked {
        Checked::Faulty(found) => Ok(Merging::Faulty(found)),
        Checked::Clean {
            unknown,
            weak,
            rows,
        } => {
            let (first, second) = standard_tables(resources, rows, weak)?;
            Ok(Merging::Clean {
                unknown,
                first,
                second,
            })
        }
    }
}

/// Returns the two tables by which a file is merged if instances of the `chosen` entity data types
/// may be merged. If the file has findings, returns all of these and no table.
///
/// Names, kinds, values and keys of rules are hashed with the keys of `resources`.
pub fn merge_tables<'s: 'a, 'a>(
    resources: Resources,
    graph: &ResolvedSchema<'s, '_>,
    chosen: &Chosen,
    exchange: &Exchange<'a>,
) -> Result<Merging<'s>, AllocError>
    requires sound { IsSound graph.now }
    // The result is that of the file, whatever may be merged by `chosen`.
    ensures merges { (those : MergeOptions)
        → AreOptionsOf graph.now.types.names those chosen.now
        → IfOk result (Merges (the_schema graph.now.types.names) those (structure exchange.now)) }
    // The members of both tables are the instances, in order.
    ensures members { IfOk result (HaveMembers exchange.now.names) }
{
    let tables = SchemaTables::of(resources.alloc, &graph.types)?;
    merged_by_tables(resources, graph, &tables, chosen, exchange)
}
