//! Checking a file against a schema.

ghost use Rattle.std.specs.Prelude.{
  ◌≡◌,
  ◌≤◌,
  ◌^◌,
  IfSome,
  Some,
  false,
  length,
  map,
  string_bytes,
};
ghost use Rattle.conformance.specs.OtherNames.{other_names};
ghost use Rattle.schema_names.specs.Schemas.{the_schema};
ghost use Rattle.schema_resolution.specs.SoundGraphs.{IsSound};
ghost use Rattle.files.specs.declared.fault.Role.TheVariants as roles;
ghost use Rattle.reports.specs.Devices.{FileFailsAs, is_device};
ghost use Rattle.checking.specs.Checks.{Checks, FileAnswers, SourceAnswers};

use devices::device::Source;
use express_reader::read_schema;
use file_findings::findings::{Found, file_findings};
use files::fault::{FileFault, LIMIT, Role};
use files::read::read_whole;
use reports::fault::{Fault, of_file, of_schema, too_large, unread};
use reports::report::Report;
use resources::Resources;
use rule_outcomes::report::RuleReport;
use schema_resolution::resolution::resolve;
use schema_resolution::resolved_schema::ResolvedSchema;
use step_exchange::exchange::read_exchange;

/// Returns the report on a file of these bytes.
fn report<'s>(
    resources: Resources,
    graph: ResolvedSchema<'s, '_>,
    bytes: &[u8],
) -> Result<Report<'s>, Fault<'s>>
    requires sound { IsSound graph }
    requires within { length bytes.now ≤ 2 ^ 40 }
    ensures { FileAnswers (the_schema graph.entry.types.names)
        (other_names graph.entry.types.names.schema.now) bytes.now result }
{
    let exchange = match read_exchange(resources.alloc, resources.keys, bytes) {
        Ok(exchange) => exchange,
        Err(fault) => return Err(of_file(FileFault::of_text(Role::File, fault))),
    };
    let found = match file_findings(resources, &graph, &exchange) {
        Ok(found) => found,
        Err(_) => return Err(Fault::Memory),
    };
    let instances = exchange.names.len() as u64;
    let Found { findings, rules } = found;
    let RuleReport {
        findings: rule_findings,
        unknown,
    } = rules;
    Ok(Report {
        unchecked: graph.into_unchecked(),
        findings,
        rule_findings,
        instances,
        unknown,
    })
}

/// Reads the file from a source and returns the report on it.
fn report_source<'s, S: Source>(
    resources: Resources,
    graph: ResolvedSchema<'s, '_>,
    file: &mut S,
) -> Result<Report<'s>, Fault<'s>>
    requires sound { IsSound graph }
    ensures answers { SourceAnswers (the_schema graph.entry.types.names)
        (other_names graph.entry.types.names.schema.now) (S.to_come file.old) result }
    ensures no_schema_fault { is_device roles.Schema result ≡ false }
    ensures file_fault { S.has_failed file.old ≡ false
        → S.has_failed file.new ≡ is_device roles.File result }
    ensures file_told { IfSome (S.fails file.old) (FileFailsAs result) }
{
    match read_whole(resources.alloc, file, LIMIT) {
        Ok(bytes) => report(resources, graph, &bytes),
        Err(fault) => Err(unread(Role::File, fault)),
    }
}

/// Reads the schema from its bytes and the file from a source, and returns the report on the file.
fn check_by<'s, S: Source>(
    resources: Resources,
    schema: &'s [u8],
    other_names: Vec<String>,
    file: &mut S,
) -> Result<Report<'s>, Fault<'s>>
    requires within { length schema.now ≤ 2 ^ 40 }
    ensures checks { Checks (map string_bytes other_names.items) (Some schema.now)
        (S.to_come file.old) result }
    ensures no_schema_fault { is_device roles.Schema result ≡ false }
    ensures file_fault { S.has_failed file.old ≡ false
        → S.has_failed file.new ≡ is_device roles.File result }
    ensures file_told { IfSome (S.fails file.old) (FileFailsAs result) }
{
    let tree = match read_schema(resources.alloc, schema) {
        Ok(tree) => tree,
        Err(fault) => return Err(of_schema(fault)),
    };
    let named = tree.with_other_names(other_names);
    match resolve(resources.alloc, resources.keys, &named) {
        Ok(graph) => report_source(resources, graph, file),
        Err(fault) => Err(of_schema(fault)),
    }
}

/// Checks a file against a schema, given by its text. The file may also call the schema by
/// `other_names`, in any case; an empty one is ignored. The file is read to its end if the schema
/// has no fault.
///
/// The report has:
///
/// - the parts of the schema that aren't checked;
/// - all findings of the file, in order;
/// - the number of its instances;
/// - the number of pairs of an instance and a domain rule whose outcome is UNKNOWN.
///
/// Names are hashed with the keys of `resources`.
///
/// # Errors
/// The first of these:
///
/// - `Schema` if the text of the schema has a fault or is larger than 2^40 bytes, or a name in it
///   is at fault.
/// - `Device` of the file if its source fails.
/// - `Text` of the file, with the first fault, if its text has one or is larger than 2^40 bytes.
///
/// `Memory` if memory runs out, at any time.
pub fn check<'s, F: Source>(
    resources: Resources,
    schema: &'s [u8],
    other_names: Vec<String>,
    file: &mut F,
) -> Result<Report<'s>, Fault<'s>>
    // The result is the one that the two texts have.
    ensures checks { Checks (map string_bytes other_names.items) (Some schema.now)
        (F.to_come file.old) result }
    // The fault is that of the source exactly if the source failed.
    ensures no_schema_fault { is_device roles.Schema result ≡ false }
    ensures file_fault { F.has_failed file.old ≡ false
        → F.has_failed file.new ≡ is_device roles.File result }
    // A source that can't fail has no fault. One that always fails has one if it is read.
    ensures file_told { IfSome (F.fails file.old) (FileFailsAs result) }
{
    if schema.len() as u64 > LIMIT {
        return Err(too_large(Role::Schema));
    }
    check_by(resources, schema, other_names, file)
}
