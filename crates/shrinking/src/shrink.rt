//! Merging the value-equal instances of a file.

ghost use Rattle.std.specs.Prelude.{
  ◌≡◌,
  ◌≤◌,
  ◌^◌,
  ℕ,
  List,
  IfSome,
  MatchBool,
  Some,
  false,
  length,
};
ghost use Rattle.schema_names.specs.Schemas.{the_schema};
ghost use Rattle.schema_resolution.specs.SoundGraphs.{IsSound};
ghost use Rattle.conformance.specs.Choices.{MergeOptions};
ghost use Rattle.merge_choices.specs.ChosenEntities.{AreOptionsOf, choice_of};
ghost use Rattle.files.specs.declared.fault.Role.TheVariants as roles;
ghost use Rattle.reports.specs.Devices.{FileFailsAs, is_device};
ghost use Rattle.shrinking.specs.steps.ComputedAnswers.{
  FileShrinks,
  IsRefused,
  IsTextFor,
  SourceShrinks,
};
ghost use Rattle.shrinking.specs.Shrinking.{Passes, Shrinks, written_to};

use crate::merge::shrink_exchange;
use crate::summary::Summary;
use devices::device::{Sink, Source};
use express_reader::read_schema;
use files::fault::{FileFault, LIMIT, Role};
use files::read::read_whole;
use merge_choices::choice::{Choice, Chosen};
use reports::fault::{Fault, of_file, of_schema, too_large, unread};
use resources::Resources;
use schema_resolution::resolution::resolve;
use schema_resolution::resolved_schema::ResolvedSchema;
use step_exchange::exchange::read_exchange;

/// Merges a file of these bytes.
fn shrink_file<'s, O: Sink, C: Sink>(
    resources: Resources,
    graph: ResolvedSchema<'s, '_>,
    chosen: &Chosen,
    bytes: &[u8],
    out: &mut O,
    certificate: &mut C,
) -> Result<Summary<'s>, Fault<'s>>
    requires sound { IsSound graph }
    requires within { length bytes.now ≤ 2 ^ 40 }
    ensures shrinks { (those : MergeOptions)
        → AreOptionsOf graph.entry.types.names those chosen.now
        → FileShrinks (the_schema graph.entry.types.names) those bytes.now
        (written_to O.held out.old out.new) (written_to C.held certificate.old certificate.new)
        result }
    ensures no_schema_fault { is_device roles.Schema result ≡ false }
    ensures no_file_fault { is_device roles.File result ≡ false }
    ensures output_fault { O.has_failed out.old ≡ false
        → O.has_failed out.new ≡ is_device roles.Output result }
    ensures certificate_fault { C.has_failed certificate.old ≡ false
        → C.has_failed certificate.new ≡ is_device roles.Certificate result }
{
    match read_exchange(resources.alloc, resources.keys, bytes) {
        Ok(exchange) => shrink_exchange(resources, graph, chosen, &exchange, out, certificate),
        Err(fault) => Err(of_file(FileFault::of_text(Role::File, fault))),
    }
}

/// Reads the file from a source and merges it.
fn shrink_source<'s, F: Source, O: Sink, C: Sink>(
    resources: Resources,
    graph: ResolvedSchema<'s, '_>,
    chosen: &Chosen,
    file: &mut F,
    out: &mut O,
    certificate: &mut C,
) -> Result<Summary<'s>, Fault<'s>>
    requires sound { IsSound graph }
    ensures shrinks { (those : MergeOptions)
        → AreOptionsOf graph.entry.types.names those chosen.now
        → SourceShrinks (the_schema graph.entry.types.names) those (F.to_come file.old)
        (written_to O.held out.old out.new) (written_to C.held certificate.old certificate.new)
        result }
    ensures no_schema_fault { is_device roles.Schema result ≡ false }
    ensures file_fault { F.has_failed file.old ≡ false
        → F.has_failed file.new ≡ is_device roles.File result }
    ensures output_fault { O.has_failed out.old ≡ false
        → O.has_failed out.new ≡ is_device roles.Output result }
    ensures certificate_fault { C.has_failed certificate.old ≡ false
        → C.has_failed certificate.new ≡ is_device roles.Certificate result }
    ensures file_told { IfSome (F.fails file.old) (FileFailsAs result) }
{
    match read_whole(resources.alloc, file, LIMIT) {
        Ok(bytes) => shrink_file(resources, graph, chosen, &bytes, out, certificate),
        Err(fault) => Err(unread(Role::File, fault)),
    }
}

/// Whether a strict choice refuses a schema because parts of it aren't checked.
fn is_refused(choice: &Choice, graph: &ResolvedSchema<'_, '_>) -> bool
    ensures { MatchBool result (IsRefused choice.now.strict (the_schema graph.now.types.names))
        (Passes choice.now.strict (the_schema graph.now.types.names)) }
{
    choice.strict && !graph.unchecked().is_empty()
}

/// Merges the file of a source according to a schema whose names are resolved.
fn shrink_graph<'s, F: Source, O: Sink, C: Sink>(
    resources: Resources,
    graph: ResolvedSchema<'s, '_>,
    choice: &Choice,
    file: &mut F,
    out: &mut O,
    certificate: &mut C,
) -> Result<Summary<'s>, Fault<'s>>
    requires sound { IsSound graph }
    ensures shrinks { (text : List ℕ)
        → IsTextFor graph.entry.types.names (choice_of choice.now) text
        → Shrinks (choice_of choice.now) choice.now.strict (Some text) (F.to_come file.old)
        (written_to O.held out.old out.new) (written_to C.held certificate.old certificate.new)
        result }
    ensures no_schema_fault { is_device roles.Schema result ≡ false }
    ensures file_fault { F.has_failed file.old ≡ false
        → F.has_failed file.new ≡ is_device roles.File result }
    ensures output_fault { O.has_failed out.old ≡ false
        → O.has_failed out.new ≡ is_device roles.Output result }
    ensures certificate_fault { C.has_failed certificate.old ≡ false
        → C.has_failed certificate.new ≡ is_device roles.Certificate result }
    ensures file_told { IfSome (F.fails file.old) (FileFailsAs result) }
{
    if is_refused(choice, &graph) {
        return Err(Fault::Unchecked(graph.into_unchecked()));
    }
    match choice.settle(resources.alloc, &graph.types) {
        Ok(chosen) => shrink_source(resources, graph, &chosen, file, out, certificate),
        Err(fault) => Err(of_schema(fault)),
    }
}

/// Merges the file of a source according to a schema of these bytes.
fn shrink_by<'s, F: Source, O: Sink, C: Sink>(
    resources: Resources,
    schema: &'s [u8],
    choice: &Choice,
    file: &mut F,
    out: &mut O,
    certificate: &mut C,
) -> Result<Summary<'s>, Fault<'s>>
    requires within { length schema.now ≤ 2 ^ 40 }
    ensures shrinks { Shrinks (choice_of choice.now) choice.now.strict (Some schema.now)
        (F.to_come file.old) (written_to O.held out.old out.new)
        (written_to C.held certificate.old certificate.new) result }
    ensures no_schema_fault { is_device roles.Schema result ≡ false }
    ensures file_fault { F.has_failed file.old ≡ false
        → F.has_failed file.new ≡ is_device roles.File result }
    ensures output_fault { O.has_failed out.old ≡ false
        → O.has_failed out.new ≡ is_device roles.Output result }
    ensures certificate_fault { C.has_failed certificate.old ≡ false
        → C.has_failed certificate.new ≡ is_device roles.Certificate result }
    ensures file_told { IfSome (F.fails file.old) (FileFailsAs result) }
{
    let tree = match read_schema(resources.alloc, schema) {
        Ok(tree) => tree,
        Err(fault) => return Err(of_schema(fault)),
    };
    let other_names = match choice.copy_other_names() {
        Ok(names) => names,
        Err(_) => return Err(Fault::Memory),
    };
    let named = tree.with_other_names(other_names);
    match resolve(resources.alloc, resources.keys, &named) {
        Ok(graph) => shrink_graph(resources, graph, choice, file, out, certificate),
        Err(fault) => Err(of_schema(fault)),
    }
}

/// Merges exactly the value-equal instances of a file: those of the chosen entity data types that
/// nothing pins. Writes the smaller file to `out` and then its certificate to `certificate`.
///
/// The smaller file conforms to the schema as the file does, and no image of the file has fewer
/// instances. The file is read to its end if schema and choice have no fault. Names are hashed with the
/// keys of `resources`.
///
/// # Errors
/// The first of these; before the last two, nothing was written:
///
/// - `Schema` if the text of the schema has a fault or is larger than 2^40 bytes, or a name in it
///   is at fault.
/// - `Unchecked` if the choice is strict and parts of the schema aren't checked.
/// - `Schema` with `UnknownName` if a chosen name isn't an entity data type of the schema.
/// - `Device` of the file if its source fails.
/// - `Text` of the file if its text has a fault or is larger than 2^40 bytes.
/// - `Findings` if the file breaks its schema.
/// - `Device` of the output if its sink fails; a prefix of the smaller file was written.
/// - `Device` of the certificate if its sink fails; the smaller file and a prefix of the
///   certificate were written.
///
/// `Memory` if memory runs out, at any time; nothing was written then.
pub fn shrink<'s, F: Source, O: Sink, C: Sink>(
    resources: Resources,
    schema: &'s [u8],
    choice: &Choice,
    file: &mut F,
    out: &mut O,
    certificate: &mut C,
) -> Result<Summary<'s>, Fault<'s>>
    // The result and what is written are those that the two texts and the choice have.
    ensures shrinks { Shrinks (choice_of choice.now) choice.now.strict
        (Some schema.now) (F.to_come file.old) (written_to O.held out.old out.new)
        (written_to C.held certificate.old certificate.new) result }
    // The fault is that of a device exactly if the device failed.
    ensures no_schema_fault { is_device roles.Schema result ≡ false }
    ensures file_fault { F.has_failed file.old ≡ false
        → F.has_failed file.new ≡ is_device roles.File result }
    ensures output_fault { O.has_failed out.old ≡ false
        → O.has_failed out.new ≡ is_device roles.Output result }
    ensures certificate_fault { C.has_failed certificate.old ≡ false
        → C.has_failed certificate.new ≡ is_device roles.Certificate result }
    // A source that can't fail has no fault. One that always fails has one if it is read.
    ensures file_told { IfSome (F.fails file.old) (FileFailsAs result) }
{
    if schema.len() as u64 > LIMIT {
        return Err(too_large(Role::Schema));
    }
    shrink_by(resources, schema, choice, file, out, certificate)
}
