//! The command `shrink`: a smaller file, with its value-equal instances merged, and its certificate.

ghost use Rattle.std.specs.Prelude.{◌≡◌, ◌∷◌, [], false, true};
ghost use Rattle.merge_choices.specs.ChosenEntities.{choice_of};
ghost use Rattle.reports.specs.MergeLines.{merge_text};
ghost use Rattle.files.specs.Stores.{reader_seen};
ghost use Rattle.commands.specs.steps.Devices.{OnlyByDevices, device_seen};
ghost use Rattle.commands.specs.Endings.{Prints, exit_of, output_seen};
ghost use Rattle.commands.specs.Merges.{RunsShrink};

use crate::ending::{DEVICE, DONE};
use crate::fault::tell_fault;
use devices::device::{Sink, Source};
use files::fault::{LIMIT, Role};
use files::read::read_whole;
use merge_choices::choice::Choice;
use reports::fault::unread;
use reports::merge_lines::print_merge;
use resources::Resources;
use shrinking::shrink::shrink;
use shrinking::summary::Summary;

// Prints the report on a merge on `out`. Returns 0, or 4 if `out` fails.
fn tell_merge<O: Sink>(summary: &Summary<'_>, out: &mut O) -> u8
    ensures { Prints (output_seen O.held O.has_failed out.old out.new)
        (merge_text summary.now.report summary.now.kept summary.now.rounds) 0 result }
{
    match print_merge(out, &summary.report, summary.kept, summary.rounds) {
        Ok(()) => DONE,
        Err(_) => DEVICE,
    }
}

/// Merges a file according to a schema and a choice of its entity data types. Writes the smaller
/// file to `output`, its certificate to `certificate`, and the report and the numbers of the merge
/// to `out`. Returns the exit status 0. Schema and file are read to their ends before the first
/// byte is written.
///
/// If the file isn't merged, the status is:
///
/// - 1 if the file breaks its schema, with the report on `out`;
/// - 1 if the choice is strict and parts of the schema aren't checked, with these parts on `out`
///   and a line on `err`;
/// - 2 if the text of schema or file has a fault, a name in the schema is at fault, or a chosen
///   name isn't an entity data type of it;
/// - 4 if a device fails;
/// - 5 if memory runs out.
///
/// For 2, 4 and 5, the line of the fault is printed on `err`. Nothing is written to `output` and
/// `certificate` unless the status is 0, or one of them or `out` fails. Names are hashed with the
/// keys of `resources`.
pub fn run_shrink<S: Source, F: Source, W: Sink, C: Sink, O: Sink, E: Sink>(
    resources: Resources,
    schema: &mut S,
    choice: &Choice,
    file: &mut F,
    output: &mut W,
    certificate: &mut C,
    out: &mut O,
    err: &mut E,
) -> u8
    ensures runs { RunsShrink (choice_of choice.now) choice.now.strict
        (reader_seen S.to_come S.fails schema.old) (reader_seen F.to_come F.fails file.old)
        (output_seen W.held W.has_failed output.old output.new)
        (output_seen C.held C.has_failed certificate.old certificate.new)
        (exit_of (output_seen O.held O.has_failed out.old out.new)
        (output_seen E.held E.has_failed err.old err.new) result) }
    // The status is 4 only if a device fails in the run, unless one had failed before.
    ensures device { OnlyByDevices result (device_seen S.has_failed schema.old schema.new
        ∷ device_seen F.has_failed file.old file.new
        ∷ device_seen W.has_failed output.old output.new
        ∷ device_seen C.has_failed certificate.old certificate.new
        ∷ device_seen O.has_failed out.old out.new
        ∷ device_seen E.has_failed err.old err.new ∷ []) }
    // If a source, the output or the certificate fails in the run, the status is 4.
    ensures schema_failed { S.has_failed schema.old ≡ false → S.has_failed schema.new ≡ true
        → result ≡ 4 }
    ensures file_failed { F.has_failed file.old ≡ false → F.has_failed file.new ≡ true
        → result ≡ 4 }
    ensures output_failed { W.has_failed output.old ≡ false → W.has_failed output.new ≡ true
        → result ≡ 4 }
    ensures certificate_failed { C.has_failed certificate.old ≡ false
        → C.has_failed certificate.new ≡ true → result ≡ 4 }
{
    let text = match read_whole(resources.alloc, schema, LIMIT) {
        Ok(text) => text,
        Err(fault) => return tell_fault(&unread(Role::Schema, fault), out, err),
    };
    match shrink(resources, &text, choice, file, output, certificate) {
        Ok(summary) => tell_merge(&summary, out),
        Err(fault) => tell_fault(&fault, out, err),
    }
}
