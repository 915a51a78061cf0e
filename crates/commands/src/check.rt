//! The command `check`: whether a file conforms to a schema.

ghost use Rattle.std.specs.Prelude.{◌≡◌, ◌∷◌, [], false, map, string_bytes, true};
ghost use Rattle.files.specs.Stores.{reader_seen};
ghost use Rattle.commands.specs.steps.Devices.{OnlyByDevices, device_seen};
ghost use Rattle.commands.specs.Endings.{exit_of, output_seen};
ghost use Rattle.commands.specs.Runs.{RunsCheck};
ghost use Rattle.commands.specs.Statuses.{report_status};

use crate::ending::{BROKEN, DONE};
use crate::fault::{tell_fault, tell_report};
use checking::check::check;
use devices::device::{Sink, Source};
use files::fault::{LIMIT, Role};
use files::read::read_whole;
use reports::fault::unread;
use reports::report::Report;
use resources::Resources;

// Returns the status for a report: `BROKEN` if it has findings.
fn status_of_report(report: &Report<'_>) -> u8
    ensures { result ≡ report_status report.now }
{
    if report.findings.is_empty() && report.rule_findings.is_empty() {
        DONE
    } else {
        BROKEN
    }
}

/// Checks a file against a schema and prints the report on `out`. The file may also call the schema
/// by `other_names`, in any case. Returns the exit status: 0, or 1 if there are findings. The schema, then the file, is read to its end before the first byte is
/// written.
///
/// If the file isn't checked, prints the line of the fault on `err` and nothing on `out`. The
/// status is then:
///
/// - 2 if the text of schema or file has a fault, or a name in the schema is at fault;
/// - 4 if a device fails;
/// - 5 if memory runs out.
///
/// If printing fails, the status is 4. Names are hashed with the keys of `resources`.
pub fn run_check<S: Source, F: Source, O: Sink, E: Sink>(
    resources: Resources,
    other_names: Vec<String>,
    schema: &mut S,
    file: &mut F,
    out: &mut O,
    err: &mut E,
) -> u8
    ensures runs { RunsCheck (map string_bytes other_names.items)
        (reader_seen S.to_come S.fails schema.old) (reader_seen F.to_come F.fails file.old)
        (exit_of (output_seen O.held O.has_failed out.old out.new)
        (output_seen E.held E.has_failed err.old err.new) result) }
    // The status is 4 only if a device fails in the run, unless one had failed before.
    ensures device { OnlyByDevices result (device_seen S.has_failed schema.old schema.new
        ∷ device_seen F.has_failed file.old file.new ∷ device_seen O.has_failed out.old out.new
        ∷ device_seen E.has_failed err.old err.new ∷ []) }
    // If a source fails in the run, the status is 4.
    ensures schema_failed { S.has_failed schema.old ≡ false → S.has_failed schema.new ≡ true
        → result ≡ 4 }
    ensures file_failed { F.has_failed file.old ≡ false → F.has_failed file.new ≡ true
        → result ≡ 4 }
{
    let text = match read_whole(resources.alloc, schema, LIMIT) {
        Ok(text) => text,
        Err(fault) => return tell_fault(&unread(Role::Schema, fault), out, err),
    };
    match check(resources, &text, other_names, file) {
        Ok(found) => tell_report(&found, status_of_report(&found), out),
        Err(fault) => tell_fault(&fault, out, err),
    }
}
