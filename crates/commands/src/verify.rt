//! The command `verify`: whether a certificate proves that an output is a least image of a file.

ghost use Rattle.std.specs.Prelude.{◌≡◌, ◌∷◌, [], false, true};
ghost use Rattle.merge_choices.specs.ChosenEntities.{choice_of};
ghost use Rattle.files.specs.Stores.{reader_seen};
ghost use Rattle.reports.specs.MergeLines.{proof_text};
ghost use Rattle.commands.specs.steps.Devices.{OnlyByDevices, device_seen};
ghost use Rattle.commands.specs.Endings.{Prints, exit_of, output_seen};
ghost use Rattle.commands.specs.Verifies.{RunsVerify};

use crate::ending::{DEVICE, DONE};
use crate::fault::tell_fault;
use devices::device::{Sink, Source};
use files::fault::Role;
use merge_choices::choice::Choice;
use reports::merge_lines::print_proof;
use resources::Resources;
use verifying::proof::Proof;
use verifying::sources::{read, verify_files};

// Prints the numbers of a proof on `out`. Returns 0, or 4 if `out` fails.
fn tell_proof<O: Sink>(proof: &Proof, out: &mut O) -> u8
    ensures { Prints (output_seen O.held O.has_failed out.old out.new)
        (proof_text proof.now.instances proof.now.kept proof.now.rounds) 0 result }
{
    match print_proof(out, proof.instances, proof.kept, proof.rounds) {
        Ok(()) => DONE,
        Err(_) => DEVICE,
    }
}

/// Verifies an output of a file according to a schema, a choice of its entity data types and a
/// certificate. Prints the numbers of the proof on `out` and returns the exit status 0. All four
/// are read to their ends in this order: schema, file, output, certificate.
///
/// If the output isn't proved, lines on `err` report why. A fault of reading comes first: status 2
/// for more than 2^40 bytes, 4 for a device. Otherwise it is the first fault that `verify` returns:
///
/// - 1 if the file or the output has findings;
/// - 2 if a text has a fault, a name in the schema is at fault, or a chosen name isn't an entity
///   data type of it;
/// - 6 if the certificate is refused.
///
/// The status is 5 if memory runs out, and 4 if printing fails. Names are hashed with the keys of `resources`.
pub fn run_verify<S: Source, F: Source, W: Source, C: Source, O: Sink, E: Sink>(
    resources: Resources,
    schema: &mut S,
    choice: &Choice,
    file: &mut F,
    output: &mut W,
    certificate: &mut C,
    out: &mut O,
    err: &mut E,
) -> u8
    ensures runs { RunsVerify (choice_of choice.now)
        (reader_seen S.to_come S.fails schema.old) (reader_seen F.to_come F.fails file.old)
        (reader_seen W.to_come W.fails output.old) (reader_seen C.to_come C.fails certificate.old)
        (exit_of (output_seen O.held O.has_failed out.old out.new)
        (output_seen E.held E.has_failed err.old err.new) result) }
    // The status is 4 only if a device fails in the run, unless one had failed before.
    ensures device { OnlyByDevices result (device_seen S.has_failed schema.old schema.new
        ∷ device_seen F.has_failed file.old file.new
        ∷ device_seen W.has_failed output.old output.new
        ∷ device_seen C.has_failed certificate.old certificate.new
        ∷ device_seen O.has_failed out.old out.new
        ∷ device_seen E.has_failed err.old err.new ∷ []) }
    // If a source fails in the run, the status is 4.
    ensures schema_failed { S.has_failed schema.old ≡ false → S.has_failed schema.new ≡ true
        → result ≡ 4 }
    ensures file_failed { F.has_failed file.old ≡ false → F.has_failed file.new ≡ true
        → result ≡ 4 }
    ensures output_failed { W.has_failed output.old ≡ false → W.has_failed output.new ≡ true
        → result ≡ 4 }
    ensures certificate_failed { C.has_failed certificate.old ≡ false
        → C.has_failed certificate.new ≡ true → result ≡ 4 }
{
    let text = match read(resources.alloc, Role::Schema, schema) {
        Ok(text) => text,
        Err(fault) => return tell_fault(&fault, out, err),
    };
    match verify_files(resources, &text, choice, file, output, certificate) {
        Ok(proof) => tell_proof(&proof, out),
        Err(fault) => tell_fault(&fault, out, err),
    }
}
