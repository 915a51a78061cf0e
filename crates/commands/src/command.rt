//! The command line, over any store of files and any outputs.

ghost use Rattle.std.specs.Prelude.{◌≡◌, ◌⊎◌, ℕ, List, IfOk, false, map, string_bytes, true};
ghost use Rattle.std.specs.Io.KnownBytes.{Keeps};
ghost use Rattle.command_line.specs.Commands.{AsksNothing, texts};
ghost use Rattle.command_line.specs.steps.Options.{shrink_options, text_of, verify_options};
ghost use Rattle.files.specs.Lines.{line_of};
ghost use Rattle.files.specs.Stores.{Opens, file_seen};
ghost use Rattle.files.specs.declared.fault.FileFault.TheVariants.{Device};
ghost use Rattle.files.specs.declared.fault.Role.TheVariants.{File};
ghost use Rattle.merge_choices.specs.ChosenEntities.{choice_of, names_of};
ghost use Rattle.commands.specs.CommandLines.{AsksToWrite, OpensAsked, Runs, written_at};
ghost use Rattle.commands.specs.steps.ComputedRequests.{
  Does,
  IsApart,
  IsWritten,
  OpensUnlessMemory,
  check_opens,
  opened_by,
  proof_opens,
  smaller_opens,
};
ghost use Rattle.commands.specs.Endings.{Prints, exit_of, output_seen};
ghost use Rattle.commands.specs.Merges.{
  MakesSmaller,
  asked_choice,
  asked_names,
  asked_other_names,
  writers_of,
};
ghost use Rattle.commands.specs.Runs.{Refuses, RunsCheck};
ghost use Rattle.commands.specs.Statuses.{IsStatus};
ghost use Rattle.commands.specs.Verifies.{RunsVerify};

use crate::check::run_check;
use crate::ending::{DONE, USAGE, finish, print, report};
use crate::plain::plain;
use crate::presets::tell_presets;
use crate::shrink::run_shrink;
use crate::verify::run_verify;
use command_line::command_words::{CheckRequest, Refusal, Request, read_words};
use command_line::merge_words::{ShrinkRequest, VerifyRequest, names_between_commas};
use devices::device::Sink;
use files::fault::{FileFault, Role};
use files::store::Store;
use merge_choices::choice::{Choice, Names};
use resources::Resources;
use std::alloc::{AllocError, Global};

/// Prints why no command runs, and returns the exit status. A text that was requested is printed on
/// `out`, everything else on `err`.
pub fn refuse<O: Sink, E: Sink>(refusal: Refusal, out: &mut O, err: &mut E) -> u8
    ensures status { IsStatus result }
    ensures refuses { Refuses refusal
        (exit_of (output_seen O.held O.has_failed out.old out.new)
        (output_seen E.held E.has_failed err.old err.new) result) }
    // Nothing is printed on `out` unless a text was requested or a device fails.
    ensures unwritten { (result ≡ 0) ⊎ (result ≡ 4) ⊎ Keeps (O.held out.old) (O.held out.new) }
    // If an output fails, the status is 4.
    ensures out_failed { O.has_failed out.old ≡ false → O.has_failed out.new ≡ true → result ≡ 4 }
    ensures err_failed { E.has_failed err.old ≡ false → E.has_failed err.new ≡ true → result ≡ 4 }
{
    match refusal {
        Refusal::Shown(text) => print(out, text.as_str(), DONE),
        Refusal::Usage(text) => print(err, text.as_str(), USAGE),
        Refusal::Memory => finish(Err(FileFault::Memory), err),
    }
}

/// Prints that no file can be read, and returns the exit status 4. This is for a system that gives
/// no keys to hash names with.
pub fn refuse_to_read<E: Sink>(err: &mut E) -> u8
    ensures { Prints (output_seen E.held E.has_failed err.old err.new)
        (line_of (Device File 0)) 4 result }
{
    report(
        FileFault::Device {
            role: Role::File,
            written: 0,
        },
        err,
    )
}

// Returns the choice of entity data types: those of NAMES, if any, otherwise the usual ones.
fn chosen_names(alloc: Global, merge: Option<&str>) -> Result<Names, AllocError>
    ensures { IfOk result (λ names. names_of names ≡ asked_names (text_of merge.entry)) }
{
    match merge {
        None => Ok(Names::Usual),
        Some(names) => Ok(Names::Given(names_between_commas(alloc, names)?)),
    }
}

// Returns the other names of the schema: those of NAMES, if any.
fn other_names(alloc: Global, schema_alias: Option<&str>) -> Result<Vec<String>, AllocError>
    ensures { IfOk result (λ names.
        map string_bytes names.items ≡ asked_other_names (text_of schema_alias.entry)) }
{
    match schema_alias {
        None => Ok(Vec::new(alloc)),
        Some(names) => names_between_commas(alloc, names),
    }
}

// Returns what the arguments choose.
fn chosen(
    alloc: Global,
    merge: Option<&str>,
    schema_alias: Option<&str>,
    in_sets: bool,
    strict: bool,
) -> Result<Choice, AllocError>
    ensures choice { IfOk result (λ choice. choice_of choice ≡ asked_choice (record {
      merge = text_of merge.entry;
      schema_alias = text_of schema_alias.entry;
      in_sets = in_sets;
      strict = strict;
    })) }
    ensures strict { IfOk result (λ choice. choice.strict ≡ strict) }
{
    let names = chosen_names(alloc, merge)?;
    let other_names = other_names(alloc, schema_alias)?;
    Ok(Choice {
        names,
        in_sets,
        other_names,
        strict,
    })
}

// Checks the requested file, and returns the exit status.
fn check_asked<'p, S: Store<'p>, O: Sink, E: Sink>(
    resources: Resources,
    asked: CheckRequest<'p>,
    store: &mut S,
    out: &mut O,
    err: &mut E,
) -> u8
    ensures checks { RunsCheck (asked_other_names (text_of asked.entry.schema_alias))
        (file_seen S.contents S.fails store.old asked.entry.schema.now)
        (file_seen S.contents S.fails store.old asked.entry.file.now)
        (exit_of (output_seen O.held O.has_failed out.old out.new)
        (output_seen E.held E.has_failed err.old err.new) result) }
    ensures opened { OpensUnlessMemory (S.opened store.old) (S.opened store.new)
        (check_opens asked.entry) (output_seen E.held E.has_failed err.old err.new) result }
    ensures kept { (path : List ℕ) → S.contents store.new path ≡ S.contents store.old path }
{
    let other_names = match other_names(resources.alloc, asked.schema_alias) {
        Ok(other_names) => other_names,
        Err(_) => return report(FileFault::Memory, err),
    };
    let mut schema = store.reader(asked.schema);
    let mut file = store.reader(asked.file);
    run_check(resources, other_names, &mut schema, &mut file, out, err)
}

// Merges the requested file under this choice, and returns the exit status.
fn shrink_by<'p, S: Store<'p>, O: Sink, E: Sink>(
    resources: Resources,
    asked: ShrinkRequest<'p>,
    choice: &Choice,
    store: &mut S,
    out: &mut O,
    err: &mut E,
) -> u8
    requires apart { asked.output.now ≡ asked.certificate.now → ⊥ }
    ensures makes { MakesSmaller (writers_of S.Writer.held S.Writer.has_failed)
        (choice_of choice.now) choice.now.strict
        (file_seen S.contents S.fails store.old asked.entry.schema.now)
        (file_seen S.contents S.fails store.old asked.entry.file.now)
        (written_at (file_seen S.contents S.fails store.old)
        (S.contents store.new) asked.entry.output.now)
        (written_at (file_seen S.contents S.fails store.old) (S.contents store.new)
        asked.entry.certificate.now)
        (exit_of (output_seen O.held O.has_failed out.old out.new)
        (output_seen E.held E.has_failed err.old err.new) result) }
    ensures opened { Opens (S.opened store.old) (S.opened store.new) (smaller_opens asked.entry) }
    ensures kept { (path : List ℕ) → (path ≡ asked.entry.output.now → ⊥)
        → (path ≡ asked.entry.certificate.now → ⊥)
        → S.contents store.new path ≡ S.contents store.old path }
{
    let mut schema = store.reader(asked.schema);
    let mut file = store.reader(asked.file);
    let mut output = store.writer(asked.output);
    let mut certificate = store.writer(asked.certificate);
    let status = run_shrink(
        resources,
        &mut schema,
        choice,
        &mut file,
        &mut output,
        &mut certificate,
        out,
        err,
    );
    store.keep(asked.output, output);
    store.keep(asked.certificate, certificate);
    status
}

// Merges the requested file, and returns the exit status.
fn shrink_asked<'p, S: Store<'p>, O: Sink, E: Sink>(
    resources: Resources,
    asked: ShrinkRequest<'p>,
    store: &mut S,
    out: &mut O,
    err: &mut E,
) -> u8
    requires apart { asked.output.now ≡ asked.certificate.now → ⊥ }
    ensures makes { MakesSmaller (writers_of S.Writer.held S.Writer.has_failed)
        (asked_choice (shrink_options asked.entry)) asked.entry.strict
        (file_seen S.contents S.fails store.old asked.entry.schema.now)
        (file_seen S.contents S.fails store.old asked.entry.file.now)
        (written_at (file_seen S.contents S.fails store.old)
        (S.contents store.new) asked.entry.output.now)
        (written_at (file_seen S.contents S.fails store.old) (S.contents store.new)
        asked.entry.certificate.now)
        (exit_of (output_seen O.held O.has_failed out.old out.new)
        (output_seen E.held E.has_failed err.old err.new) result) }
    ensures opened { OpensUnlessMemory (S.opened store.old) (S.opened store.new)
        (smaller_opens asked.entry) (output_seen E.held E.has_failed err.old err.new) result }
    ensures kept { (path : List ℕ) → (path ≡ asked.entry.output.now → ⊥)
        → (path ≡ asked.entry.certificate.now → ⊥)
        → S.contents store.new path ≡ S.contents store.old path }
{
    let chosen = chosen(
        resources.alloc,
        asked.merge,
        asked.schema_alias,
        asked.in_sets,
        asked.strict,
    );
    match chosen {
        Ok(choice) => shrink_by(resources, asked, &choice, store, out, err),
        Err(_) => report(FileFault::Memory, err),
    }
}

// Verifies the requested output, and returns the exit status.
fn verify_asked<'p, S: Store<'p>, O: Sink, E: Sink>(
    resources: Resources,
    asked: VerifyRequest<'p>,
    store: &mut S,
    out: &mut O,
    err: &mut E,
) -> u8
    ensures verifies { RunsVerify (asked_choice (verify_options asked.entry))
        (file_seen S.contents S.fails store.old asked.entry.schema.now)
        (file_seen S.contents S.fails store.old asked.entry.file.now)
        (file_seen S.contents S.fails store.old asked.entry.output.now)
        (file_seen S.contents S.fails store.old asked.entry.certificate.now)
        (exit_of (output_seen O.held O.has_failed out.old out.new)
        (output_seen E.held E.has_failed err.old err.new) result) }
    ensures opened { OpensUnlessMemory (S.opened store.old) (S.opened store.new)
        (proof_opens asked.entry) (output_seen E.held E.has_failed err.old err.new) result }
    ensures kept { (path : List ℕ) → S.contents store.new path ≡ S.contents store.old path }
{
    let chosen = chosen(
        resources.alloc,
        asked.merge,
        asked.schema_alias,
        asked.in_sets,
        false,
    );
    let choice = match chosen {
        Ok(choice) => choice,
        Err(_) => return report(FileFault::Memory, err),
    };
    let mut schema = store.reader(asked.schema);
    let mut file = store.reader(asked.file);
    let mut output = store.reader(asked.output);
    let mut certificate = store.reader(asked.certificate);
    run_verify(
        resources,
        &mut schema,
        &choice,
        &mut file,
        &mut output,
        &mut certificate,
        out,
        err,
    )
}

// Runs a request, and returns the exit status.
fn run<'p, S: Store<'p>, O: Sink, E: Sink>(
    resources: Resources,
    request: Request<'p>,
    store: &mut S,
    out: &mut O,
    err: &mut E,
) -> u8
    requires apart { IsApart request }
    ensures does { Does (writers_of S.Writer.held S.Writer.has_failed) request.entry
        (file_seen S.contents S.fails store.old) (S.contents store.new)
        (exit_of (output_seen O.held O.has_failed out.old out.new)
        (output_seen E.held E.has_failed err.old err.new) result) }
    ensures opened { OpensUnlessMemory (S.opened store.old) (S.opened store.new)
        (opened_by request.entry) (output_seen E.held E.has_failed err.old err.new) result }
    // No other file changes.
    ensures kept { (path : List ℕ) → (IsWritten request.entry path → ⊥)
        → S.contents store.new path ≡ S.contents store.old path }
{
    match request {
        Request::Plain(path) => {
            let mut source = store.reader(path);
            finish(plain(resources, &mut source, out), err)
        }
        Request::Check(asked) => check_asked(resources, asked, store, out, err),
        Request::Shrink(asked) => shrink_asked(resources, asked, store, out, err),
        Request::Verify(asked) => verify_asked(resources, asked, store, out, err),
        Request::Presets => tell_presets(out),
    }
}

/// Runs the command line with the arguments `words`, the program's own name first. Returns the exit
/// status:
///
/// - 0 if everything is done;
/// - 1 if a file breaks its schema, or a strict choice refuses a schema with unchecked parts;
/// - 2 if the text of a file or schema can't be read, or a name in the schema or a chosen name is
///   at fault;
/// - 3 if the arguments are wrong;
/// - 4 if a device fails;
/// - 5 if memory runs out;
/// - 6 if a certificate is refused.
///
/// Only `shrink` writes files: the smaller file and the certificate, each created at its first
/// write. The findings of `check` and `shrink` are printed on `out`, and so are the parts that a
/// strict choice refuses, with a line on `err`. Every other fault is reported on `err`. If a report
/// on `err`, or the text of `presets`, `--help` or `--version`, can't be printed, nothing more is
/// printed.
///
/// The status isn't 4 if no output fails or has failed before, the store reveals that no read
/// fails, and none of its writers ever fails. Names are hashed with the keys of `resources`.
pub fn run_command<'p, S: Store<'p>, O: Sink, E: Sink>(
    resources: Resources,
    words: &'p [String],
    store: &mut S,
    out: &mut O,
    err: &mut E,
) -> u8
    ensures runs { Runs (writers_of S.Writer.held S.Writer.has_failed) (texts words.now)
        (file_seen S.contents S.fails store.old) (S.contents store.new)
        (exit_of (output_seen O.held O.has_failed out.old out.new)
        (output_seen E.held E.has_failed err.old err.new) result) }
    // No file changes, except those that the arguments name as OUT and CERT of `shrink`.
    ensures kept { (path : List ℕ) → (AsksToWrite (texts words.now) path → ⊥)
        → S.contents store.new path ≡ S.contents store.old path }
    // Exactly the files that the arguments name are opened, each once, and those to be written are
    // taken back, the output first. If memory runs out before, none is opened. If the arguments
    // request nothing, the store is unchanged.
    ensures opened { OpensAsked (texts words.now) (S.opened store.old) (S.opened store.new)
        (output_seen E.held E.has_failed err.old err.new) result }
    ensures unopened { AsksNothing (texts words.now) → store.new ≡ store.old }
{
    match read_words(resources.alloc, words) {
        Ok(request) => run(resources, request, store, out, err),
        Err(refusal) => refuse(refusal, out, err),
    }
}
