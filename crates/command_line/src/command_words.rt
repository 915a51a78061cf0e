//! The arguments of a command line.

ghost use Rattle.std.specs.Prelude.{
  ◌≡◌,
  ◌∷◌,
  [],
  ℕ,
  List,
  Some,
  false,
  IfOk,
  IfErr,
  IfSome,
  codes,
  is_some,
  length,
  option_map,
  true,
};
ghost use Rattle.std.specs.IoError.{error_kind};
ghost use Rattle.clap.specs.Matches.{subcommand_name_of};
ghost use Rattle.clap.specs.Simple.{app_of, subcommand_rows_of};
ghost use Rattle.clap.specs.Walk.{rule_of};
ghost use Rattle.clap.specs.declared.builder.command.Command.TheViews.{out-Command};
ghost use Rattle.clap.specs.Values.{kind_of};
ghost use Rattle.std.specs.declared.io.ErrorKind.TheVariants.{OutOfMemory};
ghost use Rattle.command_line.specs.Clap.{
  HasValues,
  alias_rule,
  check_app,
  file_rule,
  plain_app,
  presets_app,
  schema_rule,
  stepmin_app,
};
ghost use Rattle.command_line.specs.Commands.{
  Given,
  IsAskedFor,
  TakesOptions,
  check_command,
  given_as,
  no_options,
  plain_command,
  texts,
};
ghost use Rattle.command_line.specs.steps.Options.{text_of};
ghost use Rattle.command_line.specs.steps.AskedMerges.{check_given};
ghost use Rattle.command_line.specs.Requests.{
  AskFor,
  CallFor,
  CallsFor,
  SaysUsage,
  Settles,
  is_shown,
};
ghost use Rattle.command_line.specs.declared.command_words.Refusal.TheVariants.{Memory};

use crate::merge_words::{
    ShrinkRequest, VerifyRequest, name_clash, shrink, shrink_clash, shrink_in, verify,
    verify_clash, verify_in,
};
use clap::error::ErrorKind;
use clap::{Arg, ArgAction, ArgMatches, Command, Error};
use std::alloc::{AllocError, Global};
use std::io;

// The version of the program, which `--version` shows.
const VERSION: &str = "0.1.0";

// The meaning of each exit status, at the end of the help text.
const STATUSES: &str = "Exit status:\n  \
    0  success\n  \
    1  the file breaks its schema, or --strict refuses the schema\n  \
    2  a text isn't a STEP file, schema or certificate, or the schema lacks a name in NAMES\n  \
    3  the arguments are wrong\n  \
    4  a file or an output can't be read or written\n  \
    5  out of memory\n  \
    6  the certificate doesn't prove OUT";

// An example, at the end of the help text of `plain`.
const PLAIN_HELP: &str = "Example:\n  \
    stepmin plain part.stp > plain.stp";

// An example, at the end of the help text of `check`.
const CHECK_HELP: &str = "Example:\n  \
    stepmin check ap214.exp part.stp";

/// The arguments of `check`.
#[derive(Clone, Copy, Debug, PartialEq, Eq)]
pub struct CheckRequest<'p> {
    /// The path of the schema.
    pub schema: &'p str,
    /// The path of the file that is checked.
    pub file: &'p str,
    /// The names by which FILE may call the schema beside its own; commas separate them, and none
    /// is empty.
    pub schema_alias: Option<&'p str>,
}

/// What the arguments request.
#[derive(Clone, Copy, Debug, PartialEq, Eq)]
pub enum Request<'p> {
    /// `plain`: the normal text of the file at this path.
    Plain(&'p str),
    /// `check`: whether a file conforms to a schema.
    Check(CheckRequest<'p>),
    /// `shrink`: a smaller file and its certificate.
    Shrink(ShrinkRequest<'p>),
    /// `verify`: whether a certificate proves a smaller file.
    Verify(VerifyRequest<'p>),
    /// `presets`: what each preset of `--merge` has.
    Presets,
}

/// Why the arguments don't lead to a command.
#[derive(Drop)]
pub enum Refusal {
    /// Help or the version was requested; this is the text.
    Shown(String),
    /// Invalid arguments, with a message and usually the usage.
    Usage(String),
    /// Memory ran out.
    Memory,
}

impl From<AllocError> for Refusal {
    ghost from_gives = { λ _ result. result ≡ Memory };

    fn from(_: AllocError) -> Refusal {
        Refusal::Memory
    }
}

// Returns the argument FILE.
pub(crate) fn file<'a>(alloc: Global) -> Arg<'a>
    ensures rule { rule_of result ≡ file_rule }
    ensures local { result.global ≡ false }
{
    Arg::new(alloc, "FILE")
        .required(true)
        .action(ArgAction::Set)
        .help("The file that is read")
}

// Returns the argument SCHEMA.
pub(crate) fn schema<'a>(alloc: Global) -> Arg<'a>
    ensures rule { rule_of result ≡ schema_rule }
    ensures local { result.global ≡ false }
{
    Arg::new(alloc, "SCHEMA")
        .required(true)
        .action(ArgAction::Set)
        .help("The schema that it is checked against")
}

// Returns the option `--schema-alias`.
pub(crate) fn schema_alias<'a>(alloc: Global) -> Arg<'a>
    ensures rule { rule_of result ≡ alias_rule }
    ensures local { result.global ≡ false }
{
    Arg::new(alloc, "schema-alias")
        .long("schema-alias")
        .value_name("NAMES")
        .action(ArgAction::Set)
        .help("Other names by which FILE may call the schema")
}

// Returns the command `plain`.
fn plain<'a>(alloc: Global) -> Result<Command<'a>, AllocError>
    ensures app { IfOk result (λ command. app_of command ≡ plain_app) }
    ensures local { IfOk result (λ command. (out-Command command).has_globals ≡ false) }
{
    Command::new(alloc, "plain")
        .about("Writes the normal text of a STEP file")
        .after_help(PLAIN_HELP)
        .arg(file(alloc))
}

// Returns the command `check`.
fn check<'a>(alloc: Global) -> Result<Command<'a>, AllocError>
    ensures app { IfOk result (λ command. app_of command ≡ check_app) }
    ensures local { IfOk result (λ command. (out-Command command).has_globals ≡ false) }
{
    Command::new(alloc, "check")
        .about("Reports where a STEP file breaks its schema")
        .after_help(CHECK_HELP)
        .arg(schema(alloc))?
        .arg(file(alloc))?
        .arg(schema_alias(alloc))
}

// Returns the command `presets`.
fn presets<'a>(alloc: Global) -> Command<'a>
    ensures app { app_of result ≡ presets_app }
    ensures local { (out-Command result).has_globals ≡ false }
{
    Command::new(alloc, "presets").about("Lists the presets of --merge, and what each has")
}

// Returns the command line as clap parses it.
fn stepmin<'a>(alloc: Global) -> Result<Command<'a>, AllocError>
    ensures { IfOk result (λ command. app_of command ≡ stepmin_app) }
{
    let plain = plain(alloc)?;
    let check = check(alloc)?;
    let shrink = shrink(alloc)?;
    let verify = verify(alloc)?;
    Command::new(alloc, "stepmin")
        .about("Checks STEP files (ISO 10303-21), and makes them smaller")
        .version(VERSION)
        .after_help(STATUSES)
        .subcommand_required(true)
        .subcommand(plain)?
        .subcommand(check)?
        .subcommand(shrink)?
        .subcommand(verify)?
        .subcommand(presets(alloc))
}

// Returns the FILE of `plain`, if that is the command.
fn path_in<'p>(matches: &ArgMatches<'p>) -> Option<&'p str>
    ensures file { (path : List ℕ)
        → HasValues (subcommand_rows_of matches.now) plain_command (given_as (path ∷ []) no_options)
        → option_map (λ text. text.now) result ≡ Some path }
    ensures command { IfSome result
        (λ _. subcommand_name_of matches.now ≡ Some (codes "plain")) }
{
    matches.subcommand_matches("plain")?.get_str("FILE")
}

// Returns the arguments of `check`, if that is the command.
fn check_in<'p>(matches: &ArgMatches<'p>) -> Option<CheckRequest<'p>>
    ensures command { IfSome result
        (λ _. subcommand_name_of matches.now ≡ Some (codes "check")) }
    ensures values { (all : Given) → length all.operands ≡ 2
        → TakesOptions check_command all.options
        → HasValues (subcommand_rows_of matches.now) check_command all
        → IfSome result (λ asked. check_given asked ≡ all) }
    ensures found { (all : Given) → length all.operands ≡ 2
        → HasValues (subcommand_rows_of matches.now) check_command all
        → is_some result ≡ true }
{
    let found = matches.subcommand_matches("check")?;
    let schema = found.get_str("SCHEMA")?;
    let file = found.get_str("FILE")?;
    Some(CheckRequest {
        schema,
        file,
        schema_alias: found.get_str("schema-alias"),
    })
}

// Whether the command is `presets`.
fn is_presets(matches: &ArgMatches<'_>) -> bool
    ensures { result ≡ true → subcommand_name_of matches.now ≡ Some (codes "presets") }
{
    match matches.subcommand_matches("presets") {
        Some(_) => true,
        None => false,
    }
}

// Whether clap's error isn't a mistake, but a text that was requested.
fn is_shown(kind: ErrorKind) -> bool
    ensures { result ≡ is_shown kind }
{
    matches!(kind, ErrorKind::DisplayHelp | ErrorKind::DisplayVersion)
}

// Returns the refusal for clap's error.
fn refused(alloc: Global, error: Error) -> Refusal
    ensures memory { kind_of error ≡ ErrorKind.OutOfMemory → result ≡ Memory }
    ensures kind { CallsFor (kind_of error) result }
{
    let kind = error.kind();
    if kind == ErrorKind::OutOfMemory {
        return Refusal::Memory;
    }
    match error.to_string(alloc) {
        Err(_) => Refusal::Memory,
        Ok(text) if is_shown(kind) => Refusal::Shown(text),
        Ok(text) => Refusal::Usage(text),
    }
}

// Returns the refusal with a message of the program's own.
fn usage(alloc: Global, text: &str) -> Refusal
    ensures { SaysUsage text.now result }
{
    match String::from_str(alloc, text) {
        Ok(text) => Refusal::Usage(text),
        Err(_) => Refusal::Memory,
    }
}

// Returns `asked`, or the refusal with the message `said`, if any.
fn settled<'p>(
    alloc: Global,
    said: Option<&str>,
    asked: Request<'p>,
) -> Result<Request<'p>, Refusal>
    ensures { Settles (text_of said.entry) asked.entry result }
{
    match said {
        Some(text) => Err(usage(alloc, text)),
        None => Ok(asked),
    }
}

/// Returns the refusal if the system can't deliver the arguments: `Memory` if memory ran out,
/// otherwise `Usage`, as for an argument that isn't text.
pub fn unread_words(alloc: Global, error: &io::Error) -> Refusal
    ensures memory { error_kind error.now ≡ OutOfMemory → result ≡ Memory }
    ensures usage { SaysUsage (codes "error: an argument is not text\n") result }
{
    if error.kind() == io::ErrorKind::OutOfMemory {
        return Refusal::Memory;
    }
    usage(alloc, "error: an argument is not text\n")
}

/// Returns what the arguments request. The first of `words` is the program's own name.
///
/// # Errors
/// - `Shown` for `--help`, `help` and `--version`.
/// - `Usage` if the arguments aren't a command, OUT or CERT equals SCHEMA, CERT equals FILE or OUT,
///   a name after `--merge` or `--schema-alias` is empty, or a name after `--merge` begins with `@`
///   and isn't that of a preset.
/// - `Memory` if memory runs out.
pub fn read_words<'p>(alloc: Global, words: &'p [String]) -> Result<Request<'p>, Refusal>
    ensures asked { IfOk result (AskFor (texts words.now)) }
    ensures refused { IfErr result (CallFor (texts words.now)) }
    // Arguments that request something are refused only if memory runs out.
    ensures granted { IsAskedFor (texts words.now)
        → IfErr result (λ refusal. refusal ≡ Memory) }
{
    let matches = match stepmin(alloc)?.try_get_matches_from(words) {
        Ok(matches) => matches,
        Err(error) => return Err(refused(alloc, error)),
    };
    if let Some(path) = path_in(&matches) {
        return Ok(Request::Plain(path));
    }
    if let Some(asked) = check_in(&matches) {
        let said = name_clash(None, asked.schema_alias);
        return settled(alloc, said, Request::Check(asked));
    }
    if let Some(asked) = shrink_in(&matches) {
        let said = shrink_clash(&asked);
        return settled(alloc, said, Request::Shrink(asked));
    }
    if let Some(asked) = verify_in(&matches) {
        let said = verify_clash(&asked);
        return settled(alloc, said, Request::Verify(asked));
    }
    if is_presets(&matches) {
        return Ok(Request::Presets);
    }
    // clap accepts no such arguments.
    Err(Refusal::Memory)
}
