//! The arguments of the commands that merge equal instances and that verify such a merge.

ghost use Rattle.std.specs.Prelude.{
  ◌≡◌,
  ◌==◌,
  ◌∷◌,
  [],
  IfOk,
  IfSome,
  Some,
  codes,
  false,
  get_or,
  length,
  map,
  string_bytes,
};
ghost use Rattle.clap.specs.Matches.{found_of, subcommand_name_of};
ghost use Rattle.clap.specs.Simple.{app_of, subcommand_rows_of};
ghost use Rattle.clap.specs.Walk.{rows_of, rule_of};
ghost use Rattle.clap.specs.declared.builder.command.Command.TheViews.{out-Command};
ghost use Rattle.command_line.specs.Clap.{
  HasGiven,
  HasValues,
  certificate_rule,
  in_sets_rule,
  merge_rule,
  merging_app,
  output_rule,
  reading_app,
  shrink_app,
  strict_rule,
  verify_app,
  writing_app,
};
ghost use Rattle.command_line.specs.Commands.{
  Given,
  TakesOptions,
  clash,
  has_empty_name,
  has_unknown_preset,
  is_preset,
  is_same_word,
  is_unknown_preset,
  name_clash,
  path_clash,
  pieces,
  shrink_command,
  verify_command,
};
ghost use Rattle.command_line.specs.steps.Options.{text_of};
ghost use Rattle.command_line.specs.steps.AskedMerges.{merging_given, shrink_given, verify_given};

use crate::command_words::{file, schema, schema_alias};
use clap::{Arg, ArgAction, ArgMatches, Command};
use std::alloc::{AllocError, Global};

// What NAMES and `--in-sets` mean, and examples, at the end of the help text of `shrink`.
const SHRINK_HELP: &str = "NAMES are names of entities and presets, with commas between:\n  \
    @points    points, directions, vectors and placements\n  \
    @styles    colours and styles\n  \
    @geometry  @points, curves and surfaces, but no topology\n  \
    @all       all entities of the schema, also what a designer may mean as two things\n\n\
    --in-sets usually merges more. Rules of the schema that aren't checked protect less.\n\n\
    Examples:\n  \
    stepmin shrink ap214.exp part.stp small.stp small.cert\n  \
    stepmin shrink ap214.exp part.stp part.stp part.cert --merge @points,@styles --in-sets";

// What the options have to be, and an example, at the end of the help text of `verify`.
const VERIFY_HELP: &str = "--merge and --in-sets have to be those of `shrink`.\n\n\
    Example:\n  \
    stepmin verify ap214.exp part.stp small.stp small.cert";

/// The arguments of `shrink`.
#[derive(Clone, Copy, Debug, PartialEq, Eq)]
pub struct ShrinkRequest<'p> {
    /// The path of the schema.
    pub schema: &'p str,
    /// The path of the file that is read.
    pub file: &'p str,
    /// The path of the smaller file. It may be that of the file that is read, but not that of the
    /// schema.
    pub output: &'p str,
    /// The path of the certificate, different from the other three.
    pub certificate: &'p str,
    /// The names of the entity data types whose instances may be merged, or of presets, which begin
    /// with `@`. Commas separate them, and none is empty. `None` stands for the usual entities.
    pub merge: Option<&'p str>,
    /// The names by which FILE may call the schema beside its own; commas separate them, and none
    /// is empty.
    pub schema_alias: Option<&'p str>,
    /// Whether an instance may be merged that stands alone in a SET or BAG.
    pub in_sets: bool,
    /// Whether a schema with unchecked parts is refused.
    pub strict: bool,
}

/// The arguments of `verify`.
#[derive(Clone, Copy, Debug, PartialEq, Eq)]
pub struct VerifyRequest<'p> {
    /// The path of the schema.
    pub schema: &'p str,
    /// The path of the file that was merged.
    pub file: &'p str,
    /// The path of the smaller file, different from that of the schema.
    pub output: &'p str,
    /// The path of the certificate, different from the other three.
    pub certificate: &'p str,
    /// The names of the entity data types whose instances may be merged, or of presets, which begin
    /// with `@`. Commas separate them, and none is empty. `None` stands for the usual entities.
    pub merge: Option<&'p str>,
    /// The names by which FILE may call the schema beside its own; commas separate them, and none
    /// is empty.
    pub schema_alias: Option<&'p str>,
    /// Whether an instance may be merged that stands alone in a SET or BAG.
    pub in_sets: bool,
}

// Returns the argument OUT.
fn output<'a>(alloc: Global) -> Arg<'a>
    ensures rule { rule_of result ≡ output_rule }
    ensures local { result.global ≡ false }
{
    Arg::new(alloc, "OUT")
        .required(true)
        .action(ArgAction::Set)
        .help("The smaller file; it may be FILE")
}

// Returns the argument CERT.
fn certificate<'a>(alloc: Global) -> Arg<'a>
    ensures rule { rule_of result ≡ certificate_rule }
    ensures local { result.global ≡ false }
{
    Arg::new(alloc, "CERT")
        .required(true)
        .action(ArgAction::Set)
        .help("The certificate, a file of its own")
}

// Returns the option `--merge`.
fn merge<'a>(alloc: Global) -> Arg<'a>
    ensures rule { rule_of result ≡ merge_rule }
    ensures local { result.global ≡ false }
{
    Arg::new(alloc, "merge")
        .long("merge")
        .value_name("NAMES")
        .action(ArgAction::Set)
        .help("Entities whose instances may be merged, or presets [default: @points]")
}

// Returns the option `--in-sets`.
fn in_sets<'a>(alloc: Global) -> Arg<'a>
    ensures rule { rule_of result ≡ in_sets_rule }
    ensures local { result.global ≡ false }
{
    Arg::new(alloc, "in-sets")
        .long("in-sets")
        .action(ArgAction::SetTrue)
        .help("Also merges an instance that stands alone in a SET or BAG")
}

// Returns the option `--strict`.
fn strict<'a>(alloc: Global) -> Arg<'a>
    ensures rule { rule_of result ≡ strict_rule }
    ensures local { result.global ≡ false }
{
    Arg::new(alloc, "strict")
        .long("strict")
        .action(ArgAction::SetTrue)
        .help("Refuses a schema that has unchecked parts")
}

// Returns a command with SCHEMA and FILE. `help` ends its help text.
fn reading<'a>(
    alloc: Global,
    name: &'a str,
    about: &'a str,
    help: &'a str,
) -> Result<Command<'a>, AllocError>
    ensures app { IfOk result (λ command. app_of command ≡ reading_app name.entry.now) }
    ensures local { IfOk result (λ command. (out-Command command).has_globals ≡ false) }
{
    Command::new(alloc, name)
        .about(about)
        .after_help(help)
        .arg(schema(alloc))?
        .arg(file(alloc))
}

// Returns a command with SCHEMA, FILE, OUT and CERT.
fn writing<'a>(
    alloc: Global,
    name: &'a str,
    about: &'a str,
    help: &'a str,
) -> Result<Command<'a>, AllocError>
    ensures app { IfOk result (λ command. app_of command ≡ writing_app name.entry.now) }
    ensures local { IfOk result (λ command. (out-Command command).has_globals ≡ false) }
{
    let command = reading(alloc, name, about, help)?;
    command.arg(output(alloc))?.arg(certificate(alloc))
}

// Returns a command with SCHEMA, FILE, OUT, CERT, `--merge`, `--schema-alias` and `--in-sets`.
fn merging<'a>(
    alloc: Global,
    name: &'a str,
    about: &'a str,
    help: &'a str,
) -> Result<Command<'a>, AllocError>
    ensures app { IfOk result (λ command. app_of command ≡ merging_app name.entry.now) }
    ensures local { IfOk result (λ command. (out-Command command).has_globals ≡ false) }
{
    let command = writing(alloc, name, about, help)?;
    let command = command.arg(merge(alloc))?;
    command.arg(schema_alias(alloc))?.arg(in_sets(alloc))
}

// Returns the command `shrink`.
pub(crate) fn shrink<'a>(alloc: Global) -> Result<Command<'a>, AllocError>
    ensures app { IfOk result (λ command. app_of command ≡ shrink_app) }
    ensures local { IfOk result (λ command. (out-Command command).has_globals ≡ false) }
{
    let command = merging(
        alloc,
        "shrink",
        "Writes a smaller file, in which equal instances are one, and its certificate",
        SHRINK_HELP,
    )?;
    command.arg(strict(alloc))
}

// Returns the command `verify`.
pub(crate) fn verify<'a>(alloc: Global) -> Result<Command<'a>, AllocError>
    ensures app { IfOk result (λ command. app_of command ≡ verify_app) }
    ensures local { IfOk result (λ command. (out-Command command).has_globals ≡ false) }
{
    merging(
        alloc,
        "verify",
        "Checks the certificate CERT of a smaller file OUT",
        VERIFY_HELP,
    )
}

// Returns the arguments of a command that has those of `verify`.
fn values_in<'p>(found: &ArgMatches<'p>) -> Option<VerifyRequest<'p>>
    ensures { (all : Given) → length all.operands ≡ 4
        → HasGiven (rows_of (found_of found.now)) verify_command all
        → IfSome result (λ asked. merging_given asked all.options.strict ≡ all) }
{
    let schema = found.get_str("SCHEMA")?;
    let file = found.get_str("FILE")?;
    let output = found.get_str("OUT")?;
    let certificate = found.get_str("CERT")?;
    Some(VerifyRequest {
        schema,
        file,
        output,
        certificate,
        merge: found.get_str("merge"),
        schema_alias: found.get_str("schema-alias"),
        in_sets: found.get_flag("in-sets"),
    })
}

// Returns the arguments of `shrink`: those that it shares with `verify`, and `strict`.
fn shrinking<'p>(asked: VerifyRequest<'p>, strict: bool) -> ShrinkRequest<'p>
    ensures { shrink_given result ≡ merging_given asked.entry strict }
{
    ShrinkRequest {
        schema: asked.schema,
        file: asked.file,
        output: asked.output,
        certificate: asked.certificate,
        merge: asked.merge,
        schema_alias: asked.schema_alias,
        in_sets: asked.in_sets,
        strict,
    }
}

// Returns the arguments of `shrink`, if that is the command.
pub(crate) fn shrink_in<'p>(matches: &ArgMatches<'p>) -> Option<ShrinkRequest<'p>>
    ensures values { (all : Given) → length all.operands ≡ 4
        → HasValues (subcommand_rows_of matches.now) shrink_command all
        → IfSome result (λ asked. shrink_given asked ≡ all) }
    ensures command { IfSome result
        (λ _. subcommand_name_of matches.now ≡ Some (codes "shrink")) }
{
    let found = matches.subcommand_matches("shrink")?;
    let asked = values_in(found)?;
    Some(shrinking(asked, found.get_flag("strict")))
}

// Returns the arguments of `verify`, if that is the command.
pub(crate) fn verify_in<'p>(matches: &ArgMatches<'p>) -> Option<VerifyRequest<'p>>
    ensures values { (all : Given) → length all.operands ≡ 4
        → TakesOptions verify_command all.options
        → HasValues (subcommand_rows_of matches.now) verify_command all
        → IfSome result (λ asked. verify_given asked ≡ all) }
    ensures command { IfSome result
        (λ _. subcommand_name_of matches.now ≡ Some (codes "verify")) }
{
    values_in(matches.subcommand_matches("verify")?)
}

// Whether one of the names is empty.
fn has_empty_name(merge: Option<&str>) -> bool
    ensures { result ≡ has_empty_name (text_of merge.entry) }
{
    match merge {
        None => false,
        Some(names) => names.split(',').any(|name| name.is_empty()),
    }
}

// Whether two words are equal, regardless of case.
fn is_same_word(word: &str, other: &str) -> bool
    ensures { result ≡ is_same_word word.now other.now }
{
    word.eq_ignore_ascii_case(other)
}

// Whether a word is the name of a preset.
fn is_preset(word: &str) -> bool
    ensures { result ≡ is_preset word.now }
{
    is_same_word(word, "@points")
        || is_same_word(word, "@styles")
        || is_same_word(word, "@geometry")
        || is_same_word(word, "@all")
}

// Whether a word begins with `@`.
fn begins_with_at(word: &str) -> bool
    ensures { result ≡ (get_or word.now 0 0 == 64) }
{
    match word.as_bytes().first() {
        Some(first) => *first == b'@',
        None => false,
    }
}

// Whether a word begins with `@`, and isn't the name of a preset.
fn is_unknown_preset(word: &str) -> bool
    ensures { result ≡ is_unknown_preset word.now }
{
    begins_with_at(word) && !is_preset(word)
}

// Whether one of the names begins with `@`, and isn't the name of a preset.
fn has_unknown_preset(merge: Option<&str>) -> bool
    ensures { result ≡ has_unknown_preset (text_of merge.entry) }
{
    match merge {
        None => false,
        Some(names) => names.split(',').any(|name| is_unknown_preset(name)),
    }
}

// Returns the message if two of the paths of a command that merges are equal.
fn path_clash(schema: &str, file: &str, output: &str, certificate: &str) -> Option<&'static str>
    ensures { text_of result ≡
        path_clash (schema.now ∷ file.now ∷ output.now ∷ certificate.now ∷ []) }
{
    if output == certificate {
        return Some("error: OUT and CERT are the same\n");
    }
    if schema == output {
        return Some("error: SCHEMA and OUT are the same\n");
    }
    if schema == certificate {
        return Some("error: SCHEMA and CERT are the same\n");
    }
    if file == certificate {
        return Some("error: FILE and CERT are the same\n");
    }
    None
}

// Returns the message if a name is empty, or a name of `--merge` is that of an unknown preset.
pub(crate) fn name_clash(merge: Option<&str>, schema_alias: Option<&str>) -> Option<&'static str>
    ensures { text_of result ≡ name_clash (text_of merge.entry) (text_of schema_alias.entry) }
{
    if has_empty_name(merge) {
        return Some("error: a name in NAMES is empty\n");
    }
    if has_empty_name(schema_alias) {
        return Some("error: a name in NAMES is empty\n");
    }
    if has_unknown_preset(merge) {
        return Some("error: a preset in NAMES isn't one of @points, @styles, @geometry, @all\n");
    }
    None
}

// Returns the message for arguments of `shrink` that are wrong although clap accepts them.
pub(crate) fn shrink_clash(asked: &ShrinkRequest<'_>) -> Option<&'static str>
    ensures { text_of result ≡ clash (shrink_given asked.now) }
{
    match path_clash(asked.schema, asked.file, asked.output, asked.certificate) {
        Some(said) => Some(said),
        None => name_clash(asked.merge, asked.schema_alias),
    }
}

// Returns the message for arguments of `verify` that are wrong although clap accepts them.
pub(crate) fn verify_clash(asked: &VerifyRequest<'_>) -> Option<&'static str>
    ensures { text_of result ≡ clash (verify_given asked.now) }
{
    match path_clash(asked.schema, asked.file, asked.output, asked.certificate) {
        Some(said) => Some(said),
        None => name_clash(asked.merge, asked.schema_alias),
    }
}

// Returns the pieces of a text between its commas.
fn cut(alloc: Global, text: &str) -> Result<Vec<&str>, AllocError>
    ensures { IfOk result (λ parts. map (λ part. part.now) parts.items ≡ pieces text.now) }
{
    text.split(',').collect(alloc)
}

// Returns owned copies of these texts.
fn owned(alloc: Global, texts: &[&str]) -> Result<Vec<String>, AllocError>
    ensures { IfOk result
        (λ owned. map string_bytes owned.items ≡ map (λ text. text.now) texts.now) }
{
    let mut owned = Vec::new(alloc);
    for text in texts {
        owned.push(String::from_str(alloc, text)?)?;
    }
    Ok(owned)
}

/// Returns the names in NAMES of `--merge` or `--schema-alias`: the pieces of the text between its
/// commas, with blanks kept.
pub fn names_between_commas(alloc: Global, names: &str) -> Result<Vec<String>, AllocError>
    ensures { IfOk result (λ parts. map string_bytes parts.items ≡ pieces names.now) }
{
    let parts = cut(alloc, names)?;
    owned(alloc, &parts)
}
