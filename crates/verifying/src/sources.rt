//! Verifying an output, from the text of a schema and three sources.

ghost use Rattle.std.specs.Prelude.{◌≡◌, false, MatchResult};
ghost use Rattle.merge_choices.specs.ChosenEntities.{choice_of};
ghost use Rattle.files.specs.Stores.{reader_seen};
ghost use Rattle.files.specs.declared.fault.Role.TheVariants as roles;
ghost use Rattle.reports.specs.Devices.{is_device};
ghost use Rattle.verifying.specs.Sources.{
  TextsAreRead,
  FirstUnread,
  IsWholeText,
  IsUnread,
  VerifiesAll,
  given,
};
ghost use Rattle.verifying.specs.Verifying.{Verifies};

use crate::proof::Proof;
use crate::verify::verify;
use devices::device::Source;
use files::fault::{LIMIT, Role};
use files::read::read_whole;
use merge_choices::choice::Choice;
use reports::fault::{Fault, too_large, unread};
use resources::Resources;
use std::alloc::Global;

/// The texts of the three sources.
#[derive(Drop)]
struct Texts {
    file: Vec<u8>,
    smaller: Vec<u8>,
    certificate: Vec<u8>,
}

/// Reads `source`, a file in `role`, to its end and returns all its bytes.
///
/// # Errors
/// - `Device` if the source fails.
/// - `Schema` or `Text` (by role) with `TooLarge` if more than 2^40 bytes come.
/// - `Memory` if memory runs out.
pub fn read<'s, S: Source>(alloc: Global, role: Role, source: &mut S) -> Result<Vec<u8>, Fault<'s>>
    ensures read { MatchResult result
        (λ bytes. IsWholeText (reader_seen S.to_come S.fails source.old) bytes.items)
        (IsUnread role (reader_seen S.to_come S.fails source.old)) }
    ensures failed { S.has_failed source.old ≡ false
        → S.has_failed source.new ≡ is_device role result }
{
    match read_whole(alloc, source, LIMIT) {
        Ok(bytes) => Ok(bytes),
        Err(fault) => Err(unread(role, fault)),
    }
}

/// Reads three files to their ends, if the schema isn't too large.
fn read_all<'s, F: Source, W: Source, C: Source>(
    alloc: Global,
    schema: &[u8],
    file: &mut F,
    output: &mut W,
    certificate: &mut C,
) -> Result<Texts, Fault<'s>>
    ensures read { MatchResult result
        (λ texts. TextsAreRead (given schema.now) (reader_seen F.to_come F.fails file.old)
        (reader_seen W.to_come W.fails output.old) (reader_seen C.to_come C.fails certificate.old)
        schema.now texts.file.items texts.smaller.items texts.certificate.items)
        (FirstUnread (given schema.now) (reader_seen F.to_come F.fails file.old)
        (reader_seen W.to_come W.fails output.old)
        (reader_seen C.to_come C.fails certificate.old)) }
    ensures no_schema_fault { is_device roles.Schema result ≡ false }
    ensures file_failed { F.has_failed file.old ≡ false
        → F.has_failed file.new ≡ is_device roles.File result }
    ensures output_failed { W.has_failed output.old ≡ false
        → W.has_failed output.new ≡ is_device roles.Output result }
    ensures certificate_failed { C.has_failed certificate.old ≡ false
        → C.has_failed certificate.new ≡ is_device roles.Certificate result }
{
    if schema.len() as u64 > LIMIT {
        return Err(too_large(Role::Schema));
    }
    let file = read(alloc, Role::File, file)?;
    let smaller = read(alloc, Role::Output, output)?;
    let certificate = read(alloc, Role::Certificate, certificate)?;
    Ok(Texts {
        file,
        smaller,
        certificate,
    })
}

/// Verifies an output, from its texts.
fn verify_texts<'s>(
    resources: Resources,
    schema: &'s [u8],
    choice: &Choice,
    texts: Texts,
) -> Result<Proof, Fault<'s>>
    ensures { Verifies schema.now texts.file.items texts.smaller.items
        texts.certificate.items (choice_of choice.now) result }
{
    let Texts {
        file,
        smaller,
        certificate,
    } = texts;
    verify(resources, schema, &file, &smaller, choice, certificate)
}

/// Tests whether a certificate proves an output, as [`verify`] does, from the text of a schema and
/// three sources. The sources are read to their ends in this order: input, output, certificate.
///
/// Names and keys of rules are hashed with the keys of `resources`.
///
/// # Errors
/// The first of these:
///
/// - `Schema` if the schema is larger than 2^40 bytes.
/// - For each source in turn: `Device` if it fails, `Text` if it has more than 2^40 bytes.
/// - What [`verify`] returns for the texts.
///
/// `Memory` if memory runs out, at any time.
pub fn verify_files<'s, F: Source, W: Source, C: Source>(
    resources: Resources,
    schema: &'s [u8],
    choice: &Choice,
    file: &mut F,
    output: &mut W,
    certificate: &mut C,
) -> Result<Proof, Fault<'s>>
    // The result is the one that the four texts and the choice have.
    ensures verifies { VerifiesAll (choice_of choice.now) (given schema.now)
        (reader_seen F.to_come F.fails file.old)
        (reader_seen W.to_come W.fails output.old)
        (reader_seen C.to_come C.fails certificate.old) result }
    // The fault is that of a device exactly if the device failed.
    ensures no_schema_fault { is_device roles.Schema result ≡ false }
    ensures file_failed { F.has_failed file.old ≡ false
        → F.has_failed file.new ≡ is_device roles.File result }
    ensures output_failed { W.has_failed output.old ≡ false
        → W.has_failed output.new ≡ is_device roles.Output result }
    ensures certificate_failed { C.has_failed certificate.old ≡ false
        → C.has_failed certificate.new ≡ is_device roles.Certificate result }
{
    match read_all(resources.alloc, schema, file, output, certificate) {
        Ok(texts) => verify_texts(resources, schema, choice, texts),
        Err(fault) => Err(fault),
    }
}
