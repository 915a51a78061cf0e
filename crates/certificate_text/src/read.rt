//! Reading certificates.

ghost use Rattle.std.specs.Prelude.{◌≡◌, IfOk, IfErr, MatchResult, MatchBool};
ghost use Rattle.value_equality.specs.TableViews.{table_of};
ghost use Rattle.certificate_text.specs.Texts.{IsCertificate};
ghost use Rattle.certificate_text.specs.Faults.{IsCertificateFaultOf, IsOld};
ghost use Rattle.certificate_text.specs.steps.ComputedParts.{IsFresh, IsRefusal};
ghost use Rattle.certificate_text.specs.declared.reader.Part.TheVariants.{Opening};

use crate::fault::CertFault;
use crate::reader::{Part, Reader, take_line};
use memchr::memchr;
use std::alloc::{AllocError, Global};
use value_equality::table::Table;

/// The least number of bytes of a member's lines, such as `#1=C0`, in both tables.
const MEMBER_BYTES: usize = 12;

/// Reads a certificate of version 2. Returns its two tables, with their classes and members in the
/// order of their lines.
///
/// The tables are well formed: the parent of a class has a smaller number and began before the
/// class, each class begins by the last round, and the class of each member exists. A name may
/// occur twice among the members.
///
/// `members` is the expected number of members of each table, for which room is reserved, as far as
/// a text of this length can have them. Any other number of members gives the same result, unless
/// memory runs out. The caller has to check the limit of 2^40 bytes.
///
/// # Errors
///
/// - `OldVersion` (C6) if the first line is `STEPCERT 1` and a line feed ends it,
/// - `BadText` (C1) if the text is no certificate otherwise: its line, counted from 1, is the first
///   with which no certificate continues,
/// - `Memory` if memory runs out.
pub fn read_certificate(
    alloc: Global,
    text: &[u8],
    members: usize,
) -> Result<(Table, Table), CertFault>
    ensures tables { IfOk result (λ p. IsCertificate text.now (table_of p.0) (table_of p.1)) }
    ensures fault { IfErr result (IsCertificateFaultOf text.now) }
{
    if is_old(text) {
        return Err(CertFault::OldVersion);
    }
    let members = members.min(text.len() / MEMBER_BYTES);
    let mut reader = Reader {
        part: Part::Opening,
        first: empty_table(alloc, members)?,
        second: empty_table(alloc, members)?,
    };
    read_lines(&mut reader, text)?;
    Ok((reader.first, reader.second))
}

/// Whether the first line is that of version 1, and a line feed ends it.
fn is_old(text: &[u8]) -> bool
    ensures { MatchBool result (IsOld text.now) (IsOld text.now → ⊥) }
{
    text.strip_prefix(b"STEPCERT 1\n").is_some()
}

/// Returns a table of which nothing is read yet, with room for this number of members.
fn empty_table(alloc: Global, members: usize) -> Result<Table, AllocError>
    ensures { IfOk result IsFresh }
{
    Ok(Table {
        rounds: 0,
        classes: Vec::new(alloc),
        members: Vec::with_capacity(alloc, members)?,
    })
}

/// Reads all lines of a text.
fn read_lines(reader: &mut Reader, text: &[u8]) -> Result<(), CertFault>
    requires { (reader.old.part ≡ Opening) × IsFresh reader.old.first × IsFresh reader.old.second }
    ensures { MatchResult result
        (λ _. IsCertificate text.now (table_of reader.new.first) (table_of reader.new.second))
        (IsRefusal text.now) }
{
    let _bytes = text.len();
    let mut rest = text;
    let mut line = 1u64;
    while let Some(at) = memchr(b'\n', rest) {
        let (front, back) = rest.split_at(at);
        let taken = take_line(reader, front)?;
        if !taken {
            return Err(CertFault::BadText { line });
        }
        let (_, next) = back.split_at(1);
        rest = next;
        line += 1;
    }
    if !rest.is_empty() {
        return Err(CertFault::BadText { line });
    }
    let Part::Ended = reader.part else {
        return Err(CertFault::BadText { line });
    };
    Ok(())
}
