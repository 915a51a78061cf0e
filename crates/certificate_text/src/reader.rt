//! Reading a certificate line by line.

ghost use Rattle.std.specs.Prelude.{◌≡◌, ◌<◌, ◌^◌, ℕ, IfOk, IsTrue, ◌↔◌, MatchBool};
ghost use Rattle.value_equality.specs.Tables as tables;
ghost use Rattle.value_equality.specs.TableViews.{origin_of, table_of};
ghost use Rattle.certificate_text.specs.steps.ComputedParts.{
  Adds,
  AddsClass,
  AddsMember,
  Fits,
  Reading,
  Takes,
  reading_of,
  with_rounds,
};
ghost use Rattle.certificate_text.specs.Texts.{rounds_line};

use crate::lines::{member_of_line, origin_of_line, rounds_of};
use std::alloc::AllocError;
use value_equality::table::{Origin, Table};

/// The next part of a certificate.
#[derive(Clone, Copy, Debug, PartialEq, Eq)]
pub(crate) enum Part {
    /// The line of the version.
    Opening,
    /// The heading of the first table.
    Heading,
    /// The rounds of the first table.
    FirstRounds,
    /// Classes and members of the first table.
    First,
    /// The rounds of the second table.
    SecondRounds,
    /// Classes and members of the second table.
    Second,
    /// Nothing follows.
    Ended,
}

/// How far a certificate is read, with its tables so far.
#[derive(Drop)]
pub(crate) struct Reader {
    pub(crate) part: Part,
    pub(crate) first: Table,
    pub(crate) second: Table,
}

/// The greatest number of classes of a table.
const MOST_CLASSES: usize = 4_294_967_295;

/// Whether the next class of a table can have this origin.
fn fits(table: &Table, origin: &Origin) -> bool
    ensures { IsTrue result ↔ Fits (table_of table.now) (origin_of origin.now) }
{
    let Origin::Split { parent, round } = *origin else {
        return true;
    };
    if round > table.rounds {
        return false;
    }
    match table.classes.get(parent as usize) {
        None => false,
        Some(Origin::Start) => 0 < round,
        Some(Origin::Split { round: since, .. }) => *since < round,
    }
}

/// Adds the class of a line. Returns whether the line is that of the next class.
fn take_class(table: &mut Table, line: &[u8]) -> Result<bool, AllocError>
    ensures { IfOk result (λ b. MatchBool b
        (AddsClass (table_of table.old) line.now (table_of table.new))
        ((u : tables.Table) → AddsClass (table_of table.old) line.now u → ⊥)) }
{
    if !table.members.is_empty() {
        return Ok(false);
    }
    if table.classes.len() >= MOST_CLASSES {
        return Ok(false);
    }
    let Some(origin) = origin_of_line(line, table.classes.len() as u32) else {
        return Ok(false);
    };
    if !fits(table, &origin) {
        return Ok(false);
    }
    table.classes.push(origin)?;
    Ok(true)
}

/// Adds the member of a line. Returns whether the line is that of a member.
fn take_member(table: &mut Table, line: &[u8]) -> Result<bool, AllocError>
    ensures { IfOk result (λ b. MatchBool b
        (AddsMember (table_of table.old) line.now (table_of table.new))
        ((u : tables.Table) → AddsMember (table_of table.old) line.now u → ⊥)) }
{
    let Some(member) = member_of_line(line) else {
        return Ok(false);
    };
    if member.1 as usize >= table.classes.len() {
        return Ok(false);
    }
    table.members.push(member)?;
    Ok(true)
}

/// Adds the class or the member of a line. Returns whether the line is that of one.
fn take_entry(table: &mut Table, line: &[u8]) -> Result<bool, AllocError>
    ensures { IfOk result (λ b. MatchBool b
        (Adds (table_of table.old) line.now (table_of table.new))
        ((u : tables.Table) → Adds (table_of table.old) line.now u → ⊥)) }
{
    match line.first() {
        Some(b'C') => {
            let taken = take_class(table, line)?;
            Ok(taken)
        }
        Some(b'#') => {
            let taken = take_member(table, line)?;
            Ok(taken)
        }
        _ => Ok(false),
    }
}

/// Reads the last round of a table and moves on to the next part. Returns whether the line has the
/// round.
fn take_rounds(part: &mut Part, table: &mut Table, line: &[u8], next: Part) -> bool
    ensures { MatchBool result
        ((k : ℕ) × (k < 2 ^ 32) × (line.now ≡ rounds_line k) × (part.new ≡ next)
        × (table_of table.new ≡ with_rounds (table_of table.old) k))
        ((k : ℕ) → k < 2 ^ 32 → line.now ≡ rounds_line k → ⊥) }
{
    let Some(rounds) = rounds_of(line) else {
        return false;
    };
    table.rounds = rounds;
    *part = next;
    true
}

/// Reads a line. Returns whether a certificate can continue with it.
pub(crate) fn take_line(reader: &mut Reader, line: &[u8]) -> Result<bool, AllocError>
    ensures { IfOk result (λ b. MatchBool b
        (Takes (reading_of reader.old) line.now (reading_of reader.new))
        ((u : Reading) → Takes (reading_of reader.old) line.now u → ⊥)) }
{
    match reader.part {
        Part::Opening => Ok(pass(&mut reader.part, line, b"STEPCERT 2", Part::Heading)),
        Part::Heading => Ok(pass(&mut reader.part, line, b"table 1", Part::FirstRounds)),
        Part::FirstRounds => Ok(take_rounds(
            &mut reader.part,
            &mut reader.first,
            line,
            Part::First,
        )),
        Part::First => {
            if pass(&mut reader.part, line, b"table 2", Part::SecondRounds) {
                return Ok(true);
            }
            let taken = take_entry(&mut reader.first, line)?;
            Ok(taken)
        }
        Part::SecondRounds => Ok(take_rounds(
            &mut reader.part,
            &mut reader.second,
            line,
            Part::Second,
        )),
        Part::Second => {
            if pass(&mut reader.part, line, b"end", Part::Ended) {
                return Ok(true);
            }
            let taken = take_entry(&mut reader.second, line)?;
            Ok(taken)
        }
        Part::Ended => Ok(false),
    }
}

/// Moves on to the next part, if the line is this word. Returns whether it is.
fn pass(part: &mut Part, line: &[u8], word: &[u8], next: Part) -> bool
    ensures { MatchBool result
        ((line.now ≡ word.now) × (part.new ≡ next))
        ((line.now ≡ word.now → ⊥) × (part.new ≡ part.old)) }
{
    if line != word {
        return false;
    }
    *part = next;
    true
}
