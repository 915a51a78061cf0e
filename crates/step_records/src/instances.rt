//! The instances of a section, read from tokens (ISO 10303-21, 11).

ghost use Rattle.std.specs.Prelude.{◌≡◌, false, codes, MatchResult};
ghost use Rattle.step_structures.specs.Words.{located};
ghost use Rattle.step_structures.specs.steps.Predict;
ghost use Rattle.step_records.specs.steps.Readers.{reading};
ghost use Rattle.step_records.specs.steps.Instances.{
  IsNextName,
  HasNoName,
  TakesRows,
  StopsInRows,
};

use crate::names::Names;
use crate::reader::Reader;
use crate::records::row;
use crate::tokens::{expect, fault_at, is_word, refuse, take};
use std::alloc::Global;
use std::hash::RandomState;
use step_lexer::token::{Mark, Sort, Token};
use step_structures::fault::{FaultKind, LeftOut, TextFault};

/// The greatest number of instances.
const INSTANCES: usize = 0xFFFF_FFFF;

/// Returns the name of the next instance.
///
/// # Errors
///
/// - E6 or E8 if the token isn't an instance name
/// - E7 if the name is in `names` already
/// - E8 if there are too many instances
/// - `Memory` if memory runs out
fn next_name(names: &mut Names, token: Token<'_>) -> Result<u64, TextFault>
    requires { Predict.is_word (codes "ENDSEC") (located token).lookahead ≡ false }
    ensures same { names.new ≡ names.old }
    ensures name { MatchResult result
        (λ n. IsNextName names.old (located token.entry) n)
        (λ e. HasNoName names.old (located token.entry) e) }
{
    let Sort::Name(name) = token.sort else {
        return Err(refuse(token));
    };
    if names.contains(name)? {
        return Err(fault_at(FaultKind::DuplicateName, token));
    }
    if names.len() >= INSTANCES {
        return Err(fault_at(FaultKind::LeftOut(LeftOut::TooMany), token));
    }
    Ok(name)
}

/// Reads the instances of a section up to its end, and keeps their trees. `names` has the names of
/// all instances before, and gets those of this section.
pub fn rows(
    alloc: Global,
    keys: RandomState,
    reader: &mut Reader<'_>,
    names: &mut Names,
) -> Result<(), TextFault>
    ensures { MatchResult result
        (λ _. TakesRows names.old names.new reader.old reader.new)
        (λ e. StopsInRows e names.old (reading reader.old)) }
{
    loop {
        let token = take(reader)?;
        if is_word(token, b"ENDSEC") {
            expect(reader, Mark::Semicolon)?;
            return Ok(());
        }
        let name = next_name(names, token)?;
        row(alloc, keys, reader)?;
        names.push(name)?;
    }
}
