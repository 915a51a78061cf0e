//! FILE_SCHEMA, the record of the header that names the schema (ISO 10303-21, 8.2.4).

ghost use Rattle.std.specs.Prelude.{◌≡◌, ◌↔◌, [], ◌∷◌, length, IsTrue};
ghost use Rattle.std.specs.Prelude.{MatchResult, MatchOption};
ghost use Rattle.step_structures.specs.Fits.{NamesSchema};
ghost use Rattle.step_records.specs.steps.Readers.{reading};
ghost use Rattle.step_exchange.specs.Views.{record_in};
ghost use Rattle.step_exchange.specs.steps.Steps.{StopsAtSchema};
ghost use Rattle.step_exchange.specs.steps.Keeping.{KeepsSchema};

use crate::header::head;
use step_lexer::token::Mark;
use step_records::param::{Node, Param, Params};
use step_records::reader::Reader;
use step_records::tokens::{is_mark, refuse, take};
use step_structures::fault::{FaultKind, TextFault};

/// Returns the parameter, if there is exactly one.
fn only<'a, 't>(params: &Params<'a, 't>) -> Option<Param<'a, 't>>
    ensures { MatchOption result
        (length params.now ≡ 1 → ⊥)
        (λ x. params.now ≡ x ∷ []) }
{
    if params.len() == 1 {
        Some(params.at(0))
    } else {
        None
    }
}

/// Whether a record has exactly one parameter, which is a list of one string.
fn names_schema(line: &Param<'_, '_>) -> bool
    ensures { IsTrue result ↔ NamesSchema (record_in line.now).values }
{
    let (_, values) = line.parts().split(1);
    let Some(value) = only(&values) else {
        return false;
    };
    let Node::List(names) = value.node() else {
        return false;
    };
    let Some(name) = only(&names) else {
        return false;
    };
    matches!(name.node(), Node::Text(_))
}

/// Reads and keeps FILE_SCHEMA, which must name exactly one schema, and reads its semicolon.
pub fn schema(reader: &mut Reader<'_>) -> Result<(), TextFault>
    ensures { MatchResult result
        (λ _. KeepsSchema reader.old reader.new)
        (λ e. StopsAtSchema e (reading reader.old)) }
{
    let before = reader.kept_len();
    let place = head(reader, b"FILE_SCHEMA")?;
    let end = take(reader)?;
    if !is_mark(end, Mark::Semicolon) {
        return Err(refuse(end));
    }
    if !names_schema(&reader.kept().at(before)) {
        return Err(TextFault::Fault {
            kind: FaultKind::HeaderFault,
            place,
        });
    }
    Ok(())
}
