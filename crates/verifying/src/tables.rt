//! The tables of a certificate, judged by the input alone.

ghost use Rattle.std.specs.Prelude.{◌≡◌, ℕ, IfOk, List, MatchResult};
ghost use Rattle.std.specs.Bool.{OnTrue};
ghost use Rattle.certificate_text.specs.Texts.{IsCertificate};
ghost use Rattle.express_syntax.specs.Schemas.{Schema};
ghost use Rattle.conformance.specs.Choices.{MergeOptions};
ghost use Rattle.step_structures.specs.Trees.{File};
ghost use Rattle.value_equality.specs.Standard.{IsWellFormed};
ghost use Rattle.value_equality.specs.Tables.{IsValid};
ghost use Rattle.value_equality.specs.TableViews.{table_of};
ghost use Rattle.row_signatures.specs.steps.Signatures.{AreSignatures, none_pinned};
ghost use Rattle.population_pins.specs.PopulationPins.{is_pinned};
ghost use Rattle.verifying.specs.steps.ComputedPassing.{
  AreFaulty,
  AreKnown,
  AreValid,
  IsJudgement,
  IsReady,
  IsTableFault,
};

use crate::fault::TablesFault;
use certificate_checks::judge::judge_by;
use certificate_text::read::read_certificate;
use population_pins::pin_names::Pins;
use population_pins::weak_pins::WeakPins;
use resources::Resources;
use row_signatures::signatures::{Signatures, all_signatures};
use value_equality::laws::equal_tables_are_the_same;
use value_equality::plain::Plain;
use value_equality::table::Table;

/// The rows of an input, and the table whose classes are merged.
#[derive(Drop)]
pub(crate) struct Judged<'a> {
    pub rows: Plain<'a>,
    pub table: Table,
}

/// Tests whether a table is valid under these pins.
fn judge_under(
    resources: Resources,
    rows: &Plain<'_>,
    pins: &Pins,
    signatures: &Signatures,
    table: &Table,
) -> Result<(), TablesFault>
    requires well_formed { IsWellFormed (table_of table.now) }
    requires signatures { AreSignatures rows.now none_pinned signatures.now }
    ensures { MatchResult result
        (λ _. IsValid rows.now (is_pinned pins.now) (table_of table.now))
        (IsTableFault rows.now (is_pinned pins.now) (table_of table.now)) }
{
    judge_by(
        resources.alloc,
        resources.keys,
        rows,
        pins.names(),
        signatures,
        table,
    )?;
    Ok(())
}

/// Whether both tables and both lists of pins are equal. The outcome for the one table is that for
/// the other then.
fn is_judged(weak: &Pins, gentle: &Pins, first: &Table, second: &Table) -> bool
    ensures pins { OnTrue result (is_pinned gentle.now ≡ is_pinned weak.now) }
    ensures tables { OnTrue result (table_of second.now ≡ table_of first.now) }
{
    equal_tables_are_the_same();
    weak.are_same(gentle) && first == second
}

/// Tests whether the first table is valid under the weak pins, and the second one under the gentle
/// pins. Equal tables under equal pins are tested once.
fn judge_tables(
    resources: Resources,
    rows: &Plain<'_>,
    weak: &Pins,
    gentle: &Pins,
    first: Table,
    second: &Table,
) -> Result<(), TablesFault>
    requires first { IsWellFormed (table_of first) }
    requires second { IsWellFormed (table_of second.now) }
    ensures { MatchResult result
        (λ _. AreValid rows.now (is_pinned weak.now) (is_pinned gentle.now) (table_of first)
        (table_of second.now))
        (AreFaulty rows.now (is_pinned weak.now) (is_pinned gentle.now) (table_of first)
        (table_of second.now)) }
{
    let signatures = all_signatures(resources.alloc, resources.keys, rows)?;
    if is_judged(weak, gentle, &first, second) {
        drop(first);
        return judge_under(resources, rows, weak, &signatures, second);
    }
    judge_under(resources, rows, weak, &signatures, &first)?;
    drop(first);
    judge_under(resources, rows, gentle, &signatures, second)
}

/// Judges the two tables of a certificate: both have to be valid, the second one under the gentle
/// pins that the first one gives.
fn judge_pair<'a>(
    resources: Resources,
    rows: Plain<'a>,
    weak: &WeakPins,
    first: Table,
    second: Table,
) -> Result<Judged<'a>, TablesFault>
    requires first { IsWellFormed (table_of first) }
    requires second { IsWellFormed (table_of second) }
    ensures judged { (s : Schema) (chosen : MergeOptions) (f : File) (certificate : List ℕ)
        → IsCertificate certificate (table_of first) (table_of second)
        → AreKnown s chosen f rows.entry weak.now → IsJudgement s chosen f certificate result }
    ensures ready { IfOk result IsReady }
{
    let gentle = weak.gentle(resources.alloc, resources.keys, &first)?;
    judge_tables(resources, &rows, &weak.pins, &gentle, first, &second)?;
    Ok(Judged {
        rows,
        table: second,
    })
}

/// Reads the tables of a certificate and judges them by an input with these rows and weak pins.
pub(crate) fn judge_certificate<'a>(
    resources: Resources,
    rows: Plain<'a>,
    weak: WeakPins,
    certificate: Vec<u8>,
) -> Result<Judged<'a>, TablesFault>
    ensures judged { (s : Schema) (chosen : MergeOptions) (f : File)
        → AreKnown s chosen f rows.entry weak → IsJudgement s chosen f certificate.items result }
    ensures ready { IfOk result IsReady }
{
    let (first, second) = read_certificate(resources.alloc, &certificate, rows.len())?;
    drop(certificate);
    judge_pair(resources, rows, &weak, first, second)
}
