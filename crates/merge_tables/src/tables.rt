//! The tables of a population: under its weak pins, and under the gentle pins that these give.

ghost use Rattle.std.specs.Prelude.{IfOk, IsTrue, List, MatchOption};
ghost use Rattle.express_syntax.specs.Schemas.{Schema};
ghost use Rattle.value_equality.specs.Rows.{IsPopulation};
ghost use Rattle.value_equality.specs.Standard.{IsStandard};
ghost use Rattle.value_equality.specs.TableViews.{table_of};
ghost use Rattle.conformance.specs.PlainRows.{AreRowsOf};
ghost use Rattle.conformance.specs.Populations.{Instance};
ghost use Rattle.row_signatures.specs.steps.Signatures.{AreSignatures};
ghost use Rattle.population_pins.specs.Lists.{AreUniqueOf};
ghost use Rattle.population_pins.specs.PopulationPins.{is_pinned};
ghost use Rattle.merge_tables.specs.steps.ComputedTables.{AreTablesUnder};
ghost use Rattle.merge_tables.specs.steps.Merges.{last_of};

use merge_classes::classes::{refine_by, refine_last};
use population_pins::pin_names::Pins;
use population_pins::weak_pins::{GentlePins, WeakPins};
use resources::Resources;
use row_signatures::signatures::{Signatures, signatures_of};
use std::alloc::AllocError;
use value_equality::plain::Plain;
use value_equality::table::Table;

/// Returns the table of partition refinement of `rows` under these pins.
fn standard_table(
    resources: Resources,
    rows: &Plain<'_>,
    pinned: &Pins,
    signatures: &Signatures,
) -> Result<Table, AllocError>
    requires { AreSignatures rows.now (is_pinned pinned.now) signatures.now }
    ensures { IfOk result (λ t. IsStandard rows.now (is_pinned pinned.now) (table_of t)) }
{
    let classes = refine_by(
        resources.alloc,
        resources.keys,
        rows,
        pinned.names(),
        signatures,
    )?;
    Ok(classes.into_table())
}

/// Returns the table of partition refinement of `rows` under these pins, and consumes the
/// signatures.
fn last_table(
    resources: Resources,
    rows: &Plain<'_>,
    pinned: &Pins,
    signatures: Signatures,
) -> Result<Table, AllocError>
    requires { AreSignatures rows.now (is_pinned pinned.now) signatures }
    ensures { IfOk result (λ t. IsStandard rows.now (is_pinned pinned.now) (table_of t)) }
{
    let classes = refine_last(
        resources.alloc,
        resources.keys,
        rows,
        pinned.names(),
        signatures,
    )?;
    Ok(classes.into_table())
}

/// Returns the table under the gentle pins; `None` if these are the weak pins. Consumes rows and
/// signatures, to free their memory.
fn second_table(
    resources: Resources,
    rows: Plain<'_>,
    gentle: &GentlePins,
    signatures: Signatures,
) -> Result<Option<Table>, AllocError>
    requires signatures { AreSignatures rows (is_pinned gentle.now.pins) signatures }
    ensures { IfOk result (λ t. MatchOption t (IsTrue gentle.now.are_weak)
        (λ t. IsStandard rows.entry (is_pinned gentle.now.pins) (table_of t))) }
{
    if gentle.are_weak {
        return Ok(None);
    }
    let table = last_table(resources, &rows, &gentle.pins, signatures)?;
    Ok(Some(table))
}

/// Returns the table of the rows under these weak pins, and the one under the gentle pins that
/// these give, if they differ.
fn tables_by(
    resources: Resources,
    rows: Plain<'_>,
    weak: WeakPins,
    signatures: Signatures,
) -> Result<(Table, Option<Table>), AllocError>
    requires population { IsPopulation rows }
    requires signatures { AreSignatures rows (is_pinned weak.pins) signatures }
    ensures { (s : Schema) (is : List Instance) → AreRowsOf s is rows.entry
        → AreUniqueOf s is weak.lists → IfOk result (λ t. AreTablesUnder s is
        (is_pinned weak.pins) (table_of t.0) (table_of (last_of t.0 t.1))) }
{
    let first = standard_table(resources, &rows, &weak.pins, &signatures)?;
    let gentle = weak.into_gentle(resources.alloc, resources.keys, &first)?;
    let second = second_table(resources, rows, &gentle, signatures)?;
    Ok((first, second))
}

/// Returns the table of a population's rows under its weak pins. If the gentle pins differ, also
/// returns the table under these; the classes of the first table determine them. Names and keys are
/// hashed with the keys of `resources`.
pub(crate) fn standard_tables(
    resources: Resources,
    rows: Plain<'_>,
    weak: WeakPins,
) -> Result<(Table, Option<Table>), AllocError>
    requires population { IsPopulation rows }
    ensures { (s : Schema) (is : List Instance) → AreRowsOf s is rows.entry
        → AreUniqueOf s is weak.lists → IfOk result (λ t. AreTablesUnder s is
        (is_pinned weak.pins) (table_of t.0) (table_of (last_of t.0 t.1))) }
{
    let signatures = signatures_of(resources.alloc, resources.keys, &rows, weak.pins.names())?;
    tables_by(resources, rows, weak, signatures)
}
