//! Looking up formulas by entity.

ghost use Rattle.std.specs.Prelude.{◌≡◌, ℕ, List, Option, length, get_or, slice_get, option_map};
ghost use Rattle.std.specs.Option.{option_flatten};
ghost use Rattle.express_syntax.specs.Schemas.{Schema};
ghost use Rattle.schema_semantics.specs.Names.{Name};
ghost use Rattle.schema_names.specs.Numbers.{HasNumber};
ghost use Rattle.conformance.specs.Rules.{InverseAttribute};
ghost use Rattle.conformance.specs.Attributes.{Attributes, AreAttributes};
ghost use Rattle.schema_derived_attributes.specs.Formulas.{formula_seen, formula_place, AreFormulasOf};

use crate::formula::{Formula, Formulas};

/// Returns the number of the first derived attribute from `declaration` on, or `count` if there is
/// no such declaration.
fn first_at(firsts: &[u32], declaration: usize, count: usize) -> usize
    ensures { result ≡ get_or firsts.now declaration count }
{
    match firsts.get(declaration) {
        Some(first) => *first as usize,
        None => count,
    }
}

/// Returns the number of the derived attribute at index `number` in the DERIVE clause of `entity`,
/// or `count` if there is none. `count` is the count of all derived attributes.
fn place_of(firsts: &[u32], count: usize, entity: u32, number: usize) -> usize
    ensures { result ≡ formula_place firsts.now count entity number }
{
    let first = first_at(firsts, entity as usize, count);
    let end = first_at(firsts, entity as usize + 1, count);
    if number < end.saturating_sub(first) {
        first + number
    } else {
        count
    }
}

/// Returns the formula at an index, if any.
fn formula_in<'t, 'a>(formulas: &[Option<Formula<'a, 't>>], place: usize) -> Option<Formula<'a, 't>>
    ensures { result ≡ option_flatten (slice_get formulas.now place) }
{
    formulas.get(place).copied().flatten()
}

/// Returns the formula of the derived attribute at index `number`, counted from 0, in the DERIVE
/// clause of `entity`. `None` if there is no such attribute, or if it is set aside
/// (ISO 10303-11, 9.2.1.2).
pub fn formula_at<'t, 'a>(
    formulas: &Formulas<'a, 't>,
    entity: u32,
    number: usize,
) -> Option<Formula<'a, 't>>
    ensures meant { (s : Schema) → AreFormulasOf s formulas.now
        → (inverses : List InverseAttribute) (attributes : Attributes)
        → AreAttributes s inverses attributes → (e : Name) → HasNumber s e entity
        → option_map formula_seen result ≡ attributes.formula (e, number) }
    ensures place { result ≡ option_flatten (slice_get formulas.now.rows.items
        (formula_place formulas.now.firsts.items (length formulas.now.rows.items) entity number)) }
{
    let rows = formulas.rows.as_slice();
    let firsts = formulas.firsts.as_slice();
    let place = place_of(firsts, rows.len(), entity, number);
    formula_in(rows, place)
}
