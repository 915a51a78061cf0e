//! The inverse attributes of instances, by form (ISO 10303-11, 9.2.1.3).

ghost use Rattle.std.specs.Prelude.{◌≡◌, map, IfOk};
ghost use Rattle.graphs.specs.Graphs.{has};
ghost use Rattle.population_inverses.specs.steps.Inverses.{numbers_by, row_by};

use population_rows::form::Form;
use schema_constraints::inverses::InverseAttribute;
use std::alloc::{AllocError, Global};

/// Whether instances of `form` have the inverse attribute `inverse`.
fn has_inverse(form: &Form, inverse: &InverseAttribute<'_>) -> bool
    ensures { result ≡ has form.now.types.items inverse.now.entity }
{
    form.types.contains(&inverse.entity)
}

/// Returns the numbers of the inverse attributes that instances of `form` have.
fn numbers_of(
    alloc: Global,
    inverses: &[InverseAttribute<'_>],
    form: &Form,
) -> Result<Vec<usize>, AllocError>
    ensures { IfOk result (λ t. t.items ≡ numbers_by inverses.now 0 form.now) }
{
    let mut numbers = Vec::new(alloc);
    for number in 0..inverses.len() {
        if has_inverse(form, &inverses[number]) {
            numbers.push(number)?;
        }
    }
    Ok(numbers)
}

/// Returns, for each of `forms`, the numbers of the inverse attributes that its instances have.
pub fn numbers_by_form(
    alloc: Global,
    inverses: &[InverseAttribute<'_>],
    forms: &[Form],
) -> Result<Vec<Vec<usize>>, AllocError>
    ensures { IfOk result (λ t. map (λ v. v.items) t.items
        ≡ map (numbers_by inverses.now 0) forms.now) }
{
    let mut rows = Vec::with_capacity(alloc, forms.len())?;
    for form in forms {
        rows.push(numbers_of(alloc, inverses, form)?)?;
    }
    Ok(rows)
}

/// Returns the row of the form with this number; empty if there is no such form.
pub fn row_at(rows: &[Vec<usize>], form: Option<u32>) -> &[usize]
    ensures { result.now ≡ row_by (map (λ v. v.items) rows.now) form }
{
    let Some(number) = form else {
        return &[];
    };
    match rows.get(number as usize) {
        Some(row) => row,
        None => &[],
    }
}
