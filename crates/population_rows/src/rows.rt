//! The form of each instance.

ghost use Rattle.std.specs.Prelude.{◌≡◌, option_copied};
ghost use Rattle.population_rows.specs.steps.Rows.{form_at};

use crate::form::Form;
use crate::index::RowIndex;

/// The instances of a file: their names and their forms.
#[derive(Drop)]
pub struct Rows {
    /// Maps each name to its row.
    pub index: RowIndex,
    /// By row, the number of its form; `None` if a keyword of the instance is no entity.
    pub form_of: Vec<Option<u32>>,
    /// The distinct forms.
    pub forms: Vec<Form>,
    /// By form, the numbers of the types of its instances.
    pub types: Vec<Vec<u32>>,
}

/// Returns the form of the instance in a row, or `None` if one of its keywords is no entity.
pub fn form_at(rows: &Rows, row: usize) -> Option<&Form>
    ensures { option_copied result ≡ form_at rows.now row }
{
    let Some(number) = rows.form_of.get(row) else {
        return None;
    };
    match *number {
        Some(number) => rows.forms.get(number as usize),
        None => None,
    }
}
