//! The instances of a typed population, one by one.

ghost use Rattle.std.specs.Prelude.{◌≡◌, ◌<◌, length};
ghost use Rattle.express_syntax.specs.Profile.{Every};
ghost use Rattle.schema_names.specs.Schemas.{the_schema};
ghost use Rattle.typed_populations.specs.PopulationTables.{AreNumbered};
ghost use Rattle.typed_populations.specs.PopulationViews.{population_seen};
ghost use Rattle.typed_populations.specs.steps.Instances.{IsInstance};

use crate::population::Population;
use population_rows::form::Form;
use step_values::slot::Slots;

/// An instance of a population.
#[derive(Drop)]
pub struct InstanceRow<'p, 'a> {
    pub name: u64,
    /// The number of its form among those of the population.
    pub form: Option<u32>,
    /// The values of its attributes, in the order of its form.
    pub values: Slots<'p, 'a>,
}

impl<'s, 't, 'r, 'a> Population<'s, 't, 'r, 'a> {
    /// Returns the forms of the instances, each once. Allocates no memory.
    pub fn forms(&self) -> &[Form]
        ensures forms { result.now ≡ self.now.rows.forms.items }
        ensures numbered { Every (AreNumbered (the_schema self.now.types.now.names)) result.now }
    {
        &self.rows.forms
    }

    /// Returns the instance of `row`, counted from 0 in the order of the file. Allocates no memory.
    pub fn instance(&self, row: usize) -> InstanceRow<'_, 'a>
        requires { row < length (population_seen self.now) }
        ensures { IsInstance self.now row result }
    {
        InstanceRow {
            name: self.exchange.names.as_slice()[row],
            form: self.rows.form_of[row],
            values: self.values.row(row),
        }
    }
}
