//! Typed populations.

ghost use Rattle.conformance.specs.OtherNames.{other_names};
ghost use Rattle.schema_names.specs.Schemas.{the_schema};
ghost use Rattle.typed_populations.specs.TypedPopulations.{IsPopulation};

use population_rows::rows::Rows;
use schema_types::types::ResolvedTypes;
use step_exchange::structure::Exchange;
use step_values::rows::ValueRows;

/// The typed population of an exchange structure that conforms to a schema.
#[derive(Drop)]
pub struct Population<'s, 't, 'r, 'a> {
    pub types: &'r ResolvedTypes<'s, 't>,
    pub exchange: &'r Exchange<'a>,
    /// The forms of the instances.
    pub rows: Rows,
    /// For each instance the values of its attributes, in the order of its form. They borrow from
    /// the text of the exchange structure.
    pub values: ValueRows<'a>,
    pub ghost typed: { ∥ IsPopulation (the_schema types.now.names)
        (other_names types.now.names.schema.now) exchange.now rows values ∥₁ },
}
