//! Elements of aggregates.
#![tactic(auto, unfolding(crate::specs::Parts::element_datum, crate::specs::Parts::holding, crate::specs::Parts::whole_elements))]

ghost use Rattle.std.specs.Prelude.{◌≡◌};
ghost use Rattle.express_logic.specs.Views.{datum_of};
ghost use Rattle.rule_values.specs.Parts.{holding, element_datum};

use crate::part::Part;
use crate::types::ValueTypes;
use crate::values::value_datum;
use express_logic::datum::Datum;
use schema_underlying_types::base::Base;
use step_values::slot::Slot;

/// An element of an aggregate. It owns nothing, so it can be in a list of variables.
#[derive(Drop)]
pub enum Element<'p, 'r> {
    /// No value.
    Nothing,
    /// An instance, by its name.
    Instance(u64),
    /// A value whose data type has the underlying type `base`.
    Value {
        types: &'p ValueTypes<'r>,
        base: &'p Base,
        value: Slot<'p, 'r>,
    },
}

impl<'p, 'r> Element<'p, 'r> {
    /// Returns the datum of the element.
    pub fn datum(&self) -> Datum<'r, Part<'p, 'r>>
        ensures { datum_of holding result ≡ element_datum self.now }
    {
        match self {
            Element::Nothing => Datum::Indeterminate,
            Element::Instance(name) => Datum::Instance(*name),
            Element::Value { types, base, value } => value_datum(*types, *base, value),
        }
    }
}
