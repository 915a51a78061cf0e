//! How derived attributes are computed (ISO 10303-11, 9.2.1.2).

ghost use Rattle.std.specs.Prelude.{◌≡◌, length, slice_get};
ghost use Rattle.std.specs.Option.{option_map, option_flatten};
ghost use Rattle.schema_names.specs.Numbers.{HasNumber};
ghost use Rattle.schema_underlying_types.specs.BaseViews.{name_at};
ghost use Rattle.schema_derived_attributes.specs.Formulas.{formula_seen, formula_place};
ghost use Rattle.rule_settings.specs.Settings.{IsSetting, Meant, schema_in, derivation_in};

use crate::setting::Setting;
use schema_attribute_sources::source::Derivation;
use schema_derived_attributes::formula::Formula;
use schema_derived_attributes::formula_lookup::formula_at;

impl<'s: 'r, 't, 'r, 'a, 'e, 'p> Setting<'s, 't, 'r, 'a, 'e, 'p> {
    /// Returns how a derived attribute is computed; `None` if the attribute is set aside.
    pub fn formula(&self, derivation: Derivation) -> Option<Formula<'s, 't>>
        requires setting { IsSetting self.now }
        ensures meant { (m : Meant self.now)
            → HasNumber (schema_in self.now) (name_at (schema_in self.now) derivation.entity)
            derivation.entity → option_map formula_seen result
            ≡ m.said.attributes.formula (derivation_in self.now derivation) }
        ensures place { result ≡ option_flatten (slice_get self.now.formulas.now.rows.items
            (formula_place self.now.formulas.now.firsts.items
            (length self.now.formulas.now.rows.items) derivation.entity derivation.number)) }
    {
        formula_at(self.formulas, derivation.entity, derivation.number)
    }
}
