//! The types of values that TYPEOF names (ISO 10303-11, 15.25).

ghost use Rattle.std.specs.Prelude.{◌≡◌};
ghost use Rattle.express_syntax.specs.ExpressionViews.{capitals};
ghost use Rattle.express_logic.specs.Views.{text_of};
ghost use Rattle.rule_settings.specs.Settings.{IsSetting, Meant, has_type_in, is_defined_in};

use crate::setting::Setting;
use express_logic::strings::AnyString;
use rule_names::types::{says_any, says_definition};
use step_literals::literal::Word;

impl<'s: 'r, 't, 'r, 'a, 'e, 'p> Setting<'s, 't, 'r, 'a, 'e, 'p> {
    /// Whether `text` names a type of `instance`, as TYPEOF does.
    pub fn has_type(&self, instance: u64, text: &AnyString<'_>) -> bool
        requires setting { IsSetting self.now }
        ensures { (m : Meant self.now) → result
            ≡ has_type_in self.now m instance (text_of text.now) }
    {
        let population = self.extents.population;
        says_any(&population.types.names, population.types_of(instance), text)
    }

    /// Whether `text` names the defined type called `name`, or one by which it is defined, as
    /// TYPEOF does.
    pub fn is_defined_by(&self, name: Word<'_>, text: &AnyString<'_>) -> bool
        requires setting { IsSetting self.now }
        ensures { (m : Meant self.now)
            → result ≡ is_defined_in self.now m (capitals name.entry) (text_of text.now) }
    {
        let names = &self.extents.population.types.names;
        match names.find(name) {
            Some(number) => says_definition(names, number, text),
            None => false,
        }
    }
}
