//! Items of enumerations (ISO 10303-11, 8.4.1).

ghost use Rattle.std.specs.Prelude.{◌≡◌};
ghost use Rattle.express_syntax.specs.ExpressionViews.{capitals};
ghost use Rattle.rule_settings.specs.Settings.{IsSetting, Meant, is_item_in, is_item_of_in};

use crate::setting::Setting;
use rule_names::items::is_item_of;
use step_literals::literal::Word;

impl<'s: 'r, 't, 'r, 'a, 'e, 'p> Setting<'s, 't, 'r, 'a, 'e, 'p> {
    /// Whether an enumeration has an item called `name`.
    pub fn is_item(&self, name: Word<'_>) -> bool
        requires setting { IsSetting self.now }
        ensures { (m : Meant self.now) → result ≡ is_item_in self.now m (capitals name.entry) }
    {
        self.tables.items.has(name)
    }

    /// Whether the defined type called `declared` stands for an enumeration with the item `name`.
    pub fn is_item_of(&self, declared: Word<'_>, name: Word<'_>) -> bool
        requires setting { IsSetting self.now }
        ensures { (m : Meant self.now)
            → result ≡ is_item_of_in self.now m (capitals declared.entry) (capitals name.entry) }
    {
        is_item_of(
            &self.extents.population.types.names,
            self.tables,
            declared,
            name,
        )
    }
}
