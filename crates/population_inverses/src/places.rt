//! The values of inverse attributes, found by name (ISO 10303-11, 9.2.1.3).

ghost use Rattle.std.specs.Prelude.{◌≡◌, ◌<◌, Some, length, slice_get};
ghost use Rattle.express_syntax.specs.ExpressionViews.{capitals};
ghost use Rattle.schema_semantics.specs.Attributes.{same_place};
ghost use Rattle.conformance.specs.Referrers.{inverse_of};
ghost use Rattle.schema_names.specs.Schemas.{the_schema};
ghost use Rattle.schema_constraints.specs.RuleViews.{inverse_seen, rules_seen};
ghost use Rattle.schema_constraints.specs.declared.inverses.InverseAttribute.{
  InverseAttribute as Attribute,
};
ghost use Rattle.typed_populations.specs.PopulationViews.{population_seen};
ghost use Rattle.population_inverses.specs.steps.Places.{place_of_inverse, number_from};

use crate::extents::Extents;
use step_literals::literal::Word;

impl<'s, 't, 'r, 'a, 'e> Extents<'s, 't, 'r, 'a, 'e> {
    /// Whether the inverse attribute numbered `number` is called `attribute` and declared by the
    /// entity called `entity`.
    fn is_named(&self, number: usize, entity: Word<'_>, attribute: Word<'_>) -> bool
        requires { number < length self.now.rules.now.inverses.items }
        ensures { (i : Attribute) → slice_get self.now.rules.now.inverses.items number ≡ Some i
            → result ≡ same_place (place_of_inverse (inverse_seen
            (the_schema self.now.population.now.types.now.names) i))
            (capitals entity.entry, capitals attribute.entry) }
    {
        let inverse = &self.rules.inverses[number];
        self.holder(inverse.entity) == entity && inverse.name == attribute
    }

    /// Returns the number of the inverse attribute called `attribute` that the entity called
    /// `entity` declares, if any.
    fn number_of(&self, entity: Word<'_>, attribute: Word<'_>) -> Option<usize>
        ensures { result ≡ number_from 0
            (rules_seen (the_schema self.now.population.now.types.now.names)
            self.now.rules.now).inverses (capitals entity.entry, capitals attribute.entry) }
    {
        for number in 0..self.rules.inverses.len() {
            if self.is_named(number, entity, attribute) {
                return Some(number);
            }
        }
        None
    }

    /// Returns the value of an inverse attribute for the instance called `name`: the names of the
    /// instances that refer to it, in the order of the file (ISO 10303-11, 9.2.1.3). The attribute
    /// is the one called `attribute` that the entity called `entity` declares. Returns an empty
    /// value if there is no such instance or attribute, or if that entity isn't a type of the
    /// instance. Allocates no memory.
    pub fn inverse_of(&self, name: u64, entity: Word<'_>, attribute: Word<'_>) -> &[u64]
        ensures { result.now ≡ inverse_of
            (rules_seen (the_schema self.now.population.now.types.now.names)
            self.now.rules.now).inverses (population_seen self.now.population.now) name
            (capitals entity.entry, capitals attribute.entry) }
    {
        match self.number_of(entity, attribute) {
            Some(number) => self.inverse_by_number(name, number),
            None => &[],
        }
    }
}
