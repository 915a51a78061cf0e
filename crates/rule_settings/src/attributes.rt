//! The values of attributes of instances (ISO 10303-11, 12.7.3 and 12.7.4).

ghost use Rattle.std.specs.Prelude.{◌≡◌, ◌<◌, ℕ, Some, length, slice_get};
ghost use Rattle.express_syntax.specs.ExpressionViews.{capitals};
ghost use Rattle.schema_semantics.specs.Attributes as attributes;
ghost use Rattle.schema_explicit_attributes.specs.Places.{all_places};
ghost use Rattle.typed_populations.specs.ValueOrder.{position_among};
ghost use Rattle.schema_constraints.specs.RuleViews.{gathering_seen, place_at};
ghost use Rattle.express_logic.specs.Data.{Datum as Worth, aggregate, bag};
ghost use Rattle.express_logic.specs.Views.{datum_of};
ghost use Rattle.conformance.specs.Meanings.{instance_data, referring};
ghost use Rattle.conformance.specs.Operations.{only};
ghost use Rattle.rule_values.specs.Parts.{holding};
ghost use Rattle.schema_attribute_sources.specs.SourceViews.{IsNumberedSource};
ghost use Rattle.rule_sources.specs.Sources.{source_in, form_source};
ghost use Rattle.conformance.specs.Populations.{value_of};
ghost use Rattle.rule_settings.specs.Settings.{
  IsSetting,
  Meant,
  schema_in,
  population_in,
  inverses_in,
  attribute_by,
  group_by,
  worth_of,
  or_nothing,
  IsFound,
};
ghost use Rattle.rule_settings.specs.steps.Sources.{explicit_worth, row_in, slots_in, IsFoundAt};
ghost use Rattle.rule_settings.specs.steps.Worth.{inverse_worth};

use crate::setting::Setting;
use express_logic::datum::Datum;
use rule_sources::sources::FormSource;
use rule_values::part::Part;
use rule_values::values::{only_instance, value_datum};
use schema_attribute_sources::source::{Derivation, Source};
use schema_attribute_sources::sources::{attribute_source, group_source};
use schema_constraints::inverse_collections::Gathering;
use schema_underlying_types::base::Base;
use step_literals::literal::Word;
use step_values::slot::Slot;

/// The result of looking up the value of an attribute of an instance.
#[derive(Clone, Copy)]
pub enum Found {
    /// The instance has no such attribute.
    Missing,
    /// The value is stored in the parameter `value`.
    Value,
    /// The attribute is derived, so its value has to be computed.
    Derived(Derivation),
}

/// Returns the element of `bases` at index `number`.
fn base_at(bases: &[Base], number: u32) -> &Base
    requires { number < length bases.now }
    ensures { slice_get bases.now number ≡ Some result.now }
{
    &bases[number as usize]
}

/// Returns the instance if `names` has exactly one, otherwise indeterminate.
fn alone<'p, 'r>(names: &'p [u64]) -> Datum<'r, Part<'p, 'r>>
    ensures { datum_of holding result ≡ only (instance_data names.entry.now) }
{
    only_instance(names)
}

/// Returns an aggregate of these instances, which have no order.
fn together<'p, 'r>(names: &'p [u64]) -> Datum<'r, Part<'p, 'r>>
    ensures { datum_of holding result ≡ aggregate bag (instance_data names.entry.now) }
{
    Datum::Aggregate(Part::instances(names))
}

/// Returns the value of an inverse attribute, given the instances that refer: a SET or a BAG of
/// them, or, if the attribute is neither, the only one (ISO 10303-11, 9.2.1.3).
fn referring<'p, 'r>(gathering: Gathering, names: &'p [u64]) -> Datum<'r, Part<'p, 'r>>
    ensures { datum_of holding result ≡ referring (gathering_seen gathering) names.entry.now }
{
    match gathering {
        Gathering::Alone => alone(names),
        Gathering::Set { .. } => together(names),
        Gathering::Bag { .. } => together(names),
    }
}

impl<'s: 'r, 't, 'r, 'a: 'r, 'e, 'p> Setting<'s, 't, 'r, 'a, 'e, 'p> {
    /// Returns the datum of a value of the explicit attribute numbered `place`, by the type with
    /// which the attribute is declared.
    fn declared_value(&self, place: u32, value: Option<Slot<'p, 'a>>) -> Datum<'r, Part<'p, 'r>>
        requires setting { IsSetting self.now }
        requires place { place < length (all_places (schema_in self.now)) }
        ensures { (m : Meant self.now) → (instance : ℕ)
            → value.entry ≡ value_of (population_in self.now) instance
            (place_at (schema_in self.now) place)
            → datum_of holding result ≡ explicit_worth self.now m instance place }
    {
        let tables = self.tables;
        match value {
            Some(value) => {
                value_datum(
                    &tables.value_types,
                    base_at(&tables.declared, place),
                    &value,
                )
            }
            None => Datum::Indeterminate,
        }
    }

    /// Returns the value of `instance` for the explicit attribute numbered `place`; indeterminate
    /// if it has none.
    fn explicit_value(&self, instance: u64, place: u32) -> Datum<'r, Part<'p, 'r>>
        requires setting { IsSetting self.now }
        requires place { place < length (all_places (schema_in self.now)) }
        ensures { (m : Meant self.now)
            → datum_of holding result ≡ explicit_worth self.now m instance place }
    {
        self.declared_value(place, self.extents.population.value(instance, place))
    }

    /// Returns the value of the instance of `row` for the explicit attribute numbered `place`,
    /// which is at `position` in its form; indeterminate if it has none.
    fn value_at(&self, row: u32, position: usize, place: u32) -> Datum<'r, Part<'p, 'r>>
        requires setting { IsSetting self.now }
        requires row { row < length (population_in self.now) }
        requires place { place < length (all_places (schema_in self.now)) }
        requires position { position_among (slots_in self.now row) place ≡ Some position }
        ensures { (m : Meant self.now) → (instance : ℕ) → row_in self.now instance ≡ Some row
            → datum_of holding result ≡ explicit_worth self.now m instance place }
    {
        self.declared_value(place, self.extents.population.value_at(row, position))
    }

    /// Returns the value of `instance` for the inverse attribute numbered `number`; indeterminate
    /// if there is no such attribute.
    fn inverse_value(&self, instance: u64, number: usize) -> Datum<'r, Part<'p, 'r>>
        ensures { datum_of holding result
            ≡ inverse_worth (population_in self.now) instance
            (slice_get (inverses_in self.now) number) }
    {
        let extents = self.extents;
        match extents.rules.inverses.get(number) {
            Some(inverse) => {
                referring(
                    inverse.gathering,
                    extents.inverse_by_number(instance, number),
                )
            }
            None => Datum::Indeterminate,
        }
    }

    /// Looks up the value of `instance` in `source` and stores it in `value`, unless it is derived.
    fn found(&self, instance: u64, source: &Source, value: &mut Datum<'r, Part<'p, 'r>>) -> Found
        requires setting { IsSetting self.now }
        requires numbered { IsNumberedSource (schema_in self.now)
            (inverses_in self.now) source.now }
        ensures worth { (m : Meant self.now) → (computed : ℕ → attributes.Derivation → Worth)
            → IsFoundAt self.now m computed instance source.now
            (datum_of holding value.new) result }
        ensures found { IsFound self.now result }
    {
        match source {
            Source::Explicit(place) => {
                *value = self.explicit_value(instance, *place);
                Found::Value
            }
            Source::Derived(derivation) => Found::Derived(*derivation),
            Source::Inverse(number) => {
                *value = self.inverse_value(instance, *number);
                Found::Value
            }
            Source::Unclear => {
                *value = Datum::Indeterminate;
                Found::Value
            }
        }
    }

    /// Looks up the value of `instance`, which is that of `row`, in a source of its form, and
    /// stores it in `value`, unless it is derived.
    fn found_in_row(
        &self,
        instance: u64,
        row: u32,
        source: &FormSource,
        value: &mut Datum<'r, Part<'p, 'r>>,
    ) -> Found
        requires setting { IsSetting self.now }
        requires row { row_in self.now instance ≡ Some row }
        requires numbered { IsNumberedSource (schema_in self.now) (inverses_in self.now)
            (source_in source.now) }
        requires position { source.now ≡ form_source (slots_in self.now row)
            (source_in source.now) }
        ensures worth { (m : Meant self.now) → (computed : ℕ → attributes.Derivation → Worth)
            → IsFoundAt self.now m computed instance (source_in source.now)
            (datum_of holding value.new) result }
        ensures found { IsFound self.now result }
    {
        match source {
            FormSource::Explicit { place, position } => {
                *value = self.value_at(row, *position, *place);
                Found::Value
            }
            FormSource::Other(source) => self.found(instance, source, value),
        }
    }

    /// Looks up the attribute called `name` by the types of `instance`, and stores its value in
    /// `value`, unless it is derived or there is no such attribute.
    #[inline(never)]
    fn declared_attribute(
        &self,
        instance: u64,
        name: Word<'_>,
        value: &mut Datum<'r, Part<'p, 'r>>,
    ) -> Found
        requires setting { IsSetting self.now }
        ensures worth { (m : Meant self.now) → (computed : ℕ → attributes.Derivation → Worth)
            → worth_of self.now (computed instance) (datum_of holding value.new) result
            ≡ attribute_by self.now m computed instance (capitals name.entry) }
        ensures found { IsFound self.now result }
    {
        let population = self.extents.population;
        let source = attribute_source(
            population.types,
            &self.tables.sources,
            &self.extents.rules.inverses,
            population.types_of(instance),
            name,
        );
        match source {
            Some(source) => self.found(instance, &source, value),
            None => Found::Missing,
        }
    }

    /// Looks up the attribute of `instance` called `name` (ISO 10303-11, 12.7.3), and stores its
    /// value in `value`, unless it is derived or there is no such attribute. Allocates no memory.
    pub fn attribute(
        &self,
        instance: u64,
        name: Word<'_>,
        value: &mut Datum<'r, Part<'p, 'r>>,
    ) -> Found
        requires setting { IsSetting self.now }
        ensures worth { (m : Meant self.now) → (computed : ℕ → attributes.Derivation → Worth)
            → worth_of self.now (computed instance) (datum_of holding value.new) result
            ≡ attribute_by self.now m computed instance (capitals name.entry) }
        ensures found { IsFound self.now result }
    {
        let population = self.extents.population;
        let Some(row) = population.row_of(instance) else {
            return Found::Missing;
        };
        match self.forms.find(population.form_of_row(row), name) {
            Some(named) => self.found_in_row(instance, row, &named.source, value),
            None => self.declared_attribute(instance, name, value),
        }
    }

    /// Looks up the attribute of `instance` that `\entity.name` refers to (ISO 10303-11, 12.7.4),
    /// and stores its value in `value`, unless it is derived. The value is indeterminate if there
    /// is no such attribute. Allocates no memory.
    pub fn attribute_of(
        &self,
        instance: u64,
        entity: Word<'_>,
        name: Word<'_>,
        value: &mut Datum<'r, Part<'p, 'r>>,
    ) -> Found
        requires setting { IsSetting self.now }
        ensures worth { (m : Meant self.now) → (computed : ℕ → attributes.Derivation → Worth)
            → or_nothing (worth_of self.now (computed instance) (datum_of holding value.new)
            result)
            ≡ group_by self.now m computed instance (capitals entity.entry) (capitals name.entry) }
        ensures found { IsFound self.now result }
    {
        let population = self.extents.population;
        let source = group_source(
            population.types,
            &self.tables.sources,
            &self.extents.rules.inverses,
            population.types_of(instance),
            entity,
            name,
        );
        self.found(instance, &source, value)
    }
}
