//! The values of inverse attributes in a population (ISO 10303-11, 9.2.1.3).

ghost use Rattle.std.specs.Prelude.{◌≡◌, IfOk, slice_get};
ghost use Rattle.express_syntax.specs.ExpressionViews.{capitals};
ghost use Rattle.express_syntax.specs.Profile.{Every};
ghost use Rattle.schema_semantics.specs.Parts.{dotted};
ghost use Rattle.schema_unchecked_declarations.specs.UncheckedLists.{label_name};
ghost use Rattle.schema_names.specs.Numbers.{HasNumber};
ghost use Rattle.schema_names.specs.Schemas.{the_schema};
ghost use Rattle.schema_underlying_types.specs.BaseViews.{name_at};
ghost use Rattle.schema_constraints.specs.RuleTables.{AreRuleTables};
ghost use Rattle.schema_constraints.specs.RuleViews.{label_seen, IsNumberedInverse};
ghost use Rattle.typed_populations.specs.PopulationViews.{population_seen};
ghost use Rattle.population_inverses.specs.Extents.{AllHeld, inverse_value_by};

use crate::inverse_references::gathered;
use graphs::referrers::Referrers;
use schema_constraints::inverses::InverseAttribute;
use schema_constraints::label::RuleLabel;
use schema_constraints::tables::RuleTables;
use schema_unchecked_declarations::list::Label;
use std::alloc::{AllocError, Global};
use step_literals::literal::Word;
use typed_populations::population::Population;

/// A population with the uniqueness rules and inverse attributes of its schema and, for each inverse
/// attribute, the references that it inverts.
#[derive(Drop)]
pub struct Extents<'s, 't, 'r, 'a, 'e> {
    pub population: &'e Population<'s, 't, 'r, 'a>,
    pub rules: &'e RuleTables<'s>,
    /// For each inverse attribute, the instances that refer to others by the inverted attribute.
    pub(crate) referrers: Vec<Referrers>,
    // The rules are those of the schema.
    pub ghost ruled: { ∥ AreRuleTables (the_schema population.now.types.now.names) rules.now ∥₁ },
    pub ghost held: { ∥ AllHeld (the_schema population.now.types.now.names)
        (population_seen population.now) rules.now.inverses.items referrers.items ∥₁ },
}

/// Returns, for each of `inverses`, the instances that refer to others by the inverted attribute.
fn all_referrers(
    alloc: Global,
    population: &Population<'_, '_, '_, '_>,
    inverses: &[InverseAttribute<'_>],
) -> Result<Vec<Referrers>, AllocError>
    requires numbered { Every (IsNumberedInverse
        (the_schema population.now.types.now.names)) inverses.now }
    ensures { IfOk result (λ t. AllHeld (the_schema population.now.types.now.names)
        (population_seen population.now) inverses.now t.items) }
{
    let mut all = Vec::with_capacity(alloc, inverses.len())?;
    for inverse in inverses {
        let references = gathered(alloc, population, inverse)?;
        all.push(Referrers::of(alloc, references)?)?;
    }
    Ok(all)
}

impl<'s, 't, 'r, 'a, 'e> Extents<'s, 't, 'r, 'a, 'e> {
    /// Collects the references that the inverse attributes of `rules` invert. `rules` have to be
    /// those of the population's schema.
    ///
    /// For each inverse attribute all instances are visited, and the references in the values that
    /// it inverts are sorted.
    pub fn build(
        alloc: Global,
        population: &'e Population<'s, 't, 'r, 'a>,
        rules: &'e RuleTables<'s>,
    ) -> Result<Extents<'s, 't, 'r, 'a, 'e>, AllocError>
        requires rules { AreRuleTables (the_schema population.now.types.now.names) rules.now }
        ensures population { IfOk result (λ x. x.population.now ≡ population.entry.now) }
        ensures rules { IfOk result (λ x. x.rules.now ≡ rules.entry.now) }
    {
        let referrers = all_referrers(alloc, population, &rules.inverses)?;
        Ok(Extents {
            population,
            rules,
            referrers,
        })
    }

    /// Returns the name of the entity or type numbered `entity`.
    pub(crate) fn holder(&self, entity: u32) -> Word<'s>
        requires { HasNumber (the_schema self.now.population.now.types.now.names)
            (name_at (the_schema self.now.population.now.types.now.names) entity) entity }
        ensures { capitals result
            ≡ name_at (the_schema self.now.population.now.types.now.names) entity }
    {
        self.population.types.names.name(entity).unwrap()
    }

    /// Returns the full name of the rule called `label` that the entity or type numbered `holder`
    /// states.
    pub fn label(&self, holder: u32, label: RuleLabel<'s>) -> Label<'s>
        requires { HasNumber (the_schema self.now.population.now.types.now.names)
            (name_at (the_schema self.now.population.now.types.now.names) holder) holder }
        ensures { label_name result
            ≡ dotted (name_at (the_schema self.now.population.now.types.now.names) holder)
            (label_seen label.entry) }
    {
        let holder = self.holder(holder);
        match label {
            RuleLabel::Written(label) => Label::Dotted(holder, label),
            RuleLabel::Numbered(number) => Label::Numbered(holder, number),
        }
    }

    /// Returns the value of the inverse attribute numbered `attribute` for the instance called
    /// `name`: the names of the instances that refer to it, in the order of the file (ISO 10303-11,
    /// 9.2.1.3). Returns an empty value if there is no such instance or attribute, or if no type of
    /// the instance declares the attribute. Allocates no memory.
    pub fn inverse_by_number(&self, name: u64, attribute: usize) -> &[u64]
        ensures { result.now
            ≡ inverse_value_by (the_schema self.now.population.now.types.now.names)
            (slice_get self.now.rules.now.inverses.items attribute)
            (population_seen self.now.population.now) name }
    {
        let (value, _) = self.inverse_near(name, attribute, 0);
        value
    }

    /// Returns the value of the inverse attribute numbered `attribute` for the instance called
    /// `name` (see `inverse_by_number`), and a hint to pass as `near` with the next instance. With
    /// the hints, nothing is searched if the instances come in the order of their names. The value
    /// doesn't depend on `near`.
    pub fn inverse_near(&self, name: u64, attribute: usize, near: usize) -> (&[u64], usize)
        ensures { result.0.now
            ≡ inverse_value_by (the_schema self.now.population.now.types.now.names)
            (slice_get self.now.rules.now.inverses.items attribute)
            (population_seen self.now.population.now) name }
    {
        let Some(inverse) = self.rules.inverses.get(attribute) else {
            return (&[], near);
        };
        if !self.population.types_of(name).contains(&inverse.entity) {
            return (&[], near);
        }
        match self.referrers.get(attribute) {
            Some(referrers) => referrers.find_near(name, near),
            None => (&[], near),
        }
    }
}
