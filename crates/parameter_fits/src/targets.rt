//! What references refer to.

ghost use Rattle.std.specs.Prelude.{◌≡◌, Some, map, slice_get};
ghost use Rattle.std.specs.List.{list_any};
ghost use Rattle.std.specs.Str.{bytes_eq};
ghost use Rattle.express_syntax.specs.Schemas.{Schema};
ghost use Rattle.express_syntax.specs.Profile.{Every};
ghost use Rattle.schema_semantics.specs.Names.{Name};
ghost use Rattle.schema_names.specs.Numbers.{HasNumber};
ghost use Rattle.schema_names.specs.Schemas.{the_schema};
ghost use Rattle.conformance.specs.Bases.{Domain, IsDomain};
ghost use Rattle.conformance.specs.ParameterFits.{misfit_target, misfit_reference};
ghost use Rattle.conformance.specs.declared.finding.FindingKind.TheVariants.{
  WrongEntity,
  NoSelectItem,
};
ghost use Rattle.schema_underlying_types.specs.BaseViews.{base_seen, name_at};
ghost use Rattle.schema_underlying_types.specs.Tables.{AreBases, IsNumberedBase};
ghost use Rattle.parameter_fits.specs.steps.Targets.{
  target_of,
  of_row,
  of_form,
  AreTargets,
};
ghost use Rattle.parameter_fits.specs.steps.Led.{target_seen, AreNumbered, IsLed};

use crate::leaves::needs;
use conformance::finding::FindingKind;
use population_rows::index::RowIndex;
use schema_underlying_types::base::Base;
use schema_underlying_types::lookup::Bases;

/// The instances of a file, as needed to check references to them.
#[derive(Clone, Copy)]
pub struct Targets<'r> {
    /// The row of each instance name.
    pub index: &'r RowIndex,
    /// The number of the form of each row; `None` if one of the instance's keywords isn't an
    /// entity.
    pub forms: &'r [Option<u32>],
    /// The numbers of the types of each form.
    pub types: &'r [Vec<u32>],
}

/// What a reference refers to.
#[derive(Clone, Copy)]
pub enum Target<'r> {
    /// No instance.
    Absent,
    /// An instance with a keyword that isn't an entity.
    Unknown,
    /// An instance whose types have these numbers.
    OfTypes(&'r [u32]),
}

impl<'r> Targets<'r> {
    /// Returns the target that an instance of `form` is.
    fn of_form(&self, form: u32) -> Target<'r>
        ensures led { (s : Schema) → target_seen s result ≡ of_form s self.now (Some form) }
        ensures numbered { (s : Schema) → AreTargets s self.now → IsLed s result }
    {
        match self.types.get(form as usize) {
            Some(types) => Target::OfTypes(types),
            None => Target::OfTypes(&[]),
        }
    }

    /// Returns the target that the instance of `row` is.
    fn of_row(&self, row: u32) -> Target<'r>
        ensures led { (s : Schema)
            → target_seen s result ≡ of_row s self.now (slice_get self.now.forms.now row) }
        ensures numbered { (s : Schema) → AreTargets s self.now → IsLed s result }
    {
        match self.forms.get(row as usize).copied() {
            Some(Some(form)) => self.of_form(form),
            _ => Target::Unknown,
        }
    }

    /// Returns what a reference to `name` refers to.
    pub fn target(&self, name: u64) -> Target<'r>
        ensures led { (s : Schema) → target_seen s result ≡ target_of s self.now name }
        ensures numbered { (s : Schema) → AreTargets s self.now → IsLed s result }
    {
        match self.index.find(name) {
            Some(row) => self.of_row(row),
            None => Target::Absent,
        }
    }
}

/// Whether `number` is one of `numbers`.
fn is_among(number: u32, numbers: &[u32]) -> bool
    ensures { (s : Schema) → HasNumber s (name_at s number) number → AreNumbered s numbers.now
        → result ≡ list_any (bytes_eq (name_at s number)) (map (name_at s) numbers.now) }
{
    numbers.contains(&number)
}

/// Whether one of the entities `types` is an item of the SELECT numbered `number`.
fn takes_one(bases: &Bases<'_, '_, '_>, number: u32, types: &[u32]) -> bool
    requires bases { AreBases bases.now }
    requires numbered { AreNumbered (the_schema bases.now.names.now) types.now }
    ensures { (d : Domain) → IsDomain (the_schema bases.now.names.now) d → (m : Name)
        → HasNumber (the_schema bases.now.names.now) m number
        → result ≡ list_any (d.is_item m)
        (map (name_at (the_schema bases.now.names.now)) types.now) }
{
    for entity in types {
        if bases.takes(number, *entity) {
            return true;
        }
    }
    false
}

/// Returns the finding of a reference to `target` where `entity` is required, if any.
fn misfit_entity(entity: u32, target: Target<'_>) -> Option<FindingKind>
    ensures { (s : Schema) → HasNumber s (name_at s entity) entity → IsLed s target.entry
        → result ≡ misfit_target (bytes_eq (name_at s entity)) WrongEntity
        (target_seen s target.entry) }
{
    match target {
        Target::Absent => Some(FindingKind::DanglingReference),
        Target::Unknown => None,
        Target::OfTypes(types) => needs(is_among(entity, types), FindingKind::WrongEntity),
    }
}

/// Returns the finding of a reference to `target` where the SELECT numbered `number` is required,
/// if any.
fn misfit_select(bases: &Bases<'_, '_, '_>, number: u32, target: Target<'_>) -> Option<FindingKind>
    requires bases { AreBases bases.now }
    requires led { IsLed (the_schema bases.now.names.now) target }
    ensures { (d : Domain) → IsDomain (the_schema bases.now.names.now) d → (m : Name)
        → HasNumber (the_schema bases.now.names.now) m number
        → result ≡ misfit_target (d.is_item m) NoSelectItem
        (target_seen (the_schema bases.now.names.now) target.entry) }
{
    match target {
        Target::Absent => Some(FindingKind::DanglingReference),
        Target::Unknown => None,
        Target::OfTypes(types) => {
            needs(takes_one(bases, number, types), FindingKind::NoSelectItem)
        }
    }
}

/// Returns the finding of a reference to `target` where `base` is required, if any.
pub fn misfit_reference(
    bases: &Bases<'_, '_, '_>,
    base: Base,
    target: Target<'_>,
) -> Option<FindingKind>
    requires bases { AreBases bases.now }
    requires numbered { IsNumberedBase (the_schema bases.now.names.now) base }
    requires led { IsLed (the_schema bases.now.names.now) target }
    ensures { (d : Domain) → IsDomain (the_schema bases.now.names.now) d
        → result ≡ misfit_reference (the_schema bases.now.names.now) d
        (base_seen (the_schema bases.now.names.now) base)
        (target_seen (the_schema bases.now.names.now) target.entry) }
{
    match base {
        Base::Entity(entity) => misfit_entity(entity, target),
        Base::Select(number) => misfit_select(bases, number, target),
        _ => Some(FindingKind::WrongKind),
    }
}
