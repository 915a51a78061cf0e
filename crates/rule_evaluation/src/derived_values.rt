//! Cached values of derived attributes, so that each is evaluated once.

ghost use Rattle.std.specs.Prelude.{◌≡◌, [], true, IfOk, IfSome, OnOk};
ghost use Rattle.express_logic.specs.Views.{datum_of};
ghost use Rattle.rule_values.specs.Parts.{holding};
ghost use Rattle.rule_settings.specs.declared.setting.Setting.{Setting};
ghost use Rattle.rule_settings.specs.Settings.{Meant};
ghost use Rattle.rule_evaluation.specs.steps.Kept.{AreRight, IsRight, IsWorth};

use express_logic::datum::Datum;
use rule_values::copies::copied;
use rule_values::part::Part;
use schema_attribute_sources::source::Derivation;
use std::alloc::{AllocError, Global};
use std::collections::BTreeMap;

/// A derived attribute of an instance.
#[derive(Clone, Copy)]
pub(crate) struct Wanted {
    pub instance: u64,
    pub derivation: Derivation,
}

/// A derived attribute of an instance, with its value.
#[derive(Drop)]
pub(crate) struct KeptValue<'p, 'r> {
    pub wanted: Wanted,
    pub value: Datum<'r, Part<'p, 'r>>,
}

/// The cached values of derived attributes of instances.
#[derive(Drop)]
pub(crate) struct KeptValues<'p, 'r> {
    values: Vec<KeptValue<'p, 'r>>,
    /// The positions of the values, by instance and attribute.
    places: BTreeMap<(u64, u32, usize), usize>,
}

/// Returns a key for a derived attribute of an instance. The key is only a hint where to look: the
/// entry that it finds is compared.
fn key(wanted: Wanted) -> (u64, u32, usize) {
    (
        wanted.instance,
        wanted.derivation.entity,
        wanted.derivation.number,
    )
}

/// Whether both are the same derived attribute of the same instance.
#[tactic(auto, using(crate::proofs::Keeping::one_wanted))]
pub(crate) fn is_same(wanted: Wanted, other: Wanted) -> bool
    ensures { result ≡ true → wanted ≡ other }
{
    wanted.instance == other.instance
        && wanted.derivation.entity == other.derivation.entity
        && wanted.derivation.number == other.derivation.number
}

impl<'p, 'r> KeptValues<'p, 'r> {
    /// Returns an empty cache. Allocates no memory.
    pub(crate) fn none(alloc: Global) -> KeptValues<'p, 'r>
        ensures { result.values.items ≡ [] }
    {
        KeptValues {
            values: Vec::new(alloc),
            places: BTreeMap::new(alloc),
        }
    }

    /// Returns the number of cached values.
    pub(crate) fn len(&self) -> usize {
        self.values.len()
    }

    /// Returns the cached value of a derived attribute, if any.
    fn find(&self, wanted: Wanted) -> Option<&KeptValue<'p, 'r>>
        ensures { IfSome result (λ x. (x.now.wanted ≡ wanted) × ((S : Setting) → (m : Meant S)
            → AreRight S m self.now → IsRight S m x.now)) }
    {
        let place = self.places.get(&key(wanted)).copied()?;
        let kept = self.values.get(place)?;
        if is_same(kept.wanted, wanted) {
            Some(kept)
        } else {
            None
        }
    }

    /// Whether the value of a derived attribute is cached.
    pub(crate) fn has(&self, wanted: Wanted) -> bool {
        self.find(wanted).is_some()
    }

    /// Copies the cached value of a derived attribute to `value`, if any, and returns whether there
    /// is one.
    pub(crate) fn put(
        &self,
        alloc: Global,
        wanted: Wanted,
        value: &mut Datum<'r, Part<'p, 'r>>,
    ) -> Result<bool, AllocError>
        ensures { IfOk result (λ b. b ≡ true → (S : Setting) → (m : Meant S) → AreRight S m self.now
            → IsWorth S m wanted (datum_of holding value.new)) }
    {
        let Some(kept) = self.find(wanted) else {
            return Ok(false);
        };
        let known = copied(alloc, &kept.value)?;
        *value = known;
        Ok(true)
    }

    /// Caches the value of a derived attribute.
    pub(crate) fn keep(
        &mut self,
        wanted: Wanted,
        value: Datum<'r, Part<'p, 'r>>,
    ) -> Result<(), AllocError>
        ensures { OnOk result ((S : Setting) → (m : Meant S) → AreRight S m self.old
            → IsWorth S m wanted (datum_of holding value.entry) → AreRight S m self.new) }
    {
        self.places.insert(key(wanted), self.values.len())?;
        self.values.push(KeptValue { wanted, value })?;
        Ok(())
    }
}
