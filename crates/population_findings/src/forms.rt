//! The forms of the instances of a file, each built once.

ghost use Rattle.std.specs.Prelude.{◌≡◌, ℕ, List, [], ◌∷◌, Some, None, slice_set, IfOk};
ghost use Rattle.express_syntax.specs.Schemas.{Schema};
ghost use Rattle.step_structures.specs.Trees.{Record};
ghost use Rattle.step_exchange.specs.Views.{form_of};
ghost use Rattle.schema_names.specs.Schemas.{the_schema};
ghost use Rattle.population_forms.specs.steps.Forms.{NameEntities};
ghost use Rattle.population_forms.specs.steps.Knowing.{AreKnown};
ghost use Rattle.population_findings.specs.steps.Making.{
  AreMade,
  Adds,
  MakesOne,
  MakesForm,
  IsInternal,
  IsExternal,
  number_in,
};

use crate::keywords::{Recent, is_internal, number_all, recent_entity_of};
use indexmap::IndexMap;
use population_forms::forms::{external_form, internal_form};
use population_forms::knowledge::Knowledge;
use population_rows::form::Form;
use std::alloc::{AllocError, Global};
use std::hash::RandomState;
use step_records::param::Params;

/// Form numbers have 32 bits, so there are at most this many forms.
const MOST_FORMS: usize = 4_294_967_295;

/// The forms that were built so far.
#[derive(Drop)]
pub struct Made {
    /// For each declaration, the number of the form of instances that are mapped internally, by one
    /// record of that entity; `None` if that form isn't built yet.
    internal: Vec<Option<u32>>,
    /// The number of the form of instances that are mapped externally, by the entities of their
    /// records.
    external: IndexMap<Vec<u32>, u32, RandomState>,
    pub forms: Vec<Form>,
    /// The numbers of the types of each form.
    pub types: Vec<Vec<u32>>,
}

/// Returns the number at index `place`; `None` if `place` is out of range.
fn number_at(numbers: &[Option<u32>], place: u32) -> Option<u32>
    ensures { result ≡ number_in numbers.now place }
{
    match numbers.get(place as usize) {
        Some(number) => *number,
        None => None,
    }
}

/// Stores `number` at index `place`, unless `place` is out of range.
fn put_number(numbers: &mut [Option<u32>], place: u32, number: u32)
    ensures { numbers.new ≡ slice_set numbers.old place (Some number) }
{
    let place = place as usize;
    if place < numbers.len() {
        numbers[place] = Some(number);
    }
}

/// Returns `places` times `None`.
fn no_numbers(alloc: Global, places: usize) -> Result<Vec<Option<u32>>, AllocError>
    ensures { IfOk result (λ v. (i : ℕ) → number_in v.items i ≡ None) }
{
    let mut numbers = Vec::with_capacity(alloc, places)?;
    for _ in 0..places {
        numbers.push(None)?;
    }
    Ok(numbers)
}

impl Made {
    /// Returns an empty table for a schema with `declarations` declarations.
    pub fn new(alloc: Global, keys: RandomState, declarations: usize) -> Result<Made, AllocError>
        ensures { IfOk result (λ t. (s : Schema) → AreMade s t) }
    {
        Ok(Made {
            internal: no_numbers(alloc, declarations)?,
            external: IndexMap::with_hasher(alloc, keys),
            forms: Vec::new(alloc),
            types: Vec::new(alloc),
        })
    }

    /// Adds `form` and returns its number. Fails if there are 2^32 - 1 forms already.
    fn add(&mut self, alloc: Global, form: Form) -> Result<u32, AllocError>
        ensures { IfOk result (Adds self.old form self.new) }
    {
        if self.forms.len() >= MOST_FORMS {
            return Err(AllocError);
        }
        let number = self.forms.len() as u32;
        self.types.push(Vec::from_slice(alloc, &form.types)?)?;
        self.forms.push(form)?;
        Ok(number)
    }

    /// Returns the number of the form of instances that are mapped internally, by one record of
    /// `entity`.
    fn internal(
        &mut self,
        alloc: Global,
        known: &Knowledge<'_, '_, '_>,
        entity: u32,
    ) -> Result<u32, AllocError>
        requires known { AreKnown known.now }
        requires made { AreMade (the_schema known.now.names.now) self.old }
        requires named { (r : Record) × NameEntities (the_schema known.now.names.now) (r ∷ [])
            (entity ∷ []) }
        ensures { IfOk result (MakesOne (the_schema known.now.names.now)
            (IsInternal (the_schema known.now.names.now) entity) self.old self.new) }
    {
        if let Some(number) = number_at(&self.internal, entity) {
            return Ok(number);
        }
        let number = self.add(alloc, internal_form(alloc, known, entity)?)?;
        put_number(&mut self.internal, entity, number);
        Ok(number)
    }

    /// Returns the number of the form of instances that are mapped externally, by records of
    /// `entities`. They are passed in a `Vec` because the keys of the table are of that type.
    fn external(
        &mut self,
        alloc: Global,
        known: &Knowledge<'_, '_, '_>,
        entities: &Vec<u32>,
    ) -> Result<u32, AllocError>
        requires known { AreKnown known.now }
        requires made { AreMade (the_schema known.now.names.now) self.old }
        requires named { (rs : List Record)
            × NameEntities (the_schema known.now.names.now) rs entities.now.items }
        ensures { IfOk result (MakesOne (the_schema known.now.names.now)
            (IsExternal (the_schema known.now.names.now) entities.now.items) self.old self.new) }
    {
        if let Some(number) = self.external.get(entities) {
            return Ok(*number);
        }
        let number = self.add(alloc, external_form(alloc, known, entities)?)?;
        self.external
            .insert(Vec::from_slice(alloc, entities)?, number)?;
        Ok(number)
    }

    /// Returns the number of the form of an instance; `None` if one of its keywords isn't an
    /// entity. `entities` is overwritten with the entities of partial records.
    pub fn form(
        &mut self,
        alloc: Global,
        known: &Knowledge<'_, '_, '_>,
        recent: &mut Recent,
        entities: &mut Vec<u32>,
        parts: &Params<'_, '_>,
    ) -> Result<Option<u32>, AllocError>
        requires known { AreKnown known.now }
        requires made { AreMade (the_schema known.now.names.now) self.old }
        ensures { IfOk result (MakesForm (the_schema known.now.names.now) (form_of parts.now)
            self.old self.new) }
    {
        if is_internal(parts) {
            let Some(entity) = recent_entity_of(known.names, recent, parts) else {
                return Ok(None);
            };
            return Ok(Some(self.internal(alloc, known, entity)?));
        }
        if !number_all(known.names, recent, entities, parts)? {
            return Ok(None);
        }
        Ok(Some(self.external(alloc, known, entities)?))
    }
}
