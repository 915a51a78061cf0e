//! The entities that the records of an instance name.

ghost use Rattle.std.specs.Prelude.{◌≡◌, ◌≤◌, [], ◌∷◌, Some, map, IfOk, IsTrue};
ghost use Rattle.express_syntax.specs.ExpressionViews.{capitals};
ghost use Rattle.schema_semantics.specs.Faults.{IsResolved};
ghost use Rattle.step_exchange.specs.Views.{record_of, record_in, begins_with_keyword, form_of};
ghost use Rattle.conformance.specs.Entities.{named_entity, records};
ghost use Rattle.schema_names.specs.Schemas.{the_schema};
ghost use Rattle.population_findings.specs.steps.Keywords.{BeginsWith, IsEntityOf, NumberAll, unknown_among};

use express_syntax::tree::Declaration;
use schema_names::names::Names;
use std::alloc::{AllocError, Global};
use step_literals::literal::Word;
use step_records::param::{Node, Params};

/// The number of entities that are remembered.
const REMEMBERED: usize = 256;

/// Entities that keywords named, at indices that depend on the length and the first and last letter
/// of the keyword. A file names few entities, so mostly a keyword is compared with one name and not
/// hashed.
#[derive(Drop)]
pub struct Recent {
    entities: Vec<u32>,
}

impl Recent {
    /// Returns a table in which no keyword has been noted yet.
    pub fn new(alloc: Global) -> Result<Recent, AllocError> {
        Ok(Recent {
            entities: vec![in alloc; 0; REMEMBERED]?,
        })
    }

    /// Returns the index of the entity of the keyword `name`.
    fn place(name: &[u8]) -> usize {
        let (Some(first), Some(last)) = (name.first(), name.last()) else {
            return 0;
        };
        let letters = (*first as usize)
            .wrapping_mul(31)
            .wrapping_add(*last as usize);
        letters.wrapping_mul(7).wrapping_add(name.len()) % REMEMBERED
    }

    /// Remembers `entity` at index `place`.
    fn note(&mut self, place: usize, entity: u32) {
        if let Some(noted) = self.entities.get_mut(place) {
            *noted = entity;
        }
    }
}

/// Returns the keyword if it is the first of `parts`, otherwise `None`.
fn keyword<'a>(parts: &Params<'a, '_>) -> Option<Word<'a>>
    ensures { BeginsWith parts.now result }
{
    let Some(first) = parts.item(0) else {
        return None;
    };
    match first.node() {
        Node::Keyword(word) => Some(word),
        _ => None,
    }
}

/// Whether an instance is mapped internally, so that `parts` begin with a keyword.
pub fn is_internal(parts: &Params<'_, '_>) -> bool
    ensures { result ≡ begins_with_keyword parts.now }
{
    keyword(parts).is_some()
}

/// Returns the number of the entity called `name`, if any.
fn find_entity(names: &Names<'_, '_>, name: Word<'_>) -> Option<u32>
    requires { IsResolved (the_schema names.now) }
    ensures { IsEntityOf (the_schema names.now) (capitals name.entry) result }
{
    let Some(number) = names.find(name) else {
        return None;
    };
    match names.declaration(number) {
        Declaration::Entity(_) => Some(number),
        _ => None,
    }
}

/// Whether the declaration numbered `number` is the entity called `name`.
fn is_entity_at(names: &Names<'_, '_>, number: u32, name: Word<'_>) -> bool
    requires { IsResolved (the_schema names.now) }
    ensures { IsTrue result
        → IsEntityOf (the_schema names.now) (capitals name.entry) (Some number) }
{
    match names.at(number) {
        Some(Declaration::Entity(entity)) => entity.name == name,
        _ => false,
    }
}

/// Returns the number of the entity called `name`, if any, and remembers it.
fn find_recent(names: &Names<'_, '_>, recent: &mut Recent, name: Word<'_>) -> Option<u32>
    requires { IsResolved (the_schema names.now) }
    ensures { IsEntityOf (the_schema names.now) (capitals name.entry) result }
{
    let place = Recent::place(name.spelling());
    if let Some(entity) = recent.entities.get(place).copied() {
        if is_entity_at(names, entity, name) {
            return Some(entity);
        }
    }
    let Some(entity) = find_entity(names, name) else {
        return None;
    };
    recent.note(place, entity);
    Some(entity)
}

/// Returns the number of the entity that `record` names, if any, and remembers it.
pub fn recent_entity_of(
    names: &Names<'_, '_>,
    recent: &mut Recent,
    record: &Params<'_, '_>,
) -> Option<u32>
    requires { IsResolved (the_schema names.now) }
    ensures { IsEntityOf (the_schema names.now) (named_entity (record_of record.now)) result }
{
    match keyword(record) {
        Some(word) => find_recent(names, recent, word),
        None => None,
    }
}

/// Returns the number of the entity that `record` names, if any.
fn entity_of(names: &Names<'_, '_>, record: &Params<'_, '_>) -> Option<u32>
    requires { IsResolved (the_schema names.now) }
    ensures { IsEntityOf (the_schema names.now) (named_entity (record_of record.now)) result }
{
    match keyword(record) {
        Some(word) => find_entity(names, word),
        None => None,
    }
}

/// Overwrites `entities` with the numbers of the entities that `partials` name, up to the first
/// keyword that isn't an entity. Returns whether all keywords are entities.
pub fn number_all(
    names: &Names<'_, '_>,
    recent: &mut Recent,
    entities: &mut Vec<u32>,
    partials: &Params<'_, '_>,
) -> Result<bool, AllocError>
    requires { IsResolved (the_schema names.now) }
    ensures { IfOk result (NumberAll (the_schema names.now) (map record_in partials.now)
        entities.new.items) }
{
    entities.clear();
    for i in 0..partials.len() {
        let Some(entity) = recent_entity_of(names, recent, &partials.at(i).parts()) else {
            return Ok(false);
        };
        entities.push(entity)?;
    }
    Ok(true)
}

/// Returns 1 if `record` names no entity, otherwise 0.
fn unknown_entity(names: &Names<'_, '_>, record: &Params<'_, '_>) -> usize
    requires { IsResolved (the_schema names.now) }
    ensures counted { result ≡ unknown_among (the_schema names.now) (record_of record.now ∷ []) }
    ensures few { result ≤ 1 }
{
    match entity_of(names, record) {
        Some(_) => 0,
        None => 1,
    }
}

/// Returns how many of `partials` name no entity.
fn unknown_partials(names: &Names<'_, '_>, partials: &Params<'_, '_>) -> usize
    requires { IsResolved (the_schema names.now) }
    ensures { result ≡ unknown_among (the_schema names.now) (map record_in partials.now) }
{
    let mut unknown: usize = 0;
    for i in 0..partials.len() {
        unknown += unknown_entity(names, &partials.at(i).parts());
    }
    unknown
}

/// Returns how many records of an instance name no entity.
pub fn unknown_entities(names: &Names<'_, '_>, parts: &Params<'_, '_>) -> usize
    requires { IsResolved (the_schema names.now) }
    ensures { result ≡ unknown_among (the_schema names.now) (records (form_of parts.now)) }
{
    if !is_internal(parts) {
        return unknown_partials(names, parts);
    }
    unknown_entity(names, parts)
}
