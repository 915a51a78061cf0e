//! The explicit declarations of entities, by the explicit attributes to which they apply.

ghost use Rattle.std.specs.Prelude.{
  ◌≡◌,
  ℕ,
  ◌+◌,
  ◌<◌,
  ◌++◌,
  ◌∷◌,
  true,
  [],
  length,
  map,
  slice_get,
  IfOk,
  OnOk,
};
ghost use Rattle.std.specs.List.{AllZip};
ghost use Rattle.graphs.specs.Graphs.{graph_of, has};
ghost use Rattle.graphs.specs.Rounds.{added, AreMarks};
ghost use Rattle.express_syntax.specs.Schemas.{DataType as DataTypeTree};
ghost use Rattle.express_syntax.specs.Views.{attribute_of, explicit_of, declaration_of};
ghost use Rattle.schema_semantics.specs.Names.{Name, own_names};
ghost use Rattle.schema_names.specs.Numbers.{IsAt};
ghost use Rattle.schema_names.specs.Schemas.{the_schema};
ghost use Rattle.schema_explicit_attributes.specs.Places.{all_places};
ghost use Rattle.schema_redeclarations.specs.steps.Speaking.{
  AreSources,
  ArePlacesOf,
  SpeakTogether,
  IsTypeAt,
  AreOwnAt,
  AreTypesAt,
  names_of,
  use_of,
  AreUsesOf,
  AddsUses,
  AreUsesIn,
};

use crate::redeclared_attributes::{add, explicit_place, row_of};
use crate::uses::{AttributeUse, Sources};
use express_syntax::tree::{Attribute, Declaration, Explicit};
use graphs::rows::{add_new, unmark};
use schema_data_types::laws::data_types_are_known;
use std::alloc::{AllocError, Global};

/// Returns the sum of two numbers.
fn sum(first: usize, second: usize) -> Result<usize, AllocError>
    ensures { IfOk result (λ m. m ≡ first + second) }
{
    match first.checked_add(second) {
        Some(both) => Ok(both),
        None => Err(AllocError),
    }
}

/// Returns 1, or 0 for a redeclaration.
fn own_one(attribute: Attribute<'_>) -> usize
    ensures { result ≡ length (own_names (attribute_of attribute.entry ∷ [])) }
{
    match attribute {
        Attribute::Unqualified(_) => 1,
        Attribute::Redeclared(_, _) => 0,
    }
}

/// Returns the count of `attributes` that aren't redeclarations.
fn own_count(attributes: &[Attribute<'_>]) -> Result<usize, AllocError>
    ensures { IfOk result (λ m. m ≡ length (own_names (map attribute_of attributes.now))) }
{
    let mut count = 0;
    for attribute in attributes {
        count = sum(count, own_one(*attribute))?;
    }
    Ok(count)
}

/// Returns the number at an index of `row`, if any.
fn number_at(row: &[u32], place: usize) -> Option<u32>
    ensures { result ≡ slice_get row.now place }
{
    row.get(place).copied()
}

/// Returns the numbers of the explicit attributes that one declaration declares or redeclares with
/// this data type. `own` lists the numbers of the entity's own ones, those of `attributes` from
/// `first` on. A number may occur repeatedly.
fn spoken_places(
    alloc: Global,
    sources: &Sources<'_, '_, '_>,
    own: &[u32],
    first: usize,
    attributes: &[Attribute<'_>],
    data_type: u32,
) -> Result<Vec<u32>, AllocError>
    requires sources { AreSources sources.now }
    ensures { IfOk result (λ places. (n : Name) (k : DataTypeTree)
        → IsTypeAt (the_schema sources.now.names.now) k data_type
        → AreOwnAt (the_schema sources.now.names.now) n own.now first
        (own_names (map attribute_of attributes.now))
        → ArePlacesOf (the_schema sources.now.names.now)
        (SpeakTogether (the_schema sources.now.names.now) n k
        (map attribute_of attributes.now)) places.items) }
{
    let mut places = Vec::new(alloc);
    let mut next = first;
    for attribute in attributes {
        let own_number = number_at(own, next);
        add(
            &mut places,
            explicit_place(sources, *attribute, own_number, data_type),
        )?;
        next = sum(next, own_one(*attribute))?;
    }
    Ok(places)
}

/// Returns the numbers, each once. All marks are cleared.
fn distinct(alloc: Global, marks: &mut [bool], numbers: &[u32]) -> Result<Vec<u32>, AllocError>
    requires clean { AreMarks marks.old [] }
    requires within { (q : ℕ) → has numbers.now q ≡ true → q < length marks.old }
    ensures distinct { IfOk result (λ v. v.items ≡ added [] numbers.now) }
    ensures clean { OnOk result (AreMarks marks.new []) }
    ensures length { length marks.new ≡ length marks.old }
{
    let mut found = Vec::new(alloc);
    add_new(&mut found, marks, numbers)?;
    unmark(marks, &found);
    Ok(found)
}

/// Adds a use of each of the explicit attributes `places`.
fn add_uses(
    uses: &mut Vec<AttributeUse>,
    places: &[u32],
    data_type: u32,
    is_optional: bool,
) -> Result<(), AllocError>
    ensures { OnOk result (uses.new.items
        ≡ uses.old.items ++ map (use_of data_type is_optional) places.now) }
{
    for place in places {
        uses.push(AttributeUse {
            place: *place,
            data_type,
            is_optional,
        })?;
    }
    Ok(())
}

/// Adds the uses of one declaration, whose data type has the number `data_type`. All marks are
/// cleared.
fn add_explicit<'a>(
    alloc: Global,
    sources: &Sources<'a, '_, '_>,
    marks: &mut [bool],
    own: &[u32],
    first: usize,
    explicit: &Explicit<'a>,
    data_type: u32,
    uses: &mut Vec<AttributeUse>,
) -> Result<(), AllocError>
    requires sources { AreSources sources.now }
    requires clean { AreMarks marks.old [] }
    requires many { length marks.old ≡ length (all_places (the_schema sources.now.names.now)) }
    requires typed { IsTypeAt (the_schema sources.now.names.now)
        (explicit_of explicit.now).data_type data_type }
    requires owned { (n : Name) × AreOwnAt (the_schema sources.now.names.now) n own.now first
        (own_names (explicit_of explicit.now).attributes) }
    ensures uses { OnOk result ((n : Name)
        → AreOwnAt (the_schema sources.now.names.now) n own.now first
        (own_names (explicit_of explicit.now).attributes)
        → AddsUses (the_schema sources.now.names.now) n (explicit_of explicit.now) uses.old.items
        uses.new.items) }
    ensures clean { OnOk result (AreMarks marks.new []) }
    ensures length { length marks.new ≡ length marks.old }
{
    let spoken = spoken_places(
        alloc,
        sources,
        own,
        first,
        explicit.attributes.as_slice(),
        data_type,
    )?;
    let places = distinct(alloc, marks, &spoken)?;
    add_uses(uses, &places, data_type, explicit.is_optional)
}

/// Returns the uses of an entity's explicit declarations. `row` lists the entity's data types, and
/// `own` its own explicit attributes. All marks are cleared.
fn explicit_uses<'a>(
    alloc: Global,
    sources: &Sources<'a, '_, '_>,
    marks: &mut [bool],
    row: &[u32],
    own: &[u32],
    explicits: &[Explicit<'a>],
) -> Result<Vec<AttributeUse>, AllocError>
    requires sources { AreSources sources.now }
    requires clean { AreMarks marks.old [] }
    requires many { length marks.old ≡ length (all_places (the_schema sources.now.names.now)) }
    requires typed { AreTypesAt (the_schema sources.now.names.now) row.now
        (map explicit_of explicits.now) }
    requires owned { (n : Name) × AreOwnAt (the_schema sources.now.names.now) n own.now 0
        (names_of (map explicit_of explicits.now)) }
    ensures uses { IfOk result (λ us. (n : Name)
        → AreOwnAt (the_schema sources.now.names.now) n own.now 0
        (names_of (map explicit_of explicits.now))
        → AreUsesOf (the_schema sources.now.names.now) n (map explicit_of explicits.now) us.items) }
    ensures clean { OnOk result (AreMarks marks.new []) }
    ensures length { length marks.new ≡ length marks.old }
{
    let mut uses = Vec::new(alloc);
    let mut first = 0;
    for n in 0..explicits.len() {
        let explicit = &explicits[n];
        add_explicit(
            alloc, sources, marks, own, first, explicit, row[n], &mut uses,
        )?;
        first = sum(first, own_count(explicit.attributes.as_slice())?)?;
    }
    Ok(uses)
}

/// Returns the uses of the declaration `i`. Empty for anything that isn't an entity. All marks are
/// cleared.
fn uses_by<'a>(
    alloc: Global,
    sources: &Sources<'a, '_, '_>,
    marks: &mut [bool],
    i: usize,
    declaration: &Declaration<'a>,
) -> Result<Vec<AttributeUse>, AllocError>
    requires sources { AreSources sources.now }
    requires clean { AreMarks marks.old [] }
    requires many { length marks.old ≡ length (all_places (the_schema sources.now.names.now)) }
    requires at { IsAt (the_schema sources.now.names.now) i (declaration_of declaration.now) }
    ensures uses { IfOk result (λ us. AreUsesIn (the_schema sources.now.names.now)
        (declaration_of declaration.now) us.items) }
    ensures clean { OnOk result (AreMarks marks.new []) }
    ensures length { length marks.new ≡ length marks.old }
{
    match declaration {
        Declaration::Entity(entity) => {
            data_types_are_known();
            let row = row_of(&sources.data_types.rows, i);
            let own = row_of(sources.own, i);
            explicit_uses(alloc, sources, marks, row, own, &entity.explicits)
        }
        _ => Ok(Vec::new(alloc)),
    }
}

/// Returns the uses by declaration. `marks` has one cleared mark for each explicit attribute.
fn gathered_uses(
    alloc: Global,
    sources: &Sources<'_, '_, '_>,
    marks: &mut [bool],
) -> Result<Vec<Vec<AttributeUse>>, AllocError>
    requires sources { AreSources sources.now }
    requires clean { AreMarks marks.old [] }
    requires many { length marks.old ≡ length (all_places (the_schema sources.now.names.now)) }
    ensures { IfOk result (λ rows. AllZip (AreUsesIn (the_schema sources.now.names.now))
        (the_schema sources.now.names.now).declarations (map (λ v. v.items) rows.items)) }
{
    let mut rows = Vec::new(alloc);
    let declarations = sources.names.declarations();
    for n in 0..declarations.len() {
        let row = uses_by(alloc, sources, marks, n, &declarations[n])?;
        rows.push(row)?;
    }
    Ok(rows)
}

/// Returns by declaration the uses of explicit attributes.
pub(crate) fn all_uses(
    alloc: Global,
    sources: &Sources<'_, '_, '_>,
) -> Result<Vec<Vec<AttributeUse>>, AllocError>
    requires sources { AreSources sources.now }
    ensures { IfOk result (λ rows. AllZip (AreUsesIn (the_schema sources.now.names.now))
        (the_schema sources.now.names.now).declarations (map (λ v. v.items) rows.items)) }
{
    let mut marks = vec![in alloc; false; sources.places.len()]?;
    gathered_uses(alloc, sources, &mut marks)
}
