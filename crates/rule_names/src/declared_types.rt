//! The types with which explicit attributes are declared.

ghost use Rattle.std.specs.Prelude.{◌≡◌, map, IfOk};
ghost use Rattle.std.specs.List.{AllZip, find};
ghost use Rattle.schema_names.specs.Schemas.{the_schema};
ghost use Rattle.schema_redeclarations.specs.Uses.{HasPlace, uses_at};
ghost use Rattle.schema_redeclarations.specs.declared.uses.AttributeUse.{AttributeUse};
ghost use Rattle.schema_types.specs.TypeTables.{IsMade};
ghost use Rattle.schema_types.specs.steps.Graphs.{place_of};
ghost use Rattle.population_forms.specs.steps.Tables.{AreTables};
ghost use Rattle.rule_names.specs.steps.Declaring.{is_of, AreFirst};
ghost use Rattle.rule_names.specs.Tables.{IsDeclaredAs, AreDeclared};

use population_forms::tables::SchemaTables;
use population_rows::index::RowIndex;
use schema_explicit_attributes::attributes::Place;
use schema_redeclarations::uses::{AttributeUse, Uses};
use schema_types::types::ResolvedTypes;
use schema_underlying_types::base::Base;
use std::alloc::{AllocError, Global};
use std::hash::RandomState;

/// The greatest number of declarations by one entity that an index can have.
const MOST: usize = 4_294_967_295;

/// Returns the numbers of the explicit attributes that `uses` declare, in order.
fn places_of(alloc: Global, uses: &[AttributeUse]) -> Result<Vec<u64>, AllocError>
    ensures { IfOk result (λ v. v.items ≡ map (λ (u : AttributeUse). u.place) uses.now) }
{
    let mut places = Vec::with_capacity(alloc, uses.len())?;
    for each in uses {
        places.push(each.place as u64)?;
    }
    Ok(places)
}

/// Returns an index that maps the number of an explicit attribute to the position of its first
/// declaration in `uses`. Numbers are hashed by `keys`. Fails if there are more than 2^32 - 1
/// declarations.
fn first_uses(
    alloc: Global,
    keys: RandomState,
    uses: &[AttributeUse],
) -> Result<RowIndex, AllocError>
    ensures { IfOk result (AreFirst uses.now) }
{
    if uses.len() > MOST {
        return Err(AllocError);
    }
    let places = places_of(alloc, uses)?;
    RowIndex::of(alloc, keys, &places)
}

/// Returns the indexes of `first_uses` for all entities, by declaration.
fn first_uses_by_entity(
    alloc: Global,
    keys: RandomState,
    uses: &Uses,
) -> Result<Vec<RowIndex>, AllocError>
    ensures { IfOk result (λ rows. AllZip (λ v t. AreFirst v.items t) uses.now.explicit.items
        rows.items) }
{
    let mut rows = Vec::new(alloc);
    for row in &uses.explicit {
        rows.push(first_uses(alloc, keys, row)?)?;
    }
    Ok(rows)
}

/// Returns the declarations of explicit attributes by the entity numbered `entity`; empty if it
/// isn't the number of an entity.
fn uses_at(uses: &Uses, entity: u32) -> &[AttributeUse]
    ensures { result.now ≡ uses_at uses.now entity }
{
    match uses.explicit.get(entity as usize) {
        Some(row) => row,
        None => &[],
    }
}

/// Returns the first declaration in `uses` of the explicit attribute numbered `place`, if any.
fn first_among(uses: &[AttributeUse], index: &RowIndex, place: usize) -> Option<AttributeUse>
    requires { AreFirst uses.now index.now }
    ensures { result ≡ find (is_of place) uses.now }
{
    match index.find(place as u64) {
        Some(number) => uses.get(number as usize).copied(),
        None => None,
    }
}

/// Returns the first declaration of the explicit attribute numbered `place` by `entity`, if any.
fn first_use(uses: &Uses, firsts: &[RowIndex], entity: u32, place: usize) -> Option<AttributeUse>
    requires { AllZip (λ v t. AreFirst v.items t) uses.now.explicit.items firsts.now }
    ensures { result ≡ find (is_of place) (uses_at uses.now entity) }
{
    match firsts.get(entity as usize) {
        Some(index) => first_among(uses_at(uses, entity), index, place),
        None => None,
    }
}

/// Returns the underlying type with which the explicit attribute `place`, whose number is `number`,
/// is declared.
fn declared_base(
    types: &ResolvedTypes<'_, '_>,
    tables: &SchemaTables,
    firsts: &[RowIndex],
    place: Place<'_, '_>,
    number: usize,
) -> Base
    requires made { IsMade types.now }
    requires tables { AreTables types.now tables.now }
    requires firsts { AllZip (λ v t. AreFirst v.items t) tables.now.uses.explicit.items firsts.now }
    requires place { HasPlace (the_schema types.now.names) (place_of place) number }
    ensures { IsDeclaredAs (the_schema types.now.names) (place_of place.entry) result }
{
    let Some(entity) = types.names.find(*place.entity) else {
        return Base::Integer;
    };
    match first_use(&tables.uses, firsts, entity, number) {
        Some(first) => tables.bases(types).of_number(first.data_type),
        None => Base::Integer,
    }
}

/// Returns, by number, the underlying types with which explicit attributes are declared, by the
/// entities that declare them and whatever redeclares them (ISO 10303-11, 9.2.1.1 and 9.2.3.4).
/// Numbers are hashed by `keys`.
pub fn declared_bases(
    alloc: Global,
    keys: RandomState,
    types: &ResolvedTypes<'_, '_>,
    tables: &SchemaTables,
) -> Result<Vec<Base>, AllocError>
    requires made { IsMade types.now }
    requires tables { AreTables types.now tables.now }
    ensures { IfOk result (λ t. AreDeclared (the_schema types.now.names) t.items) }
{
    let firsts = first_uses_by_entity(alloc, keys, &tables.uses)?;
    let mut bases = Vec::new(alloc);
    let attributes = types.places.attributes.as_slice();
    for i in 0..attributes.len() {
        bases.push(declared_base(types, tables, &firsts, attributes[i], i))?;
    }
    Ok(bases)
}
