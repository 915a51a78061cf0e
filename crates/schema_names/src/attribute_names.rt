//! The names of the attributes that entities declare themselves (ISO 10303-11, 9.2.1).

ghost use Rattle.std.specs.Prelude.{
  ◌≡◌,
  ℕ,
  ◌<◌,
  ◌^◌,
  ◌++◌,
  ◌∷◌,
  [],
  Some,
  None,
  cond,
  flat_map,
  length,
  map,
  nat_eq,
  IfOk,
  IfSome,
  MatchOption,
  OnOk,
};
ghost use Rattle.std.specs.List.Sorted.{IsSorted};
ghost use Rattle.indexmap.specs.IndexMap.{get};
ghost use Rattle.express_syntax.specs.ExpressionViews.{capitals};
ghost use Rattle.express_syntax.specs.Schemas.{
  Explicit as ExplicitTree,
  Derived as DerivedTree,
  Inverse as InverseTree,
};
ghost use Rattle.express_syntax.specs.Views.{
  attribute_of,
  explicit_of,
  derived_of,
  inverse_of,
  entity_of,
  names_of,
  declaration_of as declaration_seen,
};
ghost use Rattle.schema_semantics.specs.Names.{explicit_names, derived_names, inverse_names, own_names};
ghost use Rattle.schema_names.specs.steps.Enumerated.{includes, by_name};
ghost use Rattle.schema_names.specs.steps.OwnNames.{names_in, IsRowOf, AreOwnRows};

use crate::enumeration_items::{has_word, in_order};
use express_syntax::tree::{Attribute, Declaration, Derived, Entity, Explicit, Inverse};
use indexmap::IndexMap;
use std::alloc::{AllocError, Global};
use std::hash::RandomState;
use step_literals::literal::Word;

/// Up to this count of attributes, an entity gets no row of names and is searched linearly.
const FEW: usize = 16;

/// The classes of attributes, each with its own table of rows.
#[derive(Clone, Copy)]
pub enum Class {
    Explicit,
    /// Derived and inverse attributes.
    Other,
}

/// The sorted names of an entity's attributes of one class, by the number of the entity. Only
/// entities with more than `FEW` of them have a row.
pub(crate) type OwnRows<'a> = IndexMap<u32, Vec<Word<'a>>, RandomState>;

/// Adds the name of `attribute`, unless it is a redeclaration.
fn add_own<'a>(names: &mut Vec<Word<'a>>, attribute: Attribute<'a>) -> Result<(), AllocError>
    ensures { OnOk result (names_of names.new.items
        ≡ names_of names.old.items ++ own_names (attribute_of attribute.entry ∷ [])) }
{
    if let Attribute::Unqualified(name) = attribute {
        names.push(name)?;
    }
    Ok(())
}

/// Adds the names of `attributes`, except redeclarations.
fn add_together<'a>(
    names: &mut Vec<Word<'a>>,
    attributes: &[Attribute<'a>],
) -> Result<(), AllocError>
    ensures { OnOk result (names_of names.new.items
        ≡ names_of names.old.items ++ own_names (map attribute_of attributes.now)) }
{
    for attribute in attributes {
        add_own(names, *attribute)?;
    }
    Ok(())
}

/// Adds the names of explicit attributes, except redeclarations.
fn add_explicits<'a>(
    names: &mut Vec<Word<'a>>,
    explicits: &[Explicit<'a>],
) -> Result<(), AllocError>
    ensures { OnOk result (names_of names.new.items ≡ names_of names.old.items
        ++ flat_map (λ (x : ExplicitTree). own_names x.attributes)
        (map explicit_of explicits.now)) }
{
    for explicit in explicits {
        add_together(names, explicit.attributes.as_slice())?;
    }
    Ok(())
}

/// Adds the names of derived attributes, except redeclarations.
fn add_derived<'a>(names: &mut Vec<Word<'a>>, derived: &[Derived<'a>]) -> Result<(), AllocError>
    ensures { OnOk result (names_of names.new.items ≡ names_of names.old.items
        ++ own_names (map (λ (x : DerivedTree). x.attribute) (map derived_of derived.now))) }
{
    for each in derived {
        add_own(names, each.attribute)?;
    }
    Ok(())
}

/// Adds the names of inverse attributes, except redeclarations.
fn add_inverses<'a>(names: &mut Vec<Word<'a>>, inverses: &[Inverse<'a>]) -> Result<(), AllocError>
    ensures { OnOk result (names_of names.new.items ≡ names_of names.old.items
        ++ own_names (map (λ (x : InverseTree). x.attribute) (map inverse_of inverses.now))) }
{
    for each in inverses {
        add_own(names, each.attribute)?;
    }
    Ok(())
}

/// Returns the names of the derived attributes of `entity`, then of its inverse attributes.
fn names_of_others<'a>(alloc: Global, entity: &Entity<'a>) -> Result<Vec<Word<'a>>, AllocError>
    ensures { IfOk result (λ v. names_of v.items
        ≡ derived_names (entity_of entity.now) ++ inverse_names (entity_of entity.now)) }
{
    let mut names = Vec::new(alloc);
    add_derived(&mut names, entity.derived_attributes())?;
    add_inverses(&mut names, entity.inverse_attributes())?;
    Ok(names)
}

/// Returns the names of the explicit attributes of `entity`.
fn names_of_explicits<'a>(alloc: Global, entity: &Entity<'a>) -> Result<Vec<Word<'a>>, AllocError>
    ensures { IfOk result (λ v. names_of v.items ≡ explicit_names (entity_of entity.now)) }
{
    let mut names = Vec::new(alloc);
    add_explicits(&mut names, &entity.explicits)?;
    Ok(names)
}

/// Returns the names of the attributes of a class that `declaration` declares itself. Empty for
/// anything that isn't an entity.
fn class_names<'a>(
    alloc: Global,
    declaration: &Declaration<'a>,
    class: Class,
) -> Result<Vec<Word<'a>>, AllocError>
    ensures { IfOk result (λ v. names_of v.items
        ≡ names_in class (declaration_seen declaration.now)) }
{
    let Declaration::Entity(entity) = declaration else {
        return Ok(Vec::new(alloc));
    };
    match class {
        Class::Explicit => names_of_explicits(alloc, entity),
        Class::Other => names_of_others(alloc, entity),
    }
}

/// Stores `row` at `number`.
fn insert<'a>(rows: &mut OwnRows<'a>, number: u32, row: Vec<Word<'a>>) -> Result<(), AllocError>
    ensures { OnOk result ((i : ℕ) → get nat_eq rows.new i
        ≡ cond (nat_eq number i) (Some row.entry) (get nat_eq rows.old i)) }
{
    rows.insert(number, row)?;
    Ok(())
}

/// Adds the sorted row of the declaration `number`, if it declares more than `FEW` attributes of
/// `class`.
fn add_row<'a>(
    alloc: Global,
    declarations: &[Declaration<'a>],
    number: u32,
    class: Class,
    rows: &mut OwnRows<'a>,
) -> Result<(), AllocError>
    requires within { number < length declarations.now }
    requires rows { AreOwnRows (map declaration_seen declarations.now) class (get nat_eq rows.old) }
    ensures { OnOk result
        (AreOwnRows (map declaration_seen declarations.now) class (get nat_eq rows.new)) }
{
    let names = class_names(alloc, &declarations[number as usize], class)?;
    if names.len() <= FEW {
        return Ok(());
    }
    insert(rows, number, in_order(alloc, &names)?)
}

/// Returns the sorted names of the attributes of `class` for each entity that declares more than
/// `FEW` of them.
pub(crate) fn own_rows<'a>(
    alloc: Global,
    keys: RandomState,
    declarations: &[Declaration<'a>],
    class: Class,
) -> Result<OwnRows<'a>, AllocError>
    requires few { length declarations.now < 2 ^ 32 }
    ensures { IfOk result (λ rows.
        AreOwnRows (map declaration_seen declarations.now) class (get nat_eq rows)) }
{
    let mut rows = IndexMap::with_hasher(alloc, keys);
    for i in 0..declarations.len() {
        add_row(alloc, declarations, i as u32, class, &mut rows)?;
    }
    Ok(rows)
}

/// Whether the row of `number` contains `name`, or `None` if `number` has no row.
pub(crate) fn has_in(rows: &OwnRows<'_>, number: u32, name: Word<'_>) -> Option<bool>
    requires { (i : ℕ) → IfSome (get nat_eq rows.now i) (λ v. IsSorted by_name v.items) }
    ensures { MatchOption (get nat_eq rows.now number) (result ≡ None)
        (λ v. result ≡ Some (includes (names_of v.items) (capitals name.entry))) }
{
    match rows.get(&number) {
        Some(row) => Some(has_word(row, name)),
        None => None,
    }
}
