//! Collecting the attribute declarations of a schema, in the order of the text.

ghost use Rattle.std.specs.Prelude.{
  ◌≡◌,
  ℕ,
  ◌+◌,
  ◌↔◌,
  Some,
  map,
  length,
  slice_get,
  IfOk,
  OnOk,
  IsTrue,
};
ghost use Rattle.graphs.specs.Graphs.{graph_of, next};
ghost use Rattle.express_syntax.specs.ExpressionViews.{capitals};
ghost use Rattle.express_syntax.specs.Views.{
  attribute_of,
  explicit_of,
  derived_of,
  inverse_of,
  entity_of,
  declaration_of,
};
ghost use Rattle.express_syntax.specs.Schemas.{redeclared};
ghost use Rattle.schema_semantics.specs.Names.{Name, IsEntity};
ghost use Rattle.schema_names.specs.Numbers.{HasNumber, IsAt};
ghost use Rattle.schema_names.specs.Schemas.{the_schema};
ghost use Rattle.schema_attributes.specs.steps.Declarations.{AreAttributes};
ghost use Rattle.schema_attributes.specs.Derivations.{derivations_in};
ghost use Rattle.schema_attributes.specs.declared.attribute_collection.Class.TheVariants as classes;
ghost use Rattle.schema_attributes.specs.steps.Gathering.{
  AreSources,
  rows_in,
  AddsAll,
  Allows,
  IsKnownAt,
  AreKnownFrom,
  Says,
  SaysOne,
  SaysTogether,
  SaysExplicit,
  SaysDerived,
  SaysInverse,
  SaysClauses,
  SaysEntity,
  SaysDeclaration,
  AreNth,
  SaysAt,
};

use crate::attributes::Attributes;
use crate::counts::attribute_count;
use crate::declaration::AttributeDeclaration;
use crate::redeclarations::{has_first_shape, redeclared_entity};
use express_syntax::tree::{Attribute, Declaration, Derived, Entity, Explicit, Inverse};
use schema_data_types::forms::DataTypes;
use schema_data_types::laws::data_types_are_known;
use schema_data_types::shapes::Shape;
use schema_names::names::Names;
use std::alloc::{AllocError, Global};
use std::hash::RandomState;
use step_literals::literal::Word;

/// The tables from which the attribute declarations of a schema are collected.
#[derive(Clone, Copy)]
pub struct Sources<'a, 't, 'r> {
    pub names: &'r Names<'a, 't>,
    pub data_types: &'r DataTypes,
    /// By entity, its supertype chain.
    pub lines: &'r [Vec<u32>],
    /// By data type, its shape.
    pub shapes: &'r [Shape],
}

/// An entity whose attributes are collected.
#[derive(Clone, Copy)]
struct Owner<'r> {
    /// The entity's number.
    entity: u32,
    /// The numbers of its data types: of explicit attributes first, then of derived ones, then of
    /// inverse ones.
    row: &'r [u32],
    /// The count of derived attributes that precede its own in the schema.
    count: usize,
}

/// The declaration of an attribute, whose data type has a number or none.
#[derive(Clone, Copy)]
struct OwnDeclaration {
    /// The number of the entity.
    entity: u32,
    /// The number of the data type, if any.
    data_type: Option<u32>,
    /// The number of the derived attribute, if this declaration derives the value.
    derivation: Option<u32>,
}

/// The classes of attributes (ISO 10303-11, 9.2.1).
#[derive(Clone, Copy, Debug, PartialEq, Eq)]
pub enum Class {
    Explicit,
    Derived,
    Inverse,
}

/// Whether a redeclaration of this class and data type counts (ISO 10303-11, 9.2.3.4).
///
/// A derived one counts. An explicit one counts if its data type has the shape of the one with
/// which `entity` declares `attribute`. An inverse one doesn't count.
fn allows(
    sources: &Sources<'_, '_, '_>,
    class: Class,
    entity: u32,
    attribute: Word<'_>,
    data_type: u32,
) -> bool
    requires sources { AreSources sources.now }
    requires known { IsKnownAt (the_schema sources.now.names.now) class data_type }
    ensures { (p : Name) → IsEntity (the_schema sources.now.names.now) p
        → HasNumber (the_schema sources.now.names.now) p entity
        → IsTrue result ↔ Allows (the_schema sources.now.names.now) class data_type p
        (capitals attribute.entry) }
{
    match class {
        Class::Explicit => has_first_shape(
            sources.names,
            sources.data_types,
            sources.shapes,
            entity,
            attribute,
            data_type,
        ),
        Class::Derived => true,
        Class::Inverse => false,
    }
}

/// Adds the redeclaration of an attribute, if it counts.
fn add_redeclared<'a>(
    sources: &Sources<'_, '_, '_>,
    class: Class,
    attribute: Attribute<'a>,
    name: Word<'a>,
    declaration: AttributeDeclaration,
    table: &mut Attributes<'a>,
) -> Result<(), AllocError>
    requires sources { AreSources sources.now }
    requires known { IsKnownAt (the_schema sources.now.names.now) class declaration.data_type }
    requires named { (q : Name) × (attribute_of attribute ≡ redeclared q (capitals name)) }
    ensures { OnOk result (AddsAll table.old
        (Says (the_schema sources.now.names.now) class declaration (attribute_of attribute.entry))
        table.new) }
{
    let Some(entity) = redeclared_entity(sources.names, sources.lines, attribute) else {
        return Ok(());
    };
    if allows(sources, class, entity, name, declaration.data_type) {
        table.add(
            name,
            AttributeDeclaration {
                entity,
                data_type: declaration.data_type,
                derivation: declaration.derivation,
            },
        )?;
    }
    Ok(())
}

/// Adds `declaration` for an attribute that is declared here, or redeclared.
fn add_attribute<'a>(
    sources: &Sources<'_, '_, '_>,
    class: Class,
    attribute: Attribute<'a>,
    declaration: AttributeDeclaration,
    table: &mut Attributes<'a>,
) -> Result<(), AllocError>
    requires sources { AreSources sources.now }
    requires known { IsKnownAt (the_schema sources.now.names.now) class declaration.data_type }
    ensures { OnOk result (AddsAll table.old
        (Says (the_schema sources.now.names.now) class declaration (attribute_of attribute.entry))
        table.new) }
{
    match attribute {
        Attribute::Unqualified(name) => table.add(name, declaration),
        Attribute::Redeclared(_, name) => {
            add_redeclared(sources, class, attribute, name, declaration, table)
        }
    }
}

/// Adds the explicit attributes of one declaration.
fn add_attributes<'a>(
    sources: &Sources<'_, '_, '_>,
    attributes: &[Attribute<'a>],
    entity: u32,
    data_type: u32,
    derivation: Option<u32>,
    table: &mut Attributes<'a>,
) -> Result<(), AllocError>
    requires sources { AreSources sources.now }
    requires known { IsKnownAt (the_schema sources.now.names.now) classes.Explicit data_type }
    ensures { OnOk result (AddsAll table.old
        (SaysTogether (the_schema sources.now.names.now) entity data_type derivation
        (map attribute_of attributes.now)) table.new) }
{
    let declaration = AttributeDeclaration {
        entity,
        data_type,
        derivation,
    };
    for n in 0..attributes.len() {
        add_attribute(sources, Class::Explicit, attributes[n], declaration, table)?;
    }
    Ok(())
}

/// Returns the sum of two numbers.
fn sum(first: usize, second: usize) -> Result<usize, AllocError>
    ensures { IfOk result (λ m. m ≡ first + second) }
{
    match first.checked_add(second) {
        Some(both) => Ok(both),
        None => Err(AllocError),
    }
}

/// Returns the sum of two numbers, if it fits into 32 bits.
fn number(first: usize, second: usize) -> Result<u32, AllocError>
    ensures { IfOk result (λ m. m ≡ first + second) }
{
    match u32::try_from(sum(first, second)?) {
        Ok(both) => Ok(both),
        Err(_) => Err(AllocError),
    }
}

/// Returns the number at an index of `row`, if any.
fn item_at(row: &[u32], place: usize) -> Option<u32>
    ensures { result ≡ slice_get row.now place }
{
    row.get(place).copied()
}

/// Adds the attributes of the explicit declaration `n` of an entity.
fn add_explicit<'a>(
    sources: &Sources<'a, '_, '_>,
    owner: &Owner<'_>,
    n: usize,
    explicit: &Explicit<'a>,
    table: &mut Attributes<'a>,
) -> Result<(), AllocError>
    requires sources { AreSources sources.now }
    requires known { (t : ℕ) → slice_get owner.now.row.now n ≡ Some t
        → IsKnownAt (the_schema sources.now.names.now) classes.Explicit t }
    ensures { OnOk result (AddsAll table.old
        (SaysExplicit (the_schema sources.now.names.now) owner.now.entity owner.now.row.now n
        (explicit_of explicit.now)) table.new) }
{
    match item_at(owner.row, n) {
        Some(data_type) => {
            add_attributes(
                sources,
                explicit.attributes.as_slice(),
                owner.entity,
                data_type,
                None,
                table,
            )
        }
        None => Ok(()),
    }
}

/// Adds the explicit attributes of an entity.
fn add_explicits<'a>(
    sources: &Sources<'a, '_, '_>,
    owner: &Owner<'_>,
    explicits: &[Explicit<'a>],
    table: &mut Attributes<'a>,
) -> Result<(), AllocError>
    requires sources { AreSources sources.now }
    requires known { AreKnownFrom (the_schema sources.now.names.now) (length explicits.now)
        owner.now.row.now }
    ensures { OnOk result (AddsAll table.old
        (AreNth (SaysExplicit (the_schema sources.now.names.now) owner.now.entity owner.now.row.now)
        (map explicit_of explicits.now)) table.new) }
{
    for n in 0..explicits.len() {
        add_explicit(sources, owner, n, &explicits[n], table)?;
    }
    Ok(())
}

/// Adds the declaration of one attribute, unless its data type has no number.
fn add_one<'a>(
    sources: &Sources<'_, '_, '_>,
    class: Class,
    attribute: Attribute<'a>,
    declaration: OwnDeclaration,
    table: &mut Attributes<'a>,
) -> Result<(), AllocError>
    requires sources { AreSources sources.now }
    requires known { (t : ℕ) → IsKnownAt (the_schema sources.now.names.now) class t }
    ensures { OnOk result (AddsAll table.old
        (SaysOne (the_schema sources.now.names.now) class declaration.entity declaration.data_type
        declaration.derivation (attribute_of attribute.entry)) table.new) }
{
    match declaration.data_type {
        Some(data_type) => add_attribute(
            sources,
            class,
            attribute,
            AttributeDeclaration {
                entity: declaration.entity,
                data_type,
                derivation: declaration.derivation,
            },
            table,
        ),
        None => Ok(()),
    }
}

/// Adds the derived attribute `n` of an entity, whose data types of derived attributes start at
/// `first`.
fn add_derived<'a>(
    sources: &Sources<'a, '_, '_>,
    owner: &Owner<'_>,
    first: usize,
    n: usize,
    derived: &Derived<'a>,
    table: &mut Attributes<'a>,
) -> Result<(), AllocError>
    requires sources { AreSources sources.now }
    ensures { OnOk result (AddsAll table.old
        (SaysDerived (the_schema sources.now.names.now) owner.now.entity owner.now.row.now first
        owner.now.count n (derived_of derived.now)) table.new) }
{
    let place = sum(first, n)?;
    let derivation = number(owner.count, n)?;
    let declaration = OwnDeclaration {
        entity: owner.entity,
        data_type: item_at(owner.row, place),
        derivation: Some(derivation),
    };
    add_one(
        sources,
        Class::Derived,
        derived.attribute,
        declaration,
        table,
    )
}

/// Adds the derived attributes of an entity, whose data types of derived attributes start at
/// `first`.
fn add_deriveds<'a>(
    sources: &Sources<'a, '_, '_>,
    owner: &Owner<'_>,
    first: usize,
    deriveds: &[Derived<'a>],
    table: &mut Attributes<'a>,
) -> Result<(), AllocError>
    requires sources { AreSources sources.now }
    ensures { OnOk result (AddsAll table.old
        (AreNth (SaysDerived (the_schema sources.now.names.now) owner.now.entity owner.now.row.now
        first owner.now.count) (map derived_of deriveds.now)) table.new) }
{
    for n in 0..deriveds.len() {
        add_derived(sources, owner, first, n, &deriveds[n], table)?;
    }
    Ok(())
}

/// Adds the inverse attribute `n` of an entity, whose data types of inverse attributes start at
/// `first`.
fn add_inverse<'a>(
    sources: &Sources<'a, '_, '_>,
    owner: &Owner<'_>,
    first: usize,
    n: usize,
    inverse: &Inverse<'a>,
    table: &mut Attributes<'a>,
) -> Result<(), AllocError>
    requires sources { AreSources sources.now }
    ensures { OnOk result (AddsAll table.old
        (SaysInverse (the_schema sources.now.names.now) owner.now.entity owner.now.row.now first n
        (inverse_of inverse.now)) table.new) }
{
    let place = sum(first, n)?;
    let declaration = OwnDeclaration {
        entity: owner.entity,
        data_type: item_at(owner.row, place),
        derivation: None,
    };
    add_one(
        sources,
        Class::Inverse,
        inverse.attribute,
        declaration,
        table,
    )
}

/// Adds the inverse attributes of an entity, whose data types of inverse attributes start at
/// `first`.
fn add_inverses<'a>(
    sources: &Sources<'a, '_, '_>,
    owner: &Owner<'_>,
    first: usize,
    inverses: &[Inverse<'a>],
    table: &mut Attributes<'a>,
) -> Result<(), AllocError>
    requires sources { AreSources sources.now }
    ensures { OnOk result (AddsAll table.old
        (AreNth (SaysInverse (the_schema sources.now.names.now) owner.now.entity owner.now.row.now
        first) (map inverse_of inverses.now)) table.new) }
{
    for n in 0..inverses.len() {
        add_inverse(sources, owner, first, n, &inverses[n], table)?;
    }
    Ok(())
}

/// Adds the attributes of an entity of all classes.
fn add_clauses<'a>(
    sources: &Sources<'a, '_, '_>,
    owner: &Owner<'_>,
    explicits: &[Explicit<'a>],
    deriveds: &[Derived<'a>],
    inverses: &[Inverse<'a>],
    table: &mut Attributes<'a>,
) -> Result<(), AllocError>
    requires sources { AreSources sources.now }
    requires known { AreKnownFrom (the_schema sources.now.names.now) (length explicits.now)
        owner.now.row.now }
    ensures { OnOk result (AddsAll table.old
        (SaysClauses (the_schema sources.now.names.now) owner.now.entity owner.now.row.now
        owner.now.count (map explicit_of explicits.now) (map derived_of deriveds.now)
        (map inverse_of inverses.now)) table.new) }
{
    let explicit_count = explicits.len();
    let first = sum(explicit_count, deriveds.len())?;
    add_explicits(sources, owner, explicits, table)?;
    add_deriveds(sources, owner, explicit_count, deriveds, table)?;
    add_inverses(sources, owner, first, inverses, table)
}

/// Adds the attributes of `entity`, which is the owner.
fn add_entity<'a>(
    sources: &Sources<'a, '_, '_>,
    owner: &Owner<'_>,
    entity: &Entity<'a>,
    table: &mut Attributes<'a>,
) -> Result<(), AllocError>
    requires sources { AreSources sources.now }
    requires known { AreKnownFrom (the_schema sources.now.names.now)
        (length entity.now.explicits.items) owner.now.row.now }
    ensures { OnOk result (AddsAll table.old
        (SaysEntity (the_schema sources.now.names.now) owner.now.entity owner.now.row.now
        owner.now.count (entity_of entity.now)) table.new) }
{
    add_clauses(
        sources,
        owner,
        &entity.explicits,
        entity.derived_attributes(),
        entity.inverse_attributes(),
        table,
    )
}

/// Returns the row with this number, if any, otherwise an empty one.
fn row_of(rows: &[Vec<u32>], number: usize) -> &[u32]
    ensures { result.now ≡ next (graph_of rows.now) number }
{
    match rows.get(number) {
        Some(row) => row,
        None => &[],
    }
}

/// Adds the attributes of the declaration `i`, if it is an entity. `count` derived attributes
/// precede those of the declaration in the schema.
fn add_declaration<'a>(
    sources: &Sources<'a, '_, '_>,
    i: usize,
    count: usize,
    declaration: &Declaration<'a>,
    table: &mut Attributes<'a>,
) -> Result<(), AllocError>
    requires sources { AreSources sources.now }
    requires at { IsAt (the_schema sources.now.names.now) i (declaration_of declaration.now) }
    ensures { OnOk result (AddsAll table.old
        (SaysDeclaration (the_schema sources.now.names.now) i (next (rows_in sources.now) i) count
        (declaration_of declaration.now)) table.new) }
{
    match declaration {
        Declaration::Entity(entity) => {
            data_types_are_known();
            let number = number(0, i)?;
            let row = row_of(&sources.data_types.rows, i);
            let owner = Owner {
                entity: number,
                row,
                count,
            };
            add_entity(sources, &owner, entity, table)
        }
        _ => Ok(()),
    }
}

/// Returns the count of derived attributes of `declaration`.
fn derived_count(declaration: &Declaration<'_>) -> usize
    ensures { result ≡ length (derivations_in (declaration_of declaration.now)) }
{
    match declaration {
        Declaration::Entity(entity) => entity.derived_attributes().len(),
        _ => 0,
    }
}

/// Adds the attributes of all declarations.
fn add_declarations<'a>(
    sources: &Sources<'a, '_, '_>,
    declarations: &[Declaration<'a>],
    table: &mut Attributes<'a>,
) -> Result<(), AllocError>
    requires sources { AreSources sources.now }
    requires whole { declarations.now ≡ sources.now.names.now.schema.now.declarations.items }
    ensures { OnOk result (AddsAll table.old
        (AreNth (SaysAt (the_schema sources.now.names.now) (rows_in sources.now)
        (map declaration_of declarations.now)) (map declaration_of declarations.now))
        table.new) }
{
    let mut count = 0;
    for n in 0..declarations.len() {
        let declaration = &declarations[n];
        add_declaration(sources, n, count, declaration, table)?;
        count = sum(count, derived_count(declaration))?;
    }
    Ok(())
}

/// Returns all attribute declarations and redeclarations of a schema, by name.
pub fn gathered<'a>(
    alloc: Global,
    keys: RandomState,
    sources: &Sources<'a, '_, '_>,
) -> Result<Attributes<'a>, AllocError>
    requires sources { AreSources sources.now }
    ensures { IfOk result (λ t. AreAttributes (the_schema sources.now.names.now) t) }
{
    let declarations = sources.names.declarations();
    let mut table = Attributes::with_room(alloc, keys, attribute_count(declarations))?;
    add_declarations(sources, declarations, &mut table)?;
    Ok(table)
}
