//! The attributes that an entity declares itself (ISO 10303-11, 9.2.1).

ghost use Rattle.std.specs.Prelude.{◌≡◌, ◌||◌, map};
ghost use Rattle.express_syntax.specs.ExpressionViews.{capitals};
ghost use Rattle.express_syntax.specs.Views.{
  attribute_of,
  entity_of,
  declaration_of as declaration_seen,
};
ghost use Rattle.schema_semantics.specs.Names.{own_names, explicit_names, derived_names, inverse_names};
ghost use Rattle.schema_names.specs.declared.attribute_names.Class.TheVariants.{Explicit, Other};
ghost use Rattle.schema_names.specs.steps.OwnNames.{names_of_class, names_in as class_names_in, names_at};
ghost use Rattle.schema_names.specs.Schemas.{the_schema};
ghost use Rattle.schema_explicit_attributes.specs.steps.Owned.{is_own, includes, declares_at};

use express_syntax::tree::{Attribute, Declaration, Entity};
use schema_names::attribute_names::Class;
use schema_names::names::Names;
use step_literals::literal::Word;

/// Which attributes of an entity are looked up.
#[derive(Clone, Copy)]
pub enum Meant {
    All,
    Explicit,
}

/// Whether `attribute` has this name and isn't a redeclaration.
fn is_own(attribute: &Attribute<'_>, name: Word<'_>) -> bool
    ensures { result ≡ is_own (capitals name.entry) (attribute_of attribute.now) }
{
    match attribute {
        Attribute::Unqualified(own) => *own == name,
        Attribute::Redeclared(_, _) => false,
    }
}

/// Whether one of `attributes` has this name and isn't a redeclaration.
fn any_own(attributes: &[Attribute<'_>], name: Word<'_>) -> bool
    ensures { result
        ≡ includes (own_names (map attribute_of attributes.now)) (capitals name.entry) }
{
    attributes.iter().any(|attribute| is_own(attribute, name))
}

/// Whether an explicit attribute of `entity` has this name, redeclarations aside.
fn any_explicit(entity: &Entity<'_>, name: Word<'_>) -> bool
    ensures { result ≡ includes (explicit_names (entity_of entity.now)) (capitals name.entry) }
{
    entity
        .explicits
        .iter()
        .any(|explicit| any_own(explicit.attributes.as_slice(), name))
}

/// Whether a derived attribute of `entity` has this name, redeclarations aside.
fn any_derived(entity: &Entity<'_>, name: Word<'_>) -> bool
    ensures { result ≡ includes (derived_names (entity_of entity.now)) (capitals name.entry) }
{
    entity
        .derived_attributes()
        .iter()
        .any(|derived| is_own(&derived.attribute, name))
}

/// Whether an inverse attribute of `entity` has this name, redeclarations aside.
fn any_inverse(entity: &Entity<'_>, name: Word<'_>) -> bool
    ensures { result ≡ includes (inverse_names (entity_of entity.now)) (capitals name.entry) }
{
    entity
        .inverse_attributes()
        .iter()
        .any(|inverse| is_own(&inverse.attribute, name))
}

/// Whether a derived or an inverse attribute of `entity` has this name, redeclarations aside.
fn any_other(entity: &Entity<'_>, name: Word<'_>) -> bool
    ensures { result ≡ includes (names_of_class Other (entity_of entity.now))
        (capitals name.entry) }
{
    any_derived(entity, name) || any_inverse(entity, name)
}

/// Whether `entity` declares an attribute `name` of `class`.
fn any_of_class(entity: &Entity<'_>, class: Class, name: Word<'_>) -> bool
    ensures { result ≡ includes (names_of_class class (entity_of entity.now))
        (capitals name.entry) }
{
    match class {
        Class::Explicit => any_explicit(entity, name),
        Class::Other => any_other(entity, name),
    }
}

/// Whether `declaration` is an entity that declares an attribute `name` of `class`.
fn declares(declaration: &Declaration<'_>, class: Class, name: Word<'_>) -> bool
    ensures { result
        ≡ includes (class_names_in class (declaration_seen declaration.now)) (capitals name.entry) }
{
    match declaration {
        Declaration::Entity(entity) => any_of_class(entity, class, name),
        _ => false,
    }
}

/// Whether the entity with this number declares an attribute `name` of `class`, by a linear search.
fn is_among(names: &Names<'_, '_>, number: u32, class: Class, name: Word<'_>) -> bool
    ensures { result ≡ includes (names_at (the_schema names.now) class number)
        (capitals name.entry) }
{
    match names.at(number) {
        Some(declaration) => declares(declaration, class, name),
        None => false,
    }
}

/// Whether the entity with this number declares an attribute `name` of `class`.
fn has_class(names: &Names<'_, '_>, number: u32, class: Class, name: Word<'_>) -> bool
    ensures { result ≡ includes (names_at (the_schema names.now) class number)
        (capitals name.entry) }
{
    match names.has_own(number, class, name) {
        Some(is_own) => is_own,
        None => is_among(names, number, class, name),
    }
}

/// Whether the entity with this number declares an attribute `name` of either class.
fn has_any(names: &Names<'_, '_>, number: u32, name: Word<'_>) -> bool
    ensures { result
        ≡ (includes (names_at (the_schema names.now) Explicit number) (capitals name.entry)
        || includes (names_at (the_schema names.now) Other number) (capitals name.entry)) }
{
    has_class(names, number, Class::Explicit, name) || has_class(names, number, Class::Other, name)
}

/// Whether the entity with this number, if any, declares an attribute `name` among those that
/// `meant` selects (ISO 10303-11, 9.2.1).
///
/// Takes time logarithmic in the count of its attributes, if they are many.
pub fn declares_at(names: &Names<'_, '_>, number: u32, meant: Meant, name: Word<'_>) -> bool
    ensures { result ≡ declares_at (the_schema names.now) meant (capitals name.entry) number }
{
    match meant {
        Meant::Explicit => has_class(names, number, Class::Explicit, name),
        Meant::All => has_any(names, number, name),
    }
}
