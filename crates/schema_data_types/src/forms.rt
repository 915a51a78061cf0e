//! The data types of a schema, numbered in the order of the text.

ghost use Rattle.std.specs.Prelude.{◌≡◌, [], ◌∷◌, ◌++◌, ◌<◌, ◌^◌, length, map, IfOk, OnOk};
ghost use Rattle.graphs.specs.Graphs.{graph_of};
ghost use Rattle.express_syntax.specs.Views.{
  data_type_of,
  explicit_of,
  derived_of,
  inverse_of,
  entity_of,
  underlying_of,
  declaration_of,
};
ghost use Rattle.express_syntax.specs.ExpressionViews.{capitals};
ghost use Rattle.express_syntax.specs.Schemas.{named};
ghost use Rattle.schema_semantics.specs.Attributes.{collected};
ghost use Rattle.schema_names.specs.Numbers.{AreNumberRowsOf};
ghost use Rattle.schema_names.specs.Schemas.{the_schema};
ghost use Rattle.schema_data_types.specs.NumberedTypes.{
  within,
  form_in,
  whole_underlying,
  explicit_types,
  derived_types,
  inverse_types,
  attribute_types,
  whole_types,
  all_data_types,
};
ghost use Rattle.schema_data_types.specs.steps.Growing.{Adds};

use express_syntax::tree::{
    Collection, DataType, Declaration, Derived, Entity, Explicit, Inverse, Underlying,
};
use schema_names::names::Names;
use std::alloc::{AllocError, Global};
use step_literals::literal::Word;

/// The most data types that a schema may have: they, and the data types after them, get 32-bit
/// numbers.
const MOST_DATA_TYPES: usize = 4_294_967_295;

/// The outermost level of a data type (ISO 10303-11, 8).
#[derive(Clone, Copy, Debug, PartialEq, Eq)]
pub enum Form {
    /// INTEGER, NUMBER or REAL.
    Number,
    /// BOOLEAN or LOGICAL.
    Logical,
    String,
    Binary,
    /// A list. The data type of its elements has the next number.
    List,
    /// An array. The data type of its elements has the next number.
    Array,
    /// A set or a bag. The data type of its elements has the next number.
    Collection,
    /// The type or entity with this number, or `None` if the name isn't declared.
    Named(Option<u32>),
}

/// The data types of a schema in the order of the text, each followed by that of its elements, if
/// any.
#[derive(Drop)]
pub struct DataTypes {
    pub forms: Vec<Form>,
    /// By declaration, the numbers of its data types, without those of elements. For a defined
    /// type, the data type after its `=`, if any. For an entity, one for each declaration of
    /// explicit attributes, then of derived ones, then of inverse ones.
    pub rows: Vec<Vec<u32>>,
}

/// Returns the outermost level of `data_type`.
fn form_of<'a>(names: &Names<'a, '_>, data_type: &DataType<'a>) -> Form
    ensures { result ≡ form_in (the_schema names.now) (data_type_of data_type.now) }
{
    match data_type {
        DataType::Integer | DataType::Number | DataType::Real(_) => Form::Number,
        DataType::Boolean | DataType::Logical => Form::Logical,
        DataType::String(_) => Form::String,
        DataType::Binary(_) => Form::Binary,
        DataType::Named(name) => Form::Named(names.find(*name)),
        DataType::Array { .. } => Form::Array,
        DataType::List { .. } => Form::List,
        DataType::Bag { .. } | DataType::Set { .. } => Form::Collection,
    }
}

/// Adds the form of `data_type`, then those of its elements.
fn add_within<'a>(
    names: &Names<'a, '_>,
    forms: &mut Vec<Form>,
    data_type: &DataType<'a>,
) -> Result<(), AllocError>
    ensures { OnOk result (forms.new.items ≡ forms.old.items
        ++ map (form_in (the_schema names.now)) (within (data_type_of data_type.now))) }
{
    forms.push(form_of(names, data_type))?;
    match data_type {
        DataType::Array { element, .. } => add_within(names, forms, element),
        DataType::List { element, .. } => add_within(names, forms, element),
        DataType::Bag { element, .. } => add_within(names, forms, element),
        DataType::Set { element, .. } => add_within(names, forms, element),
        _ => Ok(()),
    }
}

/// Adds the number that the next data type gets.
fn add_number(forms: &[Form], row: &mut Vec<u32>) -> Result<(), AllocError>
    ensures { OnOk result (row.new.items ≡ row.old.items ++ length forms.now ∷ []) }
{
    let Ok(number) = u32::try_from(forms.len()) else {
        return Err(AllocError);
    };
    row.push(number)?;
    Ok(())
}

/// Adds `data_type` with those of its elements, and its number.
fn add_data_type<'a>(
    names: &Names<'a, '_>,
    forms: &mut Vec<Form>,
    row: &mut Vec<u32>,
    data_type: &DataType<'a>,
) -> Result<(), AllocError>
    ensures { OnOk result (Adds (the_schema names.now) forms.old.items row.old.items
        (data_type_of data_type.now ∷ []) forms.new.items row.new.items) }
{
    add_number(forms, row)?;
    add_within(names, forms, data_type)
}

/// Adds the data types of an entity's explicit attributes.
fn add_explicits<'a>(
    names: &Names<'a, '_>,
    forms: &mut Vec<Form>,
    row: &mut Vec<u32>,
    explicits: &[Explicit<'a>],
) -> Result<(), AllocError>
    ensures { OnOk result (Adds (the_schema names.now) forms.old.items row.old.items
        (explicit_types (map explicit_of explicits.now)) forms.new.items row.new.items) }
{
    for explicit in explicits {
        add_data_type(names, forms, row, &explicit.data_type)?;
    }
    Ok(())
}

/// Adds the data types of an entity's derived attributes.
fn add_deriveds<'a>(
    names: &Names<'a, '_>,
    forms: &mut Vec<Form>,
    row: &mut Vec<u32>,
    deriveds: &[Derived<'a>],
) -> Result<(), AllocError>
    ensures { OnOk result (Adds (the_schema names.now) forms.old.items row.old.items
        (derived_types (map derived_of deriveds.now)) forms.new.items row.new.items) }
{
    for derived in deriveds {
        add_data_type(names, forms, row, &derived.data_type)?;
    }
    Ok(())
}

/// Adds the form of a data type that is a name.
fn add_named(names: &Names<'_, '_>, forms: &mut Vec<Form>, name: Word<'_>) -> Result<(), AllocError>
    ensures { OnOk result (forms.new.items ≡ forms.old.items
        ++ form_in (the_schema names.now) (named (capitals name.entry)) ∷ []) }
{
    forms.push(Form::Named(names.find(name)))?;
    Ok(())
}

/// Adds the forms of the data type of an inverse attribute: an entity, or an aggregate of it.
fn add_collected<'a>(
    names: &Names<'a, '_>,
    forms: &mut Vec<Form>,
    inverse: &Inverse<'a>,
) -> Result<(), AllocError>
    ensures { OnOk result (forms.new.items ≡ forms.old.items
        ++ map (form_in (the_schema names.now)) (within (collected
        (inverse_of inverse.now).collection (inverse_of inverse.now).entity))) }
{
    match inverse.collection {
        Collection::One => add_named(names, forms, inverse.entity),
        Collection::Set(_) | Collection::Bag(_) => {
            forms.push(Form::Collection)?;
            add_named(names, forms, inverse.entity)
        }
    }
}

/// Adds the data type of an inverse attribute, and its number (ISO 10303-11, 9.2.1.3).
fn add_inverse<'a>(
    names: &Names<'a, '_>,
    forms: &mut Vec<Form>,
    row: &mut Vec<u32>,
    inverse: &Inverse<'a>,
) -> Result<(), AllocError>
    ensures { OnOk result (Adds (the_schema names.now) forms.old.items row.old.items
        (inverse_types (inverse_of inverse.now ∷ [])) forms.new.items row.new.items) }
{
    add_number(forms, row)?;
    add_collected(names, forms, inverse)
}

/// Adds the data types of an entity's inverse attributes.
fn add_inverses<'a>(
    names: &Names<'a, '_>,
    forms: &mut Vec<Form>,
    row: &mut Vec<u32>,
    inverses: &[Inverse<'a>],
) -> Result<(), AllocError>
    ensures { OnOk result (Adds (the_schema names.now) forms.old.items row.old.items
        (inverse_types (map inverse_of inverses.now)) forms.new.items row.new.items) }
{
    for inverse in inverses {
        add_inverse(names, forms, row, inverse)?;
    }
    Ok(())
}

/// Adds the underlying data type of a defined type, unless it is an enumeration or a SELECT.
fn add_underlying<'a>(
    names: &Names<'a, '_>,
    forms: &mut Vec<Form>,
    row: &mut Vec<u32>,
    underlying: &Underlying<'a>,
) -> Result<(), AllocError>
    ensures { OnOk result (Adds (the_schema names.now) forms.old.items row.old.items
        (whole_underlying (underlying_of underlying.now)) forms.new.items row.new.items) }
{
    match underlying {
        Underlying::DataType(data_type) => add_data_type(names, forms, row, data_type),
        _ => Ok(()),
    }
}

/// Adds the data types of an entity's attributes.
fn add_entity<'a>(
    names: &Names<'a, '_>,
    forms: &mut Vec<Form>,
    row: &mut Vec<u32>,
    entity: &Entity<'a>,
) -> Result<(), AllocError>
    ensures { OnOk result (Adds (the_schema names.now) forms.old.items row.old.items
        (attribute_types (entity_of entity.now)) forms.new.items row.new.items) }
{
    add_explicits(names, forms, row, &entity.explicits)?;
    add_deriveds(names, forms, row, entity.derived_attributes())?;
    add_inverses(names, forms, row, entity.inverse_attributes())
}

/// Adds the data types of a declaration.
fn add_declaration<'a>(
    names: &Names<'a, '_>,
    forms: &mut Vec<Form>,
    row: &mut Vec<u32>,
    declaration: &Declaration<'a>,
) -> Result<(), AllocError>
    ensures { OnOk result (Adds (the_schema names.now) forms.old.items row.old.items
        (whole_types (declaration_of declaration.now)) forms.new.items row.new.items) }
{
    match declaration {
        Declaration::Type(declared) => add_underlying(names, forms, row, &declared.underlying),
        Declaration::Entity(entity) => add_entity(names, forms, row, entity),
        Declaration::Skipped(_) => Ok(()),
    }
}

/// Returns the data types of a schema, by number.
///
/// # Errors
/// `AllocError` if memory runs out or there are 2^32 data types or more.
pub fn data_types(alloc: Global, names: &Names<'_, '_>) -> Result<DataTypes, AllocError>
    ensures forms { IfOk result (λ t. t.forms.items
        ≡ map (form_in (the_schema names.now)) (all_data_types (the_schema names.now))) }
    ensures few { IfOk result (λ t. length t.forms.items < 2 ^ 32) }
    ensures rows { IfOk result (λ t. AreNumberRowsOf whole_types
        (all_data_types (the_schema names.now))
        (the_schema names.now).declarations (graph_of t.rows.items)) }
{
    let mut forms = Vec::new(alloc);
    let mut rows = Vec::new(alloc);
    for declaration in names.declarations() {
        let mut row = Vec::new(alloc);
        add_declaration(names, &mut forms, &mut row, declaration)?;
        rows.push(row)?;
    }
    if forms.len() > MOST_DATA_TYPES {
        return Err(AllocError);
    }
    Ok(DataTypes { forms, rows })
}
