//! The shapes of the data types of a schema, with the names of defined types resolved.
ghost use Rattle.std.specs.Prelude.{◌≡◌, ◌+◌, ◌<◌, ◌^◌, length, map, slice_get, IfOk};
ghost use Rattle.graphs.specs.Graphs.{graph_of};
ghost use Rattle.express_syntax.specs.Views.{declaration_of, underlying_of};
ghost use Rattle.schema_semantics.specs.Faults.{IsResolved};
ghost use Rattle.schema_names.specs.Edges.{IsGraphOf, parts_in};
ghost use Rattle.schema_names.specs.Numbers.{AreNumberRowsOf};
ghost use Rattle.schema_names.specs.Schemas.{the_schema};
ghost use Rattle.schema_data_types.specs.NumberedTypes.{form_in, whole_types, all_data_types};
ghost use Rattle.schema_data_types.specs.ShapeTables.{AreShapes};
ghost use Rattle.schema_data_types.specs.steps.Making.{
  AreDeclared,
  shape_declared,
  shape_behind,
  shape_first,
  shape_seen,
  shape_by,
  shape_in,
};

use crate::forms::{DataTypes, Form};
use crate::shapes::Shape;
use express_syntax::tree::{Declaration, Underlying};
use graphs::orders::order;
use schema_names::names::Names;
use std::alloc::{AllocError, Global};

/// Returns the shape of the declaration with this number.
fn shape_of_declared(declared: &[Shape], number: u32) -> Shape
    ensures { result ≡ shape_declared declared.now number }
{
    match declared.get(number as usize) {
        Some(shape) => *shape,
        None => Shape::Instances,
    }
}

/// Returns the shape of the data type `number`, whose form is `form`. A name has the shape of its
/// declaration.
fn shape_by(declared: &[Shape], number: usize, form: Form) -> Shape
    requires { number + 1 < 2 ^ 32 }
    ensures { result ≡ shape_by declared.now number form }
{
    match form {
        Form::Number => Shape::Numbers,
        Form::Logical => Shape::Logicals,
        Form::String => Shape::Strings,
        Form::Binary => Shape::Binaries,
        Form::Array => Shape::Arrays((number + 1) as u32),
        Form::List => Shape::Lists((number + 1) as u32),
        Form::Collection => Shape::Collections((number + 1) as u32),
        Form::Named(None) => Shape::Instances,
        Form::Named(Some(named)) => shape_of_declared(declared, named),
    }
}

/// Returns the shape of the data type `number`.
fn shape_at(forms: &[Form], declared: &[Shape], number: usize) -> Shape
    requires { length forms.now < 2 ^ 32 }
    ensures { result ≡ shape_seen declared.now number (slice_get forms.now number) }
{
    match forms.get(number) {
        Some(form) => shape_by(declared, number, *form),
        None => Shape::Instances,
    }
}

/// Returns the shape of the first data type of `row`.
fn shape_first(forms: &[Form], declared: &[Shape], row: &[u32]) -> Shape
    requires { length forms.now < 2 ^ 32 }
    ensures { result ≡ shape_first forms.now declared.now row.now }
{
    match row.first() {
        Some(number) => shape_at(forms, declared, *number as usize),
        None => Shape::Instances,
    }
}

/// Returns the shape of an underlying type, whose data types are in `row`.
fn shape_behind(
    forms: &[Form],
    declared: &[Shape],
    row: &[u32],
    underlying: &Underlying<'_>,
) -> Shape
    requires { length forms.now < 2 ^ 32 }
    ensures { result
        ≡ shape_behind forms.now declared.now row.now (underlying_of underlying.now) }
{
    match underlying {
        Underlying::Enumeration(_) => Shape::Items,
        Underlying::Select(_) => Shape::Instances,
        Underlying::DataType(_) => shape_first(forms, declared, row),
    }
}

/// Returns the shape of a declaration, whose data types are in `row`.
fn shape_in(forms: &[Form], declared: &[Shape], row: &[u32], declaration: &Declaration<'_>) -> Shape
    requires { length forms.now < 2 ^ 32 }
    ensures { result
        ≡ shape_in forms.now declared.now row.now (declaration_of declaration.now) }
{
    match declaration {
        Declaration::Type(defined) => shape_behind(forms, declared, row, &defined.underlying),
        _ => Shape::Instances,
    }
}

/// Returns the shapes of all declarations. They are computed in an order in which each defined type
/// comes after those that it is made of.
fn declared_shapes(
    alloc: Global,
    names: &Names<'_, '_>,
    data_types: &DataTypes,
    parts: &[Vec<u32>],
) -> Result<Vec<Shape>, AllocError>
    requires resolved { IsResolved (the_schema names.now) }
    requires forms { data_types.now.forms.items ≡ map (form_in (the_schema names.now))
        (all_data_types (the_schema names.now)) }
    requires rows { AreNumberRowsOf whole_types (all_data_types (the_schema names.now))
        (the_schema names.now).declarations (graph_of data_types.now.rows.items) }
    requires graph { IsGraphOf (the_schema names.now) parts_in (graph_of parts.now) }
    requires few { length data_types.now.forms.items < 2 ^ 32 }
    ensures { IfOk result (λ t. AreDeclared (the_schema names.now) t.items) }
{
    let order = order(alloc, parts)?;
    let mut declared = vec![in alloc; Shape::Instances; parts.len()]?;
    for a in &order {
        let i = *a as usize;
        let declaration = names.declaration(*a);
        let shape = shape_in(
            &data_types.forms,
            &declared,
            &data_types.rows[i],
            declaration,
        );
        declared[i] = shape;
    }
    Ok(declared)
}

/// Returns the shapes of the data types of a schema whose names are resolved, by number
/// (ISO 10303-11, 8, 8.3.2 and 8.4.2).
///
/// A defined type has the shape of its underlying type. `parts` is the graph of what defined types
/// are made of. Takes time proportional to the count of declarations, edges of the graph and data
/// types.
pub fn shapes(
    alloc: Global,
    names: &Names<'_, '_>,
    data_types: &DataTypes,
    parts: &[Vec<u32>],
) -> Result<Vec<Shape>, AllocError>
    requires resolved { IsResolved (the_schema names.now) }
    requires forms { data_types.now.forms.items ≡ map (form_in (the_schema names.now))
        (all_data_types (the_schema names.now)) }
    requires rows { AreNumberRowsOf whole_types (all_data_types (the_schema names.now))
        (the_schema names.now).declarations (graph_of data_types.now.rows.items) }
    requires graph { IsGraphOf (the_schema names.now) parts_in (graph_of parts.now) }
    requires few { length data_types.now.forms.items < 2 ^ 32 }
    ensures { IfOk result (λ t. AreShapes (the_schema names.now) t.items) }
{
    let declared = declared_shapes(alloc, names, data_types, parts)?;
    let mut shapes = Vec::new(alloc);
    for number in 0..data_types.forms.len() {
        shapes.push(shape_at(&data_types.forms, &declared, number))?;
    }
    Ok(shapes)
}
