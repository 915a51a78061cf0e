//! The values that data types may have, and which data types are alike.

ghost use Rattle.std.specs.Prelude.{◌≡◌, ◌<◌, ◌^◌, length, map};
ghost use Rattle.graphs.specs.Graphs.{graph_of};
ghost use Rattle.schema_semantics.specs.Faults.{IsResolved};
ghost use Rattle.schema_names.specs.Edges.{IsGraphOf, parts_in};
ghost use Rattle.schema_names.specs.Numbers.{AreNumberRowsOf};
ghost use Rattle.schema_names.specs.Schemas.{the_schema};
ghost use Rattle.schema_data_types.specs.NumberedTypes.{form_in, whole_types, all_data_types};
ghost use Rattle.schema_data_types.specs.steps.Values.{AreTables};
ghost use Rattle.schema_data_types.specs.steps.Alike.{IsTable};

use crate::questions::{Case, Question, Text, wrong_case};
use crate::rows::expect_none;
use schema_data_types::alike_types::are_alike_types;
use schema_data_types::forms::{DataTypes, data_types};
use schema_data_types::shape_table::shapes;
use schema_data_types::shapes::Shape;
use schema_data_types::value_givers::parts_of;
use schema_data_types::values::{Atom, Sort, Tables, add_values};
use schema_names::declaration_graphs::part_graph;
use schema_names::names::Names;
use std::alloc::Global;

// The declarations are numbered from 0. So are the data types: 0 is REAL, 1 amount, 2 the list with
// its element 3, 4 and 5 those of the box.
const BOXES: &'static [u8] = b"SCHEMA s;
    TYPE len = REAL; END_TYPE;
    TYPE finish = ENUMERATION OF (rough, fine); END_TYPE;
    TYPE amount = SELECT (len, finish, box); END_TYPE;
    TYPE other = amount; END_TYPE;
    TYPE row = LIST [1:3] OF other; END_TYPE;
    ENTITY box; size : other; rows : row; END_ENTITY;
    END_SCHEMA;";

// The data types are numbered in the order of the text, elements after their aggregates.
const LISTS: &'static [u8] = b"SCHEMA s;
    TYPE a = LIST OF b; END_TYPE;
    TYPE b = SELECT (a, c); END_TYPE;
    TYPE c = LIST OF d; END_TYPE;
    ENTITY d; END_ENTITY;
    TYPE e = LIST OF e; END_TYPE;
    TYPE f = LIST OF LIST OF f; END_TYPE;
    TYPE g = SET OF INTEGER; END_TYPE;
    TYPE h = BAG OF NUMBER; END_TYPE;
    TYPE i = ARRAY [1:2] OF REAL; END_TYPE;
    END_SCHEMA;";

const CASES: &'static [Case] = &[
    // A SELECT is replaced by its items, whatever names are between.
    (
        Text::Whole(BOXES),
        Question::Values(0, &[Atom::Value(Sort::Number, false)]),
    ),
    (
        Text::Whole(BOXES),
        Question::Values(
            1,
            &[
                Atom::Value(Sort::Number, true),
                Atom::Value(Sort::Item, true),
                Atom::Instance(5),
            ],
        ),
    ),
    (
        Text::Whole(BOXES),
        Question::Values(2, &[Atom::Aggregate(3, false)]),
    ),
    (
        Text::Whole(BOXES),
        Question::Values(
            4,
            &[
                Atom::Value(Sort::Number, true),
                Atom::Value(Sort::Item, true),
                Atom::Instance(5),
            ],
        ),
    ),
    (
        Text::Whole(BOXES),
        Question::Values(5, &[Atom::Aggregate(3, false)]),
    ),
    // Lists of a SELECT and of an entity.
    (Text::Whole(LISTS), Question::Alike(0, 2, true)),
    (Text::Whole(LISTS), Question::Alike(1, 3, true)),
    // Lists of lists that refer to themselves.
    (Text::Whole(LISTS), Question::Alike(4, 6, true)),
    (Text::Whole(LISTS), Question::Alike(0, 4, false)),
    // A SET and a BAG of numbers, and an ARRAY.
    (Text::Whole(LISTS), Question::Alike(9, 11, true)),
    (Text::Whole(LISTS), Question::Alike(9, 13, false)),
    (Text::Whole(LISTS), Question::Alike(10, 14, true)),
];

// Whether these are the expected atoms, in any order.
fn are_atoms(atoms: &[Atom], wanted: &[Atom]) -> bool {
    atoms.len() == wanted.len() && wanted.iter().all(|atom| atoms.contains(atom))
}

// Whether the schema has a data type of this number, with these values.
fn has_values(alloc: Global, tables: &Tables<'_, '_, '_>, question: Question) -> bool
    requires { AreTables tables.now }
{
    let Question::Values(number, wanted) = question else {
        return false;
    };
    if (number as usize) >= tables.data_types.forms.len() {
        return false;
    }
    let mut atoms = Vec::new(alloc);
    add_values(tables, number, &mut atoms).is_ok() && are_atoms(&atoms, wanted)
}

// Whether the data type has these values, given the edges from types and entities to their parts.
fn has_values_by(
    alloc: Global,
    names: &Names<'_, '_>,
    data_types: &DataTypes,
    edges: &[Vec<u32>],
    question: Question,
) -> bool
    requires resolved { IsResolved (the_schema names.now) }
    requires forms { data_types.now.forms.items ≡ map (form_in (the_schema names.now))
        (all_data_types (the_schema names.now)) }
    requires rows { AreNumberRowsOf whole_types (all_data_types (the_schema names.now))
        (the_schema names.now).declarations (graph_of data_types.now.rows.items) }
    requires graph { IsGraphOf (the_schema names.now) parts_in (graph_of edges.now) }
    requires few { length data_types.now.forms.items < 2 ^ 32 }
{
    let Ok(parts) = parts_of(alloc, names, edges) else {
        return false;
    };
    let tables = Tables {
        names,
        data_types,
        parts: &parts,
    };
    has_values(alloc, &tables, question)
}

// Whether the schema has both data types, and their shapes are alike exactly if expected.
fn are_told(shapes: &[Shape], question: Question) -> bool
    requires { IsTable shapes.now }
{
    let Question::Alike(first, second, wanted) = question else {
        return false;
    };
    if (first as usize) >= shapes.len() || (second as usize) >= shapes.len() {
        return false;
    }
    are_alike_types(shapes, first, second) == wanted
}

// Whether both data types are alike exactly if expected, given the edges from types and entities to
// their parts.
fn are_told_by(
    alloc: Global,
    names: &Names<'_, '_>,
    data_types: &DataTypes,
    edges: &[Vec<u32>],
    question: Question,
) -> bool
    requires resolved { IsResolved (the_schema names.now) }
    requires forms { data_types.now.forms.items ≡ map (form_in (the_schema names.now))
        (all_data_types (the_schema names.now)) }
    requires rows { AreNumberRowsOf whole_types (all_data_types (the_schema names.now))
        (the_schema names.now).declarations (graph_of data_types.now.rows.items) }
    requires graph { IsGraphOf (the_schema names.now) parts_in (graph_of edges.now) }
    requires few { length data_types.now.forms.items < 2 ^ 32 }
{
    let Ok(shapes) = shapes(alloc, names, data_types, edges) else {
        return false;
    };
    are_told(&shapes, question)
}

fn has_types_by(
    alloc: Global,
    names: &Names<'_, '_>,
    data_types: &DataTypes,
    question: Question,
) -> bool
    requires resolved { IsResolved (the_schema names.now) }
    requires forms { data_types.now.forms.items ≡ map (form_in (the_schema names.now))
        (all_data_types (the_schema names.now)) }
    requires rows { AreNumberRowsOf whole_types (all_data_types (the_schema names.now))
        (the_schema names.now).declarations (graph_of data_types.now.rows.items) }
    requires few { length data_types.now.forms.items < 2 ^ 32 }
{
    let Ok(edges) = part_graph(alloc, names) else {
        return false;
    };
    match question {
        Question::Values(..) => has_values_by(alloc, names, data_types, &edges, question),
        Question::Alike(..) => are_told_by(alloc, names, data_types, &edges, question),
        _ => false,
    }
}

/// Whether data types of a schema have these values, or are alike.
pub(crate) fn has_types(alloc: Global, names: &Names<'_, '_>, question: Question) -> bool
    requires { IsResolved (the_schema names.now) }
{
    let Ok(data_types) = data_types(alloc, names) else {
        return false;
    };
    has_types_by(alloc, names, &data_types, question)
}

#[test]
fn data_types_have_values_and_shapes(rt: HostRuntime) {
    expect_none(&rt, wrong_case(&rt, rt.alloc(), CASES));
}
