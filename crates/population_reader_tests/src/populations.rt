//! Populations of small files.

ghost use Rattle.schema_types.specs.TypeTables.{IsMade};

use express_reader::read_schema;
use express_syntax::tree::SchemaTree;
use population_reader::populate::{Verdict, populate};
use schema_types::resolution::resolve_types;
use schema_types::types::ResolvedTypes;
use std::alloc::Global;
use std::hash::RandomState;
use std::test::Fail;
use step_exchange::exchange::read_exchange;
use step_exchange::structure::Exchange;
use step_literals::literal::Word;
use step_values::slot::{Kind, Slots};
use typed_populations::population::Population;
use value_equality::plain::Plain;

const SCHEMA: &'static [u8] = b"SCHEMA geo;
TYPE len_m = REAL; END_TYPE;
TYPE angle_m = REAL; END_TYPE;
TYPE finish = ENUMERATION OF (rough, fine); END_TYPE;
TYPE amount = SELECT (len_m, angle_m); END_TYPE;
ENTITY point; coords : LIST [1:3] OF REAL; END_ENTITY;
ENTITY direction; ratios : LIST [2:3] OF REAL; END_ENTITY;
ENTITY placement; location : point; axis : OPTIONAL direction; END_ENTITY;
ENTITY node; next : node; END_ENTITY;
ENTITY bundle; members : SET [1:?] OF node; END_ENTITY;
ENTITY shape; label : STRING(8); END_ENTITY;
ENTITY solid SUBTYPE OF (shape); volume : amount; END_ENTITY;
ENTITY marked SUBTYPE OF (shape); look : finish; END_ENTITY;
ENTITY plain_mark SUBTYPE OF (marked);
DERIVE SELF\\shape.label : STRING(8) := 'p'; END_ENTITY;
END_SCHEMA;
";

const START: &'static [u8] = b"ISO-10303-21;\nHEADER;\nFILE_DESCRIPTION((''),'2;1');\n\
    FILE_NAME('','',(''),(''),'','','');\nFILE_SCHEMA(('GEO'));\nENDSEC;\nDATA;\n";

const END: &'static [u8] = b"ENDSEC;\nEND-ISO-10303-21;\n";

const POINTS: &'static [u8] = b"#1=POINT((0.,1.));\n#2=POINT((0.0,1.E0));\n\
    #3=PLACEMENT(#1,$);\n#4=PLACEMENT(#2,$);\n";

const MARKS: &'static [u8] = b"#7=(SHAPE('s')SOLID(LEN_M(1.0))MARKED(.ROUGH.));\n\
    #5=PLAIN_MARK(*,.FINE.);\n#6=BUNDLE((#8));\n#8=NODE(#8);\n";

/// A question about a population, with the expected answer.
#[derive(Clone, Copy)]
enum Question {
    /// An instance, an attribute, the kind of its value, and the number of values inside.
    Value(u64, &'static [u8], &'static [u8], Option<(Kind, usize)>),
    /// An instance, and the number of its types.
    Types(u64, usize),
    /// The number of instances, and the number of cells in the population and in its rows.
    Cells(usize, usize),
    /// A row, its types, and the kinds of its values.
    Row(usize, &'static [&'static [u8]], &'static [Kind]),
}

/// What is tested, the instances of a file, and a question.
type Case = (&'static str, &'static [u8], Question);

const CASES: &'static [Case] = &[
    ("no instances", b"", Question::Cells(0, 0)),
    ("the cells of points", POINTS, Question::Cells(4, 10)),
    ("the cells of marks", MARKS, Question::Cells(4, 9)),
    (
        "a list of two",
        POINTS,
        Question::Value(1, b"POINT", b"COORDS", Some((Kind::List, 2))),
    ),
    (
        "a reference",
        POINTS,
        Question::Value(3, b"PLACEMENT", b"LOCATION", Some((Kind::Reference, 0))),
    ),
    (
        "an unset value, by names without case",
        POINTS,
        Question::Value(4, b"placement", b"Axis", Some((Kind::Unset, 0))),
    ),
    (
        "an attribute of another entity",
        POINTS,
        Question::Value(1, b"PLACEMENT", b"LOCATION", None),
    ),
    (
        "no such instance",
        POINTS,
        Question::Value(9, b"POINT", b"COORDS", None),
    ),
    (
        "a string of one of three types",
        MARKS,
        Question::Value(7, b"SHAPE", b"LABEL", Some((Kind::Text, 0))),
    ),
    (
        "a typed value of the second",
        MARKS,
        Question::Value(7, b"SOLID", b"VOLUME", Some((Kind::Typed, 1))),
    ),
    (
        "an element of the third",
        MARKS,
        Question::Value(7, b"MARKED", b"LOOK", Some((Kind::Element, 0))),
    ),
    (
        "a derived value",
        MARKS,
        Question::Value(5, b"SHAPE", b"LABEL", Some((Kind::Derived, 0))),
    ),
    (
        "an attribute of a type that it hasn't",
        MARKS,
        Question::Value(5, b"SOLID", b"VOLUME", None),
    ),
    (
        "a set of one",
        MARKS,
        Question::Value(6, b"BUNDLE", b"MEMBERS", Some((Kind::Bag, 1))),
    ),
    ("one type", POINTS, Question::Types(3, 1)),
    ("the types of no instance", POINTS, Question::Types(5, 0)),
    ("a type and those above it", MARKS, Question::Types(5, 3)),
    (
        "the row of a point",
        POINTS,
        Question::Row(0, &[b"POINT"], &[Kind::List]),
    ),
    (
        "the row of a placement",
        POINTS,
        Question::Row(3, &[b"PLACEMENT"], &[Kind::Reference, Kind::Unset]),
    ),
    (
        "the row of three types, in order",
        MARKS,
        Question::Row(
            0,
            &[b"MARKED", b"SHAPE", b"SOLID"],
            &[Kind::Element, Kind::Text, Kind::Typed],
        ),
    ),
    (
        "the row of a type with those above it",
        MARKS,
        Question::Row(
            1,
            &[b"MARKED", b"PLAIN_MARK", b"SHAPE"],
            &[Kind::Element, Kind::Derived],
        ),
    ),
    (
        "the row of a bundle",
        MARKS,
        Question::Row(2, &[b"BUNDLE"], &[Kind::Bag]),
    ),
];

fn is_word(word: Word<'_>, text: &[u8]) -> bool {
    match Word::read(text) {
        Ok(other) => word == other,
        Err(_) => false,
    }
}

// Returns the number of an explicit attribute, if any.
fn place_of(types: &ResolvedTypes<'_, '_>, entity: &[u8], attribute: &[u8]) -> Option<u32> {
    let attributes = &types.places.attributes;
    for i in 0..attributes.len() {
        let place = attributes[i];
        if is_word(*place.entity, entity) && is_word(*place.attribute, attribute) {
            return u32::try_from(i).ok();
        }
    }
    None
}

fn has_value(
    population: &Population<'_, '_, '_, '_>,
    name: u64,
    place: u32,
    wanted: Option<(Kind, usize)>,
) -> bool {
    match population.value(name, place) {
        Some(value) => wanted == Some((value.kind(), value.len())),
        None => wanted.is_none(),
    }
}

fn has_value_of(
    population: &Population<'_, '_, '_, '_>,
    name: u64,
    entity: &[u8],
    attribute: &[u8],
    wanted: Option<(Kind, usize)>,
) -> bool {
    match place_of(population.types, entity, attribute) {
        Some(place) => has_value(population, name, place, wanted),
        None => false,
    }
}

fn are_words(words: &[Word<'_>], wanted: &[&'static [u8]]) -> bool {
    if words.len() != wanted.len() {
        return false;
    }
    for i in 0..words.len() {
        if !is_word(words[i], wanted[i]) {
            return false;
        }
    }
    true
}

fn are_kinds(values: &Slots<'_, '_>, wanted: &[Kind]) -> bool {
    if values.len() != wanted.len() {
        return false;
    }
    for i in 0..wanted.len() {
        if values.at(i).kind() != wanted[i] {
            return false;
        }
    }
    true
}

fn is_row(plain: &Plain<'_>, place: usize, types: &[&'static [u8]], kinds: &[Kind]) -> bool {
    if place >= plain.len() {
        return false;
    }
    let row = plain.row(place);
    are_words(row.types, types) && are_kinds(&row.values, kinds)
}

fn has_cells(
    population: &Population<'_, '_, '_, '_>,
    plain: &Plain<'_>,
    instances: usize,
    cells: usize,
) -> bool {
    population.len() == instances
        && population.cells().len() == cells
        && plain.len() == instances
        && plain.cells().len() == cells
}

// Whether the expected answer is returned for a population and its rows.
fn is_answered(
    population: &Population<'_, '_, '_, '_>,
    plain: &Plain<'_>,
    question: Question,
) -> bool {
    match question {
        Question::Value(name, entity, attribute, wanted) => {
            has_value_of(population, name, entity, attribute, wanted)
        }
        Question::Types(name, count) => population.types_of(name).len() == count,
        Question::Cells(instances, cells) => has_cells(population, plain, instances, cells),
        Question::Row(place, types, kinds) => is_row(plain, place, types, kinds),
    }
}

fn is_right_of<'s: 'a, 'a>(
    alloc: Global,
    keys: RandomState,
    population: &Population<'s, '_, '_, 'a>,
    question: Question,
) -> bool {
    match population.plain(alloc, keys) {
        Ok(plain) => is_answered(population, &plain, question),
        Err(_) => false,
    }
}

fn is_right_typed<'s: 'a, 'a>(
    alloc: Global,
    keys: RandomState,
    types: &ResolvedTypes<'s, '_>,
    exchange: &Exchange<'a>,
    question: Question,
) -> bool
    requires { IsMade types.now }
{
    let Ok(verdict) = populate(alloc, keys, types, exchange) else {
        return false;
    };
    let Verdict::Typed(population) = verdict else {
        return false;
    };
    is_right_of(alloc, keys, &population, question)
}

fn is_right_text(
    alloc: Global,
    keys: RandomState,
    types: &ResolvedTypes<'_, '_>,
    text: &[u8],
    question: Question,
) -> bool
    requires { IsMade types.now }
{
    match read_exchange(alloc, keys, text) {
        Ok(exchange) => is_right_typed(alloc, keys, types, &exchange, question),
        Err(_) => false,
    }
}

fn add_file(text: &mut Vec<u8>, instances: &[u8]) -> bool {
    text.extend_from_slice(START).is_ok()
        && text.extend_from_slice(instances).is_ok()
        && text.extend_from_slice(END).is_ok()
}

fn is_right(alloc: Global, keys: RandomState, types: &ResolvedTypes<'_, '_>, case: &Case) -> bool
    requires { IsMade types.now }
{
    let (_, instances, question) = *case;
    let mut text = Vec::new(alloc);
    add_file(&mut text, instances) && is_right_text(alloc, keys, types, &text, question)
}

// Returns what is tested by the first wrong case, if any.
fn wrong_case(
    alloc: Global,
    keys: RandomState,
    types: &ResolvedTypes<'_, '_>,
) -> Option<&'static str>
    requires { IsMade types.now }
{
    for case in CASES {
        if !is_right(alloc, keys, types, case) {
            return Some(case.0);
        }
    }
    None
}

// Returns what is tested by the first wrong case, if any; names the schema if its types aren't
// resolved.
fn wrong_of_tree(alloc: Global, keys: RandomState, tree: &SchemaTree<'_>) -> Option<&'static str> {
    match resolve_types(alloc, keys, tree) {
        Ok(types) => wrong_case(alloc, keys, &types),
        Err(_) => Some("the schema"),
    }
}

fn wrong_answer(alloc: Global, keys: RandomState) -> Option<&'static str> {
    match read_schema(alloc, SCHEMA) {
        Ok(tree) => wrong_of_tree(alloc, keys, &tree),
        Err(_) => Some("the text of the schema"),
    }
}

#[test]
fn populations_are_asked(rt: HostRuntime) -> Result<(), Fail> {
    let keys = RandomState::new(&rt)?;
    assert_eq!(rt; wrong_answer(rt.alloc(), keys), None);
    Ok(())
}
