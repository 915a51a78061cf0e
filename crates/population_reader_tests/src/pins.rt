//! The instances of small files that keep their identity.

ghost use Rattle.schema_resolution.specs.SoundGraphs.{IsSound};

use express_reader::read_schema;
use express_syntax::fault::{NameFault, SchemaFault};
use merge_choices::choice::{Choice, Chosen, Names};
use population_inverses::extents::Extents;
use population_pins::pin_names::Pins;
use population_pins::weak_pins::WeakPins;
use population_pins::weak_rules::pins;
use population_reader::populate::{Verdict, populate};
use schema_resolution::resolution::resolve;
use schema_resolution::resolved_schema::ResolvedSchema;
use std::alloc::{AllocError, Global};
use std::collections::BTreeSet;
use std::hash::RandomState;
use std::test::Fail;
use step_exchange::exchange::read_exchange;
use step_exchange::structure::Exchange;
use step_literals::literal::Word;
use value_equality::table::{Origin, Table};

const GEO: &'static [u8] = b"SCHEMA geo;
TYPE len_m = REAL; END_TYPE;
TYPE angle_m = REAL; END_TYPE;
TYPE finish = ENUMERATION OF (rough, fine); END_TYPE;
TYPE amount = SELECT (len_m, angle_m); END_TYPE;
ENTITY point; coords : LIST [1:3] OF REAL; END_ENTITY;
ENTITY direction; ratios : LIST [2:3] OF REAL;
DERIVE dim : INTEGER := HIINDEX(ratios);
WHERE wr1 : SIZEOF(QUERY(r <* ratios | r <> 0.0)) > 0; END_ENTITY;
ENTITY placement; location : point; axis : OPTIONAL direction;
INVERSE notes : SET [0:1] OF note FOR subject;
WHERE wr1 : axis.dim = SIZEOF(location.coords); END_ENTITY;
ENTITY item ABSTRACT SUPERTYPE OF (ONEOF (loop, group)); END_ENTITY;
ENTITY loop SUBTYPE OF (item);
corners : LIST [3:?] OF UNIQUE point; END_ENTITY;
ENTITY group SUBTYPE OF (item);
id : STRING; members : SET [1:?] OF placement;
UNIQUE ur1 : id; END_ENTITY;
ENTITY note; words : STRING; subject : placement; END_ENTITY;
ENTITY node; next : node; END_ENTITY;
ENTITY bundle; members : SET [1:?] OF node; END_ENTITY;
ENTITY shape; label : STRING(8); END_ENTITY;
ENTITY solid SUBTYPE OF (shape); volume : amount; END_ENTITY;
ENTITY marked SUBTYPE OF (shape); look : finish; END_ENTITY;
ENTITY plain_mark SUBTYPE OF (marked);
DERIVE SELF\\shape.label : STRING(8) := 'p'; END_ENTITY;
END_SCHEMA;
";

// Aggregates inside aggregates and inside a typed value.
const DEEP: &'static [u8] = b"SCHEMA geo;
TYPE bags = LIST OF BAG OF point; END_TYPE;
TYPE ring = LIST OF UNIQUE point; END_TYPE;
TYPE loops = LIST OF UNIQUE LIST OF point; END_TYPE;
TYPE any = SELECT (loops, ring); END_TYPE;
ENTITY point; END_ENTITY;
ENTITY store; held : bags; END_ENTITY;
ENTITY frame; shown : any; END_ENTITY;
END_SCHEMA;
";

const START: &'static [u8] = b"ISO-10303-21;\nHEADER;\nFILE_DESCRIPTION((''),'2;1');\n\
    FILE_NAME('','',(''),(''),'','','');\nFILE_SCHEMA(('GEO'));\nENDSEC;\nDATA;\n";

const END: &'static [u8] = b"ENDSEC;\nEND-ISO-10303-21;\n";

const NOTED: &'static [u8] = b"#1=POINT((0.));\n#2=POINT((0.));\n#3=PLACEMENT(#1,$);\n\
    #4=PLACEMENT(#2,$);\n#5=NOTE('a',#4);\n";

const LOOPED: &'static [u8] = b"#1=POINT((0.));\n#2=POINT((0.));\n#3=POINT((1.));\n\
    #4=LOOP((#1,#2,#3));\n";

const BUNDLED: &'static [u8] = b"#1=NODE(#1);\n#2=NODE(#2);\n#3=BUNDLE((#1,#2));\n\
    #4=BUNDLE((#2,#1));\n";

const GROUPED: &'static [u8] = b"#1=POINT((0.));\n#2=PLACEMENT(#1,$);\n#3=GROUP('a',(#2));\n\
    #4=GROUP('a',(#2));\n";

const MIXED: &'static [u8] = b"#1=(MARKED(.ROUGH.)SHAPE('s')SOLID(LEN_M(1.)));\n";

/// One of the two schemas.
#[derive(Clone, Copy)]
enum Schema {
    Geo,
    Deep,
}

/// Names of entities; `None` stands for the usual ones.
type Given = Option<&'static [&'static str]>;

/// A table: its last round, its classes, and the class of each name.
type Rounds = (u32, &'static [Origin], &'static [(u64, u32)]);

/// A question with the expected answer.
#[derive(Clone, Copy)]
enum Question {
    /// The names of the instances that the weak rules pin.
    Weak(&'static [u64]),
    /// The names of the instances that the gentle rules pin under this table.
    Gentle(Rounds, &'static [u64]),
    /// The value of an inverse attribute of an entity, for the instance with this name.
    Inverse(u64, &'static [u8], &'static [u8], &'static [u64]),
    /// Whether the entity with this number is chosen.
    Chosen(u32, bool),
    /// The chosen name that isn't an entity.
    Unknown(&'static str),
}

/// A schema, the entities that are chosen, the instances of a file, and a question.
type Case = (Schema, Given, &'static [u8], Question);

const POINTS: Given = Some(&["POINT"]);

const PLACED: Given = Some(&["POINT", "PLACEMENT"]);

const HOLDERS: Given = Some(&["POINT", "STORE", "FRAME"]);

// The first two points share a class in the last round; the third has split off.
const SHARED: Rounds = (
    1,
    &[
        Origin::Start,
        Origin::Start,
        Origin::Split {
            parent: 0,
            round: 1,
        },
    ],
    &[(1, 0), (2, 0), (3, 2), (4, 1)],
);

const APART: Rounds = (
    0,
    &[Origin::Start, Origin::Start, Origin::Start, Origin::Start],
    &[(1, 0), (2, 1), (3, 2), (4, 3)],
);

const CASES: &'static [Case] = &[
    // A note isn't chosen; it is the value of an inverse attribute of a placement.
    (Schema::Geo, PLACED, NOTED, Question::Weak(&[4, 5])),
    (
        Schema::Geo,
        PLACED,
        NOTED,
        Question::Inverse(4, b"PLACEMENT", b"NOTES", &[5]),
    ),
    (
        Schema::Geo,
        PLACED,
        NOTED,
        Question::Inverse(3, b"PLACEMENT", b"NOTES", &[]),
    ),
    // A missing instance, a missing attribute, and an entity without the attribute.
    (
        Schema::Geo,
        PLACED,
        NOTED,
        Question::Inverse(9, b"PLACEMENT", b"NOTES", &[]),
    ),
    (
        Schema::Geo,
        PLACED,
        NOTED,
        Question::Inverse(4, b"PLACEMENT", b"LOCATION", &[]),
    ),
    (
        Schema::Geo,
        PLACED,
        NOTED,
        Question::Inverse(4, b"POINT", b"NOTES", &[]),
    ),
    // The elements of a LIST OF UNIQUE: a loop isn't chosen.
    (Schema::Geo, POINTS, LOOPED, Question::Weak(&[4])),
    (
        Schema::Geo,
        POINTS,
        LOOPED,
        Question::Gentle(SHARED, &[1, 2, 4]),
    ),
    (Schema::Geo, POINTS, LOOPED, Question::Gentle(APART, &[4])),
    // The elements of a SET.
    (
        Schema::Geo,
        Some(&["NODE", "BUNDLE"]),
        BUNDLED,
        Question::Weak(&[1, 2]),
    ),
    // A group has a uniqueness rule, and holds a placement in a SET.
    (
        Schema::Geo,
        Some(&["POINT", "PLACEMENT", "GROUP"]),
        GROUPED,
        Question::Weak(&[2, 3, 4]),
    ),
    (Schema::Geo, POINTS, b"", Question::Weak(&[])),
    // DIRECTION is one of the usual names, POINT isn't.
    (
        Schema::Geo,
        None,
        b"#1=DIRECTION((1.,0.));\n#2=POINT((0.));\n",
        Question::Weak(&[2]),
    ),
    // Two types, neither of which is a subtype of the other.
    (
        Schema::Geo,
        Some(&["SOLID", "MARKED"]),
        MIXED,
        Question::Weak(&[]),
    ),
    (Schema::Geo, Some(&["SOLID"]), MIXED, Question::Weak(&[1])),
    // Names are compared without case; a declaration's number is its position in the text.
    (
        Schema::Geo,
        Some(&["circle", "nothing"]),
        b"",
        Question::Unknown("CIRCLE"),
    ),
    (
        Schema::Geo,
        Some(&["point"]),
        b"",
        Question::Chosen(4, true),
    ),
    (
        Schema::Geo,
        Some(&["point"]),
        b"",
        Question::Chosen(6, false),
    ),
    (
        Schema::Geo,
        Some(&["point"]),
        b"",
        Question::Chosen(99, false),
    ),
    // A BAG inside a LIST.
    (
        Schema::Deep,
        HOLDERS,
        b"#1=POINT();\n#2=POINT();\n#3=POINT();\n#4=STORE(((#1),(#3)));\n",
        Question::Weak(&[1, 3]),
    ),
    // A LIST OF UNIQUE inside a typed value: points inside its elements, and as its elements.
    (
        Schema::Deep,
        HOLDERS,
        b"#1=POINT();\n#2=POINT();\n#3=POINT();\n#4=POINT();\n\
        #5=FRAME(LOOPS(((#1,#2),(#4))));\n",
        Question::Weak(&[1, 2, 4]),
    ),
    (
        Schema::Deep,
        HOLDERS,
        b"#1=POINT();\n#2=POINT();\n#3=FRAME(RING((#1,#2)));\n",
        Question::Weak(&[]),
    ),
];

fn file(alloc: Global, instances: &[u8]) -> Result<Vec<u8>, AllocError> {
    let mut text = Vec::new(alloc);
    text.extend_from_slice(START)?;
    text.extend_from_slice(instances)?;
    text.extend_from_slice(END)?;
    Ok(text)
}

fn text_of(schema: Schema) -> &'static [u8] {
    match schema {
        Schema::Geo => GEO,
        Schema::Deep => DEEP,
    }
}

fn strings(alloc: Global, words: &'static [&'static str]) -> Result<Vec<String>, AllocError> {
    let mut owned = Vec::new(alloc);
    for word in words {
        owned.push(String::from_str(alloc, word)?)?;
    }
    Ok(owned)
}

fn choice(alloc: Global, given: Given) -> Result<Choice, AllocError> {
    let names = match given {
        Some(words) => Names::Given(strings(alloc, words)?),
        None => Names::Usual,
    };
    Ok(Choice {
        names,
        in_sets: false,
        other_names: Vec::new(alloc),
        strict: false,
    })
}

fn table(alloc: Global, rounds: Rounds) -> Result<Table, AllocError> {
    let (rounds, classes, members) = rounds;
    Ok(Table {
        rounds,
        classes: Vec::from_slice(alloc, classes)?,
        members: Vec::from_slice(alloc, members)?,
    })
}

fn are_names(names: &BTreeSet<u64>, wanted: &[u64]) -> bool {
    names.iter().eq(wanted)
}

// Whether exactly these names are pinned.
fn are_pinned(pins: &Pins, wanted: &[u64]) -> bool {
    are_names(pins.names(), wanted)
        && wanted.iter().all(|name| pins.is_pinned(*name))
        && !pins.is_pinned(99)
}

// Whether exactly these names are pinned by the gentle rules under a table.
fn are_gentle(
    alloc: Global,
    keys: RandomState,
    weak: &WeakPins,
    rounds: Rounds,
    wanted: &[u64],
) -> Result<bool, AllocError> {
    let table = table(alloc, rounds)?;
    let gentle = weak.gentle(alloc, keys, &table)?;
    Ok(are_pinned(&gentle, wanted))
}

fn is_inverse(
    extents: &Extents<'_, '_, '_, '_, '_>,
    name: u64,
    entity: &[u8],
    attribute: &[u8],
    wanted: &[u64],
) -> bool {
    match (Word::read(entity), Word::read(attribute)) {
        (Ok(entity), Ok(attribute)) => extents.inverse_of(name, entity, attribute) == wanted,
        _ => false,
    }
}

// Whether the expected answer is returned for a population and its weak pins.
fn is_answered(
    alloc: Global,
    keys: RandomState,
    extents: &Extents<'_, '_, '_, '_, '_>,
    weak: &WeakPins,
    question: Question,
) -> Result<bool, AllocError> {
    match question {
        Question::Weak(wanted) => Ok(are_pinned(&weak.pins, wanted)),
        Question::Gentle(rounds, wanted) => are_gentle(alloc, keys, weak, rounds, wanted),
        Question::Inverse(name, entity, attribute, wanted) => {
            Ok(is_inverse(extents, name, entity, attribute, wanted))
        }
        _ => Ok(false),
    }
}

fn is_answered_by(
    alloc: Global,
    keys: RandomState,
    graph: &ResolvedSchema<'_, '_>,
    exchange: &Exchange<'_>,
    chosen: &Chosen,
    question: Question,
) -> Result<bool, AllocError>
    requires sound { IsSound graph.now }
{
    if let Question::Chosen(number, wanted) = question {
        return Ok(chosen.contains(number) == wanted);
    }
    let Verdict::Typed(population) = populate(alloc, keys, &graph.types, exchange)? else {
        return Ok(false);
    };
    let extents = Extents::build(alloc, &population, &graph.rules)?;
    let weak = pins(alloc, &extents, chosen)?;
    is_answered(alloc, keys, &extents, &weak, question)
}

fn is_fault(fault: &SchemaFault, question: Question) -> bool {
    match (fault, question) {
        (SchemaFault::Name { kind, name }, Question::Unknown(wanted)) => {
            *kind == NameFault::UnknownName && name.as_str() == wanted
        }
        _ => false,
    }
}

fn is_right_of(
    alloc: Global,
    keys: RandomState,
    graph: &ResolvedSchema<'_, '_>,
    exchange: &Exchange<'_>,
    given: Given,
    question: Question,
) -> Result<bool, AllocError>
    requires sound { IsSound graph.now }
{
    let choice = choice(alloc, given)?;
    match choice.settle(alloc, &graph.types) {
        Ok(chosen) => is_answered_by(alloc, keys, graph, exchange, &chosen, question),
        Err(fault) => Ok(is_fault(&fault, question)),
    }
}

fn is_right(alloc: Global, keys: RandomState, case: Case) -> Result<bool, AllocError> {
    let (schema, given, instances, question) = case;
    let text = file(alloc, instances)?;
    let Ok(tree) = read_schema(alloc, text_of(schema)) else {
        return Ok(false);
    };
    let Ok(graph) = resolve(alloc, keys, &tree) else {
        return Ok(false);
    };
    let Ok(exchange) = read_exchange(alloc, keys, &text) else {
        return Ok(false);
    };
    is_right_of(alloc, keys, &graph, &exchange, given, question)
}

fn wrong_case(
    alloc: Global,
    keys: RandomState,
    cases: &[Case],
) -> Result<Option<usize>, AllocError> {
    for i in 0..cases.len() {
        if !is_right(alloc, keys, cases[i])? {
            return Ok(Some(i));
        }
    }
    Ok(None)
}

#[test]
fn pins_are_as_the_rules_say(rt: HostRuntime) -> Result<(), Fail> {
    let keys = RandomState::new(&rt)?;
    assert_eq!(rt; wrong_case(rt.alloc(), keys, CASES)?, None);
    Ok(())
}
