//! Where attributes are declared, and the ranks of derived attributes.

ghost use Rattle.graphs.specs.Graphs.{graph_of};
ghost use Rattle.schema_semantics.specs.Faults.{IsResolved};
ghost use Rattle.schema_names.specs.Edges.{IsGraphOf, supertypes_in};
ghost use Rattle.schema_names.specs.Schemas.{the_schema};
ghost use Rattle.schema_explicit_attributes.specs.SupertypeLines.{HaveLines};

use crate::questions::{Case, Question, Text, wrong_case};
use crate::rows::expect_none;
use schema_explicit_attributes::origins::{inverted, origin};
use schema_explicit_attributes::supertype_lines::lines;
use schema_names::declaration_graphs::supertype_graph;
use schema_names::names::Names;
use schema_resolution::resolved_schema::ResolvedSchema;
use std::alloc::Global;
use step_literals::literal::Word;

const CHAIN: &'static [u8] = b"SCHEMA s;
    ENTITY a; x : REAL; DERIVE p : REAL := x; END_ENTITY;
    ENTITY b SUBTYPE OF (a);
    DERIVE q : REAL := NVL(p, r); r : REAL := SELF.p; SELF\\a.x : REAL := 1.0; t : REAL := t;
    u : REAL := NVL(q, t); END_ENTITY;
    END_SCHEMA;";

// b and c are subtypes of a, and d is a subtype of both; a, b and c each declare a w.
const DIAMOND: &'static [u8] = b"SCHEMA s;
    ENTITY d SUBTYPE OF (b, c); END_ENTITY;
    ENTITY c SUBTYPE OF (a); w : REAL; END_ENTITY;
    ENTITY b SUBTYPE OF (a); DERIVE w : REAL := 1.0; END_ENTITY;
    ENTITY a; w : REAL; z : REAL; END_ENTITY;
    END_SCHEMA;";

const CASES: &'static [Case] = &[
    // An attribute has a higher rank than those that it uses. The x of a may be the one that b
    // redeclares.
    (Text::Whole(CHAIN), Question::Rank(b"b", b"x", Some(0))),
    (Text::Whole(CHAIN), Question::Rank(b"a", b"p", Some(1))),
    (Text::Whole(CHAIN), Question::Rank(b"b", b"r", Some(2))),
    (Text::Whole(CHAIN), Question::Rank(b"b", b"q", Some(3))),
    // An explicit attribute, one that a supertype derives, one that uses itself, and one that uses
    // the one that uses itself.
    (Text::Whole(CHAIN), Question::Rank(b"a", b"x", None)),
    (Text::Whole(CHAIN), Question::Rank(b"b", b"p", None)),
    (Text::Whole(CHAIN), Question::Rank(b"b", b"t", None)),
    (Text::Whole(CHAIN), Question::Rank(b"b", b"u", None)),
    // The first entity in the supertype chain declares the attribute that is meant; an inverted
    // attribute is explicit.
    (
        Text::Whole(DIAMOND),
        Question::Origins(b"d", b"w", Some(2), Some(3)),
    ),
    (
        Text::Whole(DIAMOND),
        Question::Origins(b"c", b"w", Some(1), Some(1)),
    ),
    (
        Text::Whole(DIAMOND),
        Question::Origins(b"d", b"z", Some(3), Some(3)),
    ),
    (
        Text::Whole(DIAMOND),
        Question::Origins(b"d", b"y", None, None),
    ),
];

/// Whether an attribute of an entity has this rank; `false` if there is no such entity.
pub(crate) fn has_rank(
    graph: &ResolvedSchema<'_, '_>,
    entity: &[u8],
    attribute: &[u8],
    wanted: Option<u32>,
) -> bool {
    let (Ok(entity), Ok(attribute)) = (Word::read(entity), Word::read(attribute)) else {
        return false;
    };
    let Some(number) = graph.find(entity) else {
        return false;
    };
    if (number as usize) >= graph.types.names.len() {
        return false;
    }
    graph.rank(number, attribute) == wanted
}

// Whether the entity exists, and the expected answers are returned.
fn are_origins(names: &Names<'_, '_>, lines: &[Vec<u32>], question: Question) -> bool
    requires { HaveLines (the_schema names.now) (graph_of lines.now) }
{
    let Question::Origins(entity, attribute, declared, explicit) = question else {
        return false;
    };
    let (Ok(entity), Ok(attribute)) = (Word::read(entity), Word::read(attribute)) else {
        return false;
    };
    let Some(number) = names.find(entity) else {
        return false;
    };
    if (number as usize) >= lines.len() {
        return false;
    }
    origin(names, lines, number, attribute) == declared
        && inverted(names, lines, number, attribute) == explicit
}

fn has_lines(
    alloc: Global,
    names: &Names<'_, '_>,
    supertypes: &[Vec<u32>],
    question: Question,
) -> bool
    requires resolved { IsResolved (the_schema names.now) }
    requires graph { IsGraphOf (the_schema names.now) supertypes_in (graph_of supertypes.now) }
{
    let Ok(lines) = lines(alloc, names, supertypes) else {
        return false;
    };
    are_origins(names, &lines, question)
}

/// Whether attributes of a schema have these origins.
pub(crate) fn has_origins(alloc: Global, names: &Names<'_, '_>, question: Question) -> bool
    requires { IsResolved (the_schema names.now) }
{
    let Ok(supertypes) = supertype_graph(alloc, names) else {
        return false;
    };
    has_lines(alloc, names, &supertypes, question)
}

#[test]
fn attributes_are_declared_and_derived(rt: HostRuntime) {
    expect_none(&rt, wrong_case(&rt, rt.alloc(), CASES));
}
