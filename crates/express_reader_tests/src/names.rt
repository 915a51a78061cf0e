//! Schemas whose names are resolved, and schemas with faults of names.

use crate::questions::{Case, Question, wrong_case};
use crate::rows::expect_none;
use crate::trees::GEO;
use express_reader::fault::NameFault;
use schema_explicit_attributes::attributes::Place;
use schema_types::types::ResolvedTypes;
use step_literals::literal::Word;

const DIAMOND: &'static [u8] = b"SCHEMA s; ENTITY d SUBTYPE OF (b, c); w : REAL; END_ENTITY;
ENTITY a; x : REAL; END_ENTITY; ENTITY b SUBTYPE OF (a); y : REAL; END_ENTITY;
ENTITY c SUBTYPE OF (a); z : REAL; END_ENTITY; END_SCHEMA;";

const CASES: &'static [Case] = &[
    // Attributes of supertypes come first, each once.
    (
        GEO,
        Question::Places(b"plain_mark", &[(b"shape", b"label"), (b"marked", b"look")]),
    ),
    (
        DIAMOND,
        Question::Places(
            b"d",
            &[(b"a", b"x"), (b"b", b"y"), (b"c", b"z"), (b"d", b"w")],
        ),
    ),
    // An entity is a kind of itself and of its supertypes.
    (GEO, Question::Kind(b"plain_mark", b"shape", true)),
    (GEO, Question::Kind(b"loop", b"loop", true)),
    (GEO, Question::Kind(b"shape", b"plain_mark", false)),
    (GEO, Question::Kind(b"loop", b"group", false)),
    // Each fault of names.
    (
        b"SCHEMA s; ENTITY a; x : b; END_ENTITY; END_SCHEMA;",
        Question::Name(NameFault::UnknownName, "B"),
    ),
    (
        b"SCHEMA s; ENTITY a; END_ENTITY; ENTITY A; END_ENTITY; END_SCHEMA;",
        Question::Name(NameFault::DuplicateName, "A"),
    ),
    // The first declaration that repeats a name, though another name is declared before it.
    (
        b"SCHEMA s; ENTITY a; END_ENTITY; ENTITY b; END_ENTITY; ENTITY b; END_ENTITY;
        ENTITY a; END_ENTITY; END_SCHEMA;",
        Question::Name(NameFault::DuplicateName, "B"),
    ),
    // An attribute that is repeated before the name of its entity is.
    (
        b"SCHEMA s; ENTITY a; x : REAL; x : REAL; END_ENTITY; ENTITY a; END_ENTITY; END_SCHEMA;",
        Question::Name(NameFault::DuplicateName, "X"),
    ),
    (
        b"SCHEMA s; ENTITY a SUBTYPE OF (b); END_ENTITY; ENTITY b SUBTYPE OF (a); END_ENTITY;
        END_SCHEMA;",
        Question::Name(NameFault::SupertypeCycle, "A"),
    ),
    (
        b"SCHEMA s; TYPE a = SELECT (b); END_TYPE; TYPE b = SELECT (a); END_TYPE; END_SCHEMA;",
        Question::Name(NameFault::TypeCycle, "A"),
    ),
    // The fault with the least number, though another comes first in the text.
    (
        b"SCHEMA s; ENTITY a; END_ENTITY; ENTITY a; x : nothing; END_ENTITY; END_SCHEMA;",
        Question::Name(NameFault::UnknownName, "NOTHING"),
    ),
    // The first name, clause by clause.
    (
        b"SCHEMA s; ENTITY a SUBTYPE OF (first); x : second; END_ENTITY; END_SCHEMA;",
        Question::Name(NameFault::UnknownName, "FIRST"),
    ),
    // An attribute of an entity that isn't a supertype.
    (
        b"SCHEMA s; ENTITY a; x : REAL; END_ENTITY;
        ENTITY b; SELF\\a.x : REAL; END_ENTITY; END_SCHEMA;",
        Question::Name(NameFault::UnknownName, "X"),
    ),
    // A derived attribute isn't inverted.
    (
        b"SCHEMA s; ENTITY a; INVERSE i : b FOR x; END_ENTITY;
        ENTITY b; DERIVE x : REAL := 1.0; END_ENTITY; END_SCHEMA;",
        Question::Name(NameFault::UnknownName, "X"),
    ),
    // A cycle that doesn't pass through the first entity.
    (
        b"SCHEMA s; ENTITY a SUBTYPE OF (b); END_ENTITY; ENTITY b SUBTYPE OF (c); END_ENTITY;
        ENTITY c SUBTYPE OF (b); END_ENTITY; END_SCHEMA;",
        Question::Name(NameFault::SupertypeCycle, "B"),
    ),
];

// Returns the number of the entity with this name, if any.
fn number(types: &ResolvedTypes<'_, '_>, name: &[u8]) -> Option<u32> {
    let Ok(word) = Word::read(name) else {
        return None;
    };
    types.find(word)
}

fn is_place(place: &Place<'_, '_>, entity: &[u8], attribute: &[u8]) -> bool {
    place.entity.spelling().eq_ignore_ascii_case(entity)
        && place.attribute.spelling().eq_ignore_ascii_case(attribute)
}

// Whether these numbers belong to these explicit attributes.
fn are_places(
    places: &[Place<'_, '_>],
    numbers: &[u32],
    wanted: &[(&'static [u8], &'static [u8])],
) -> bool {
    if numbers.len() != wanted.len() {
        return false;
    }
    for i in 0..numbers.len() {
        let (entity, attribute) = wanted[i];
        match places.get(numbers[i] as usize) {
            Some(place) if is_place(place, entity, attribute) => {}
            _ => return false,
        }
    }
    true
}

/// Whether an entity has these attributes.
pub(crate) fn has_places(
    types: &ResolvedTypes<'_, '_>,
    name: &[u8],
    wanted: &[(&'static [u8], &'static [u8])],
) -> bool {
    let Some(number) = number(types, name) else {
        return false;
    };
    if (number as usize) >= types.names.len() {
        return false;
    }
    are_places(&types.places.attributes, types.places(number), wanted)
}

/// Whether both entities exist, and `lower` is a kind of `upper` exactly if expected.
pub(crate) fn are_kinds(
    types: &ResolvedTypes<'_, '_>,
    lower: &[u8],
    upper: &[u8],
    wanted: bool,
) -> bool {
    let (Some(lower), Some(upper)) = (number(types, lower), number(types, upper)) else {
        return false;
    };
    if (lower as usize) >= types.names.len() {
        return false;
    }
    types.is_kind_of(lower, upper) == wanted
}

#[test]
fn names_are_resolved_or_have_the_least_fault(rt: HostRuntime) {
    expect_none(&rt, wrong_case(&rt, rt.alloc(), CASES));
}
