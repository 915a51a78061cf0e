//! The trees of worked schemas, and the first faults of texts that aren't schemas.

use crate::questions::{Case, Question, wrong_case};
use crate::rows::expect_none;
use express_reader::expression::Expr;
use express_reader::fault::{FaultKind, LeftOut};
use express_reader::tree::{
    Attribute, Body, Collection, DataType, Declaration, Entity, Rule, SchemaTree, Skipped,
    Supertype, Underlying,
};

pub(crate) const GEO: &'static [u8] = b"SCHEMA geo;
TYPE len_m = REAL; END_TYPE;
TYPE angle_m = REAL; END_TYPE;
TYPE finish = ENUMERATION OF (rough, fine); END_TYPE;
TYPE amount = SELECT (len_m, angle_m); END_TYPE;
ENTITY point; coords : LIST [1:3] OF REAL; END_ENTITY;
ENTITY direction; ratios : LIST [2:3] OF REAL;
DERIVE dim : INTEGER := HIINDEX(ratios);
WHERE wr1 : SIZEOF(QUERY(r <* ratios | r <> 0.0)) > 0; END_ENTITY;
ENTITY placement; location : point; axis : OPTIONAL direction;
INVERSE notes : SET [0:1] OF note FOR subject;
WHERE wr1 : axis.dim = SIZEOF(location.coords); END_ENTITY;
ENTITY item ABSTRACT SUPERTYPE OF (ONEOF (loop, group)); END_ENTITY;
ENTITY loop SUBTYPE OF (item);
corners : LIST [3:?] OF UNIQUE point; END_ENTITY;
ENTITY group SUBTYPE OF (item);
id : STRING; members : SET [1:?] OF placement;
UNIQUE ur1 : id; END_ENTITY;
ENTITY note; words : STRING; subject : placement; END_ENTITY;
ENTITY node; next : node; END_ENTITY;
ENTITY bundle; members : SET [1:?] OF node; END_ENTITY;
ENTITY shape; label : STRING(8); END_ENTITY;
ENTITY solid SUBTYPE OF (shape); volume : amount; END_ENTITY;
ENTITY marked SUBTYPE OF (shape); look : finish; END_ENTITY;
ENTITY plain_mark SUBTYPE OF (marked);
DERIVE SELF\\shape.label : STRING(8) := 'p'; END_ENTITY;
FUNCTION ok(p : point) : BOOLEAN; RETURN (TRUE); END_FUNCTION;
END_SCHEMA;";

// A rule in the greatest number of parentheses.
const DEEP: &'static [u8] = b"SCHEMA s; ENTITY a; WHERE \
    ((((((((((((((((((((((((((((((((\
    ((((((((((((((((((((((((((((((((\
    1 = 1\
    ))))))))))))))))))))))))))))))))\
    ))))))))))))))))))))))))))))))))\
    ; END_ENTITY; END_SCHEMA;";

const TOO_DEEP: &'static [u8] = b"SCHEMA s; ENTITY a; WHERE (\
    ((((((((((((((((((((((((((((((((\
    ((((((((((((((((((((((((((((((((\
    1 = 1\
    ))))))))))))))))))))))))))))))))\
    ))))))))))))))))))))))))))))))))\
    ); END_ENTITY; END_SCHEMA;";

const SECOND: FaultKind = FaultKind::LeftOut(LeftOut::SecondSchema);

const CASES: &'static [Case] = &[
    (GEO, Question::Types),
    (GEO, Question::Entities),
    (GEO, Question::Function),
    // An expression, and a run of tokens that isn't one.
    (
        b"SCHEMA s; ENTITY e; WHERE NOT a AND b OR c; a = b = c; END_ENTITY; END_SCHEMA;",
        Question::SetAside,
    ),
    // Bounds are integers within 64 bits, or expressions.
    (
        b"SCHEMA s; TYPE t = ARRAY [0:?] OF REAL; END_TYPE; END_SCHEMA;",
        Question::Bounds(Some(0), None),
    ),
    (
        b"SCHEMA s; TYPE t = ARRAY [-9223372036854775808:+9223372036854775807] OF REAL; END_TYPE; END_SCHEMA;",
        Question::Bounds(Some(-9223372036854775808), Some(9223372036854775807)),
    ),
    (
        b"SCHEMA s; TYPE t = ARRAY [-9223372036854775809:9223372036854775808] OF REAL; END_TYPE; END_SCHEMA;",
        Question::Bounds(None, None),
    ),
    (
        b"SCHEMA s; TYPE t = ARRAY [1 + 1:007] OF REAL; END_TYPE; END_SCHEMA;",
        Question::Bounds(None, Some(7)),
    ),
    (
        b"SCHEMA s; TYPE t = ARRAY [-0:-7] OF REAL; END_TYPE; END_SCHEMA;",
        Question::Bounds(Some(0), Some(-7)),
    ),
    // At most 64 brackets.
    (DEEP, Question::Schema),
    (TOO_DEEP, Question::Text(FaultKind::TooDeep, 90)),
    // The first token that isn't allowed.
    (
        b"SCHEMA s; USE FROM t; END_SCHEMA;",
        Question::Text(FaultKind::LeftOut(LeftOut::Use), 10),
    ),
    (
        b"SCHEMA s; & END_SCHEMA;",
        Question::Text(FaultKind::BadToken, 10),
    ),
    (
        b"SCHEMA s; ENTITY a END_ENTITY; END_SCHEMA;",
        Question::Text(FaultKind::Expected, 19),
    ),
    (b"", Question::Text(FaultKind::Expected, 0)),
    // A second schema, after the first one and inside it.
    (
        b"SCHEMA s; END_SCHEMA; SCHEMA t; END_SCHEMA;",
        Question::Text(SECOND, 22),
    ),
    (
        b"SCHEMA s; SCHEMA t; END_SCHEMA;",
        Question::Text(SECOND, 10),
    ),
    (b"SCHEMA SCHEMA;", Question::Text(SECOND, 7)),
    (b"SCHEMA s; ENTITY a; SCHEMA t;", Question::Text(SECOND, 20)),
    // In a run of tokens and in a skipped declaration, SCHEMA is a token like any other.
    (
        b"SCHEMA s; ENTITY a; WHERE SCHEMA; &",
        Question::Text(FaultKind::BadToken, 34),
    ),
    (
        b"SCHEMA s; FUNCTION SCHEMA",
        Question::Text(FaultKind::Expected, 19),
    ),
];

fn declaration_at<'t, 'a>(schema: &'t SchemaTree<'a>, place: usize) -> Option<&'t Declaration<'a>> {
    schema.declarations.get(place)
}

fn entity_at<'t, 'a>(schema: &'t SchemaTree<'a>, place: usize) -> Option<&'t Entity<'a>> {
    match declaration_at(schema, place) {
        Some(Declaration::Entity(entity)) => Some(entity),
        _ => None,
    }
}

fn underlying_at<'t, 'a>(schema: &'t SchemaTree<'a>, place: usize) -> Option<&'t Underlying<'a>> {
    match declaration_at(schema, place) {
        Some(Declaration::Type(declared)) => Some(&declared.underlying),
        _ => None,
    }
}

/// Whether these are the types of `GEO`.
pub(crate) fn types_are_read(schema: &SchemaTree<'_>) -> bool {
    schema.name.spelling() == b"geo".as_slice()
        && schema.version.is_none()
        && schema.declarations.len() == 18
        && matches!(underlying_at(schema, 2), Some(Underlying::Enumeration(items)) if items.len() == 2)
        && matches!(underlying_at(schema, 3), Some(Underlying::Select(types)) if types.len() == 2)
}

// Whether this is the entity with an optional attribute and an inverse one.
fn is_placement(entity: &Entity<'_>) -> bool {
    matches!(entity.explicits.as_slice(), [location, axis] if !location.is_optional && axis.is_optional)
        && matches!(entity.inverse_attributes(), [notes] if matches!(notes.collection, Collection::Set(Some(_))))
}

fn is_item(entity: &Entity<'_>) -> bool {
    entity.is_abstract && matches!(&entity.supertype, Supertype::OfOneOf(names) if names.len() == 2)
}

fn is_redeclared_label(attribute: &Attribute<'_>) -> bool {
    matches!(attribute, Attribute::Redeclared(_, _))
        && attribute.name().spelling() == b"label".as_slice()
}

fn redeclares_label(entity: &Entity<'_>) -> bool {
    matches!(entity.derived_attributes(), [label] if is_redeclared_label(&label.attribute))
}

/// Whether entities of `GEO` have their clauses.
pub(crate) fn entities_are_read(schema: &SchemaTree<'_>) -> bool {
    match (
        entity_at(schema, 6),
        entity_at(schema, 7),
        entity_at(schema, 16),
    ) {
        (Some(placement), Some(item), Some(mark)) => {
            is_placement(placement) && is_item(item) && redeclares_label(mark)
        }
        _ => false,
    }
}

/// Whether the tokens of `GEO`'s function are kept.
pub(crate) fn is_function_kept(schema: &SchemaTree<'_>) -> bool {
    match declaration_at(schema, 17) {
        Some(Declaration::Skipped(Skipped::Function(name, tokens))) => {
            name.spelling() == b"ok".as_slice()
                && tokens.passage().text()
                    == b"(p : point) : BOOLEAN; RETURN (TRUE); END_FUNCTION".as_slice()
        }
        _ => false,
    }
}

// Whether the rules are an expression, followed by a run of tokens.
fn are_apart(rules: &[Rule<'_>]) -> bool {
    let [first, second] = rules else {
        return false;
    };
    let Body::SetAside(run) = &second.body else {
        return false;
    };
    matches!(&first.body, Body::Expression(Expr::Disjunction(_, _)))
        && run.passage().text() == b"a = b = c".as_slice()
        && run.passage().place() == 44
}

/// Whether the tokens of the second of an entity's two rules are kept.
pub(crate) fn is_set_aside(schema: &SchemaTree<'_>) -> bool {
    match entity_at(schema, 0) {
        Some(entity) => are_apart(entity.domain_rules()),
        None => false,
    }
}

/// Whether the first declaration is an array type with these bounds.
pub(crate) fn has_bounds(schema: &SchemaTree<'_>, lower: Option<i64>, upper: Option<i64>) -> bool {
    match underlying_at(schema, 0) {
        Some(Underlying::DataType(DataType::Array { bounds, .. })) => {
            bounds.lower.value() == lower && bounds.upper.value() == upper
        }
        _ => false,
    }
}

#[test]
fn texts_are_trees_or_have_a_first_fault(rt: HostRuntime) {
    expect_none(&rt, wrong_case(&rt, rt.alloc(), CASES));
}
