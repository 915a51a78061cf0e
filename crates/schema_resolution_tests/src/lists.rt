//! Parts that aren't checked, each with its reason.

use crate::questions::{Case, Question, Text, wrong_case};
use crate::rows::expect_none;
use express_syntax::tree::Declaration;
use schema_semantics::unchecked::{PartKind, Reason};
use schema_unchecked_declarations::declarations::{add_inverse_clause, add_skipped, add_supertype};
use schema_unchecked_declarations::limits::add_underlying;
use schema_unchecked_declarations::list::{Label, Unchecked};
use std::alloc::{AllocError, Global};

/// A part that is listed: its kind, its label, and the reason.
pub(crate) type Part = (PartKind, &'static str, Reason);

// The start of a schema. A row adds three clauses of its own: after the attribute of point, after
// those of solid, and before the end.
const TYPES: &'static [u8] = b"SCHEMA geo;
    TYPE len_m = REAL; END_TYPE;
    TYPE angle_m = REAL; END_TYPE;
    TYPE finish = ENUMERATION OF (rough, fine); END_TYPE;
    TYPE amount = SELECT (len_m, angle_m); END_TYPE;
    ENTITY point; coords : LIST [1:3] OF REAL; ";

const SHAPES: &'static [u8] = b" END_ENTITY;
    ENTITY direction; ratios : LIST [2:3] OF REAL;
    DERIVE dim : INTEGER := HIINDEX(ratios);
    WHERE wr1 : SIZEOF(QUERY(r <* ratios | r <> 0.0)) > 0; END_ENTITY;
    ENTITY placement; location : point; axis : OPTIONAL direction;
    INVERSE notes : SET [0:1] OF note FOR subject;
    WHERE wr1 : axis.dim = SIZEOF(location.coords); END_ENTITY;
    ENTITY item ABSTRACT SUPERTYPE OF (ONEOF (loop, group)); END_ENTITY;
    ENTITY loop SUBTYPE OF (item);
    corners : LIST [3:?] OF UNIQUE point; END_ENTITY;
    ENTITY group SUBTYPE OF (item);
    id : STRING; members : SET [1:?] OF placement;
    UNIQUE ur1 : id; END_ENTITY;
    ENTITY note; words : STRING; subject : placement; END_ENTITY;
    ENTITY shape; label : STRING(8); END_ENTITY;
    ENTITY solid SUBTYPE OF (shape); volume : amount; ";

const MARKS: &'static [u8] = b" END_ENTITY;
    ENTITY marked SUBTYPE OF (shape); look : finish; END_ENTITY;
    ENTITY plain_mark SUBTYPE OF (marked);
    DERIVE SELF\\shape.label : STRING(8) := 'p'; END_ENTITY; ";

const END: &'static [u8] = b" END_SCHEMA;";

const ODD: &'static [u8] = b"SCHEMA s;
    TYPE a = LIST [-9223372036854775808:9223372036854775807] OF STRING (9223372036854775808);
    END_TYPE;
    TYPE b = ARRAY [-9223372036854775809:n] OF SET OF REAL (7); END_TYPE;
    TYPE c = BAG [0:?] OF BINARY (n + 1); END_TYPE;
    ENTITY e SUPERTYPE OF (ONEOF (f, f) AND f);
    INVERSE SELF\\f.i : SET [0:2 * n] OF f FOR x; END_ENTITY;
    ENTITY f SUPERTYPE OF (ONEOF (e, f)); x : e; END_ENTITY;
    FUNCTION g : REAL; RETURN (1.0); END_FUNCTION;
    CONSTANT n : INTEGER := 1; END_CONSTANT;
    END_SCHEMA;";

/// Adds the text of the schema of shapes with these clauses.
pub(crate) fn add_shapes(
    text: &mut Vec<u8>,
    of_point: &[u8],
    of_solid: &[u8],
    at_end: &[u8],
) -> Result<(), AllocError> {
    text.extend_from_slice(TYPES)?;
    text.extend_from_slice(of_point)?;
    text.extend_from_slice(SHAPES)?;
    text.extend_from_slice(of_solid)?;
    text.extend_from_slice(MARKS)?;
    text.extend_from_slice(at_end)?;
    text.extend_from_slice(END)?;
    Ok(())
}

const CASES: &'static [Case] = &[
    // Parts that aren't checked whatever the expressions are, in the order of the text.
    (
        Text::Whole(ODD),
        Question::Declared(&[
            (PartKind::Width, "A", Reason::Profile),
            (PartKind::Bound, "B", Reason::Profile),
            (PartKind::Bound, "B", Reason::Profile),
            (PartKind::Width, "C", Reason::Profile),
            (PartKind::Supertype, "E", Reason::Profile),
            (PartKind::Inverse, "E.I", Reason::Profile),
            (PartKind::Bound, "E.I", Reason::Profile),
            (PartKind::Function, "G", Reason::Skipped),
            (PartKind::Constant, "CONSTANT", Reason::Skipped),
        ]),
    ),
    // The whole schema is checked.
    (Text::Shapes(b"", b"", b""), Question::Listed(&[])),
    // Attributes that use each other, values that aren't compared, an unknown name, and TYPEOF of
    // an entity.
    (
        Text::Shapes(
            b"DERIVE a : REAL := b; b : REAL := a;
 WHERE wr1 : coords = coords; wr2 : nothing > 0; wr3 : 'GEO.AMOUNT' IN TYPEOF(SELF);",
            b"",
            b"",
        ),
        Question::Listed(&[
            (PartKind::Derive, "POINT.A", Reason::Leads),
            (PartKind::Derive, "POINT.B", Reason::Leads),
            (PartKind::Where, "POINT.WR1", Reason::Kind),
            (PartKind::Where, "POINT.WR2", Reason::Name),
            (PartKind::Where, "POINT.WR3", Reason::Typeof),
        ]),
    ),
    // Rules that are checked, and a list that is narrowed.
    (
        Text::Shapes(
            b"",
            b"WHERE wr1 : NOT (label IN ['a','b']) OR EXISTS(volume); wr2 : {0 < volume <= 1.E3};
 wr3 : ('GEO.LEN_M' IN TYPEOF(SELF.volume)) XOR (SELF\\shape.label <> 'x');
 wr4 : NVL(label,'x') = 'x';",
            b"ENTITY short SUBTYPE OF (loop); SELF\\loop.corners : LIST [3:4] OF UNIQUE point; END_ENTITY;",
        ),
        Question::Listed(&[]),
    ),
    // Rules without labels are counted.
    (
        Text::Shapes(
            b"WHERE SIZEOF(coords) > 0; lab : a + b > 0; ['a'] = 'a'; SIZEOF(TYPEOF(SELF)) > 0;",
            b"",
            b"",
        ),
        Question::Listed(&[
            (PartKind::Where, "POINT.LAB", Reason::Profile),
            (PartKind::Where, "POINT.?3", Reason::Profile),
            (PartKind::Where, "POINT.?4", Reason::Typeof),
        ]),
    ),
    // A part that uses an attribute that isn't checked.
    (
        Text::Shapes(
            b"",
            b"DERIVE a : REAL := b + 1; b : REAL := a; WHERE wr1 : label < 'x'; wr2 : b > 0; wr3 : a > 0; wr4 : (volume > 0) AND nothing;",
            b"",
        ),
        Question::Listed(&[
            (PartKind::Derive, "SOLID.A", Reason::Profile),
            (PartKind::Derive, "SOLID.B", Reason::Leads),
            (PartKind::Where, "SOLID.WR1", Reason::Kind),
            (PartKind::Where, "SOLID.WR2", Reason::Leads),
            (PartKind::Where, "SOLID.WR3", Reason::Leads),
            (PartKind::Where, "SOLID.WR4", Reason::Name),
        ]),
    ),
    // Rules of types, and of uniqueness.
    (
        Text::Shapes(
            b"",
            b"",
            b"TYPE size = amount; WHERE wr1 : SELF > 0.0; END_TYPE; TYPE positive = REAL; WHERE wr1 : SELF > 0.0; wr2 : x > 0; END_TYPE;
 ENTITY numbered; n : INTEGER; DERIVE m : INTEGER := n; UNIQUE n; ur2 : n, m; ur3 : nothing; END_ENTITY;",
        ),
        Question::Listed(&[
            (PartKind::Where, "SIZE.WR1", Reason::Profile),
            (PartKind::Where, "POSITIVE.WR2", Reason::Name),
            (PartKind::Unique, "NUMBERED.UR2", Reason::Profile),
            (PartKind::Unique, "NUMBERED.UR3", Reason::Name),
        ]),
    ),
    // A list that becomes a set, and attributes that are narrowed.
    (
        Text::Shapes(
            b"",
            b"",
            b"ENTITY odd SUBTYPE OF (loop); SELF\\loop.corners : SET [3:4] OF point; END_ENTITY;
 ENTITY fits SUBTYPE OF (group); SELF\\group.id : STRING(4); SELF\\group.members : BAG OF placement; END_ENTITY;",
        ),
        Question::Listed(&[(PartKind::Redeclared, "ODD.CORNERS", Reason::Profile)]),
    ),
    // An attribute that only a subtype has, also if an item has the name.
    (
        Text::Shapes(
            b"",
            b"",
            b"ENTITY sign;
 WHERE wr1 : EXISTS(ink); wr2 : ink > 0.0; wr3 : rough < 1; END_ENTITY;
 ENTITY painted SUBTYPE OF (sign); ink : REAL; rough : REAL; END_ENTITY;",
        ),
        Question::Listed(&[]),
    ),
];

// Adds the unchecked parts of a declaration that don't depend on expressions.
fn add_declaration(
    alloc: Global,
    list: &mut Vec<Unchecked>,
    declaration: &Declaration<'_>,
) -> Result<(), AllocError> {
    match declaration {
        Declaration::Type(declared) => {
            add_underlying(alloc, list, Label::Of(declared.name), &declared.underlying)
        }
        Declaration::Entity(entity) => {
            add_supertype(alloc, list, entity.name, &entity.supertype)?;
            add_inverse_clause(alloc, list, entity)
        }
        Declaration::Skipped(skipped) => add_skipped(alloc, list, skipped),
    }
}

fn add_all(
    alloc: Global,
    list: &mut Vec<Unchecked>,
    declarations: &[Declaration<'_>],
) -> Result<(), AllocError> {
    for declaration in declarations {
        add_declaration(alloc, list, declaration)?;
    }
    Ok(())
}

/// Whether these parts are listed, in this order.
pub(crate) fn are_parts(parts: &[Unchecked], wanted: &[Part]) -> bool {
    if parts.len() != wanted.len() {
        return false;
    }
    for i in 0..wanted.len() {
        let (kind, name, reason) = wanted[i];
        if parts[i].kind != kind || parts[i].name.as_str() != name || parts[i].reason != reason {
            return false;
        }
    }
    true
}

/// Whether these are the unchecked parts of declarations that don't depend on expressions.
pub(crate) fn declares(alloc: Global, declarations: &[Declaration<'_>], wanted: &[Part]) -> bool {
    let mut list = Vec::new(alloc);
    add_all(alloc, &mut list, declarations).is_ok() && are_parts(&list, wanted)
}

#[test]
fn parts_are_listed_with_their_reasons(rt: HostRuntime) {
    expect_none(&rt, wrong_case(&rt, rt.alloc(), CASES));
}
