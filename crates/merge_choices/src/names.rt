//! Names and presets, regardless of case: which entities they choose, and which are unknown.

ghost use Rattle.std.specs.Prelude.{◌≡◌, ◌||◌, map, find, is_some, not, bytes_eq, string_bytes};
ghost use Rattle.std.specs.List.{list_any};
ghost use Rattle.step_literals.specs.Words.{upper};
ghost use Rattle.express_syntax.specs.Views.{if_some, declaration_of};
ghost use Rattle.express_syntax.specs.SchemaViews.{schema_of};
ghost use Rattle.express_syntax.specs.declared.fault.NameFault.TheVariants.{UnknownName};
ghost use Rattle.conformance.specs.ParameterFits.{is_listed, is_entity};
ghost use Rattle.conformance.specs.Choices.{preset, unknown_name};
ghost use Rattle.conformance.specs.Presets.{usual_names, style_names, geometry_names};
ghost use Rattle.schema_types.specs.Resolution.{IsSaid};
ghost use Rattle.merge_choices.specs.ChosenEntities.{
  chosen_by,
  has_name,
  in_capitals,
  is_chosen_name,
  is_preset,
  names_of,
};

use crate::choice::Names;
use express_syntax::fault::{NameFault, SchemaFault};
use express_syntax::tree::{Declaration, SchemaTree};
use std::alloc::Global;

/// Points, directions and placements of published schemas.
const USUAL: &'static [&'static [u8]] = &[
    b"CARTESIAN_POINT",
    b"DIRECTION",
    b"VECTOR",
    b"AXIS1_PLACEMENT",
    b"AXIS2_PLACEMENT_2D",
    b"AXIS2_PLACEMENT_3D",
    b"IFCCARTESIANPOINT",
    b"IFCDIRECTION",
    b"IFCVECTOR",
    b"IFCAXIS1PLACEMENT",
    b"IFCAXIS2PLACEMENT2D",
    b"IFCAXIS2PLACEMENT3D",
];

/// Colours and styles of published schemas.
const STYLES: &'static [&'static [u8]] = &[
    b"PRESENTATION_STYLE_ASSIGNMENT",
    b"SURFACE_STYLE_USAGE",
    b"SURFACE_SIDE_STYLE",
    b"SURFACE_STYLE_FILL_AREA",
    b"SURFACE_STYLE_BOUNDARY",
    b"SURFACE_STYLE_SILHOUETTE",
    b"SURFACE_STYLE_SEGMENTATION_CURVE",
    b"SURFACE_STYLE_CONTROL_GRID",
    b"SURFACE_STYLE_PARAMETER_LINE",
    b"SURFACE_STYLE_RENDERING",
    b"SURFACE_STYLE_RENDERING_WITH_PROPERTIES",
    b"SURFACE_STYLE_REFLECTANCE_AMBIENT",
    b"SURFACE_STYLE_TRANSPARENT",
    b"FILL_AREA_STYLE",
    b"FILL_AREA_STYLE_COLOUR",
    b"FILL_AREA_STYLE_HATCHING",
    b"COLOUR",
    b"COLOUR_RGB",
    b"COLOUR_SPECIFICATION",
    b"PRE_DEFINED_COLOUR",
    b"DRAUGHTING_PRE_DEFINED_COLOUR",
    b"CURVE_STYLE",
    b"CURVE_STYLE_FONT",
    b"CURVE_STYLE_FONT_PATTERN",
    b"PRE_DEFINED_CURVE_FONT",
    b"DRAUGHTING_PRE_DEFINED_CURVE_FONT",
    b"POINT_STYLE",
    b"TEXT_STYLE",
    b"TEXT_STYLE_FOR_DEFINED_FONT",
    b"PRE_DEFINED_MARKER",
    b"IFCPRESENTATIONSTYLEASSIGNMENT",
    b"IFCSURFACESTYLE",
    b"IFCSURFACESTYLESHADING",
    b"IFCSURFACESTYLERENDERING",
    b"IFCSURFACESTYLELIGHTING",
    b"IFCSURFACESTYLEREFRACTION",
    b"IFCSURFACESTYLEWITHTEXTURES",
    b"IFCCOLOURRGB",
    b"IFCCURVESTYLE",
    b"IFCCURVESTYLEFONT",
    b"IFCCURVESTYLEFONTANDSCALING",
    b"IFCCURVESTYLEFONTPATTERN",
    b"IFCFILLAREASTYLE",
    b"IFCFILLAREASTYLEHATCHING",
    b"IFCTEXTSTYLE",
    b"IFCTEXTSTYLEFORDEFINEDFONT",
    b"IFCTEXTSTYLEFONTMODEL",
    b"IFCTEXTSTYLETEXTMODEL",
    b"IFCDRAUGHTINGPREDEFINEDCOLOUR",
    b"IFCDRAUGHTINGPREDEFINEDCURVEFONT",
    b"IFCPLANAREXTENT",
];

/// Curves and surfaces of published schemas.
const GEOMETRY: &'static [&'static [u8]] = &[
    b"LINE",
    b"CIRCLE",
    b"ELLIPSE",
    b"HYPERBOLA",
    b"PARABOLA",
    b"POLYLINE",
    b"BEZIER_CURVE",
    b"UNIFORM_CURVE",
    b"QUASI_UNIFORM_CURVE",
    b"B_SPLINE_CURVE",
    b"B_SPLINE_CURVE_WITH_KNOTS",
    b"RATIONAL_B_SPLINE_CURVE",
    b"TRIMMED_CURVE",
    b"COMPOSITE_CURVE",
    b"COMPOSITE_CURVE_SEGMENT",
    b"OFFSET_CURVE_2D",
    b"OFFSET_CURVE_3D",
    b"PLANE",
    b"CYLINDRICAL_SURFACE",
    b"CONICAL_SURFACE",
    b"SPHERICAL_SURFACE",
    b"TOROIDAL_SURFACE",
    b"DEGENERATE_TOROIDAL_SURFACE",
    b"SURFACE_OF_LINEAR_EXTRUSION",
    b"SURFACE_OF_REVOLUTION",
    b"BEZIER_SURFACE",
    b"UNIFORM_SURFACE",
    b"QUASI_UNIFORM_SURFACE",
    b"B_SPLINE_SURFACE",
    b"B_SPLINE_SURFACE_WITH_KNOTS",
    b"RATIONAL_B_SPLINE_SURFACE",
    b"RECTANGULAR_TRIMMED_SURFACE",
    b"OFFSET_SURFACE",
    b"IFCLINE",
    b"IFCCIRCLE",
    b"IFCELLIPSE",
    b"IFCPOLYLINE",
    b"IFCTRIMMEDCURVE",
    b"IFCCOMPOSITECURVE",
    b"IFCCOMPOSITECURVESEGMENT",
    b"IFCBSPLINECURVEWITHKNOTS",
    b"IFCRATIONALBSPLINECURVEWITHKNOTS",
    b"IFCINDEXEDPOLYCURVE",
    b"IFCCARTESIANPOINTLIST2D",
    b"IFCCARTESIANPOINTLIST3D",
    b"IFCPLANE",
    b"IFCCYLINDRICALSURFACE",
    b"IFCSPHERICALSURFACE",
    b"IFCTOROIDALSURFACE",
    b"IFCSURFACEOFLINEAREXTRUSION",
    b"IFCSURFACEOFREVOLUTION",
    b"IFCBSPLINESURFACEWITHKNOTS",
    b"IFCRATIONALBSPLINESURFACEWITHKNOTS",
    b"IFCRECTANGULARTRIMMEDSURFACE",
];

/// Whether two names are equal, regardless of case.
fn is_same(name: &[u8], other: &[u8]) -> bool
    ensures { result ≡ bytes_eq (upper name.now) (upper other.now) }
{
    name.eq_ignore_ascii_case(other)
}

/// Whether a name is a usual one.
fn is_usual(name: &[u8]) -> bool
    ensures { result ≡ is_listed (upper name.now) usual_names }
{
    USUAL.iter().any(|usual| is_same(name, usual))
}

/// Whether a name is that of a colour or style in published schemas.
fn is_style(name: &[u8]) -> bool
    ensures { result ≡ is_listed (upper name.now) style_names }
{
    STYLES.iter().any(|style| is_same(name, style))
}

/// Whether a name is that of a curve or surface in published schemas.
fn is_geometry(name: &[u8]) -> bool
    ensures { result ≡ is_listed (upper name.now) geometry_names }
{
    GEOMETRY.iter().any(|shape| is_same(name, shape))
}

/// Whether a given word, a preset or a name, chooses the entity with this name.
fn chosen_by(name: &[u8], word: &[u8]) -> bool
    ensures { result ≡ chosen_by (upper name.now) (upper word.now) }
{
    if is_same(word, b"@POINTS") {
        return is_usual(name);
    }
    if is_same(word, b"@STYLES") {
        return is_style(name);
    }
    if is_same(word, b"@GEOMETRY") {
        return is_usual(name) || is_geometry(name);
    }
    if is_same(word, b"@ALL") {
        return true;
    }
    is_same(name, word)
}

/// Whether one of the given words chooses the entity with this name.
fn is_given(name: &[u8], given: &[String]) -> bool
    ensures { result
        ≡ list_any (chosen_by (upper name.now)) (map upper (map string_bytes given.now)) }
{
    given.iter().any(|word| chosen_by(name, word.as_bytes()))
}

/// Whether these names choose the entity with this name.
pub(crate) fn is_named(names: &Names, name: &[u8]) -> bool
    ensures { result ≡ is_chosen_name (names_of names.now) (upper name.now) }
{
    match names {
        Names::Usual => is_usual(name),
        Names::Given(given) => is_given(name, given),
    }
}

/// Whether a given word is a preset.
fn is_preset(word: &[u8]) -> bool
    ensures { result ≡ is_preset (upper word.now) }
{
    is_same(word, b"@POINTS")
        || is_same(word, b"@STYLES")
        || is_same(word, b"@GEOMETRY")
        || is_same(word, b"@ALL")
}

/// Whether a declaration is an entity of this name.
fn has_name(declaration: &Declaration<'_>, name: &[u8]) -> bool
    ensures { result ≡ has_name (upper name.now) (declaration_of declaration.now) }
{
    match declaration {
        Declaration::Entity(entity) => is_same(name, entity.name.spelling()),
        _ => false,
    }
}

/// Whether a schema has an entity of this name.
fn is_entity(schema: &SchemaTree<'_>, name: &[u8]) -> bool
    ensures { result ≡ is_entity (schema_of schema.now) (upper name.now) }
{
    schema
        .declarations
        .iter()
        .any(|declaration| has_name(declaration, name))
}

/// Whether a given word is a preset or the name of an entity of a schema.
fn is_known(schema: &SchemaTree<'_>, word: &[u8]) -> bool
    ensures { result ≡ (is_preset (upper word.now)
        || is_entity (schema_of schema.now) (upper word.now)) }
{
    is_preset(word) || is_entity(schema, word)
}

/// Returns the first of these words that is neither a preset nor an entity of a schema, if any.
fn find_unknown<'n>(given: &'n [String], schema: &SchemaTree<'_>) -> Option<&'n String>
    ensures { if_some (λ name. in_capitals name.now) result
        ≡ find (λ n. not (is_preset n || is_entity (schema_of schema.now) n))
        (map upper (map string_bytes given.now)) }
{
    for name in given {
        if !is_known(schema, name.as_bytes()) {
            return Some(name);
        }
    }
    None
}

/// Returns the first of these words that neither chooses a preset of a schema nor is an entity of it,
/// if any.
fn first_unknown<'n>(given: &'n [String], schema: &SchemaTree<'_>) -> Option<&'n String>
    ensures { if_some (λ name. in_capitals name.now) result ≡ find
        (λ n. not (is_some (preset (schema_of schema.now) n) || is_entity (schema_of schema.now) n))
        (map upper (map string_bytes given.now)) }
{
    find_unknown(given, schema)
}

/// Returns the first given word that is neither a preset nor an entity of a schema, if any.
pub(crate) fn unknown_name<'n>(names: &'n Names, schema: &SchemaTree<'_>) -> Option<&'n String>
    ensures { if_some (λ name. in_capitals name.now) result
        ≡ unknown_name (schema_of schema.now) (names_of names.now) }
{
    match names {
        Names::Usual => None,
        Names::Given(given) => first_unknown(given, schema),
    }
}

/// Returns the fault that a name is unknown, or `Memory` if memory runs out.
pub(crate) fn unknown_fault(alloc: Global, name: &String) -> SchemaFault
    ensures { IsSaid UnknownName (in_capitals name.now) result }
{
    match name.as_str().to_ascii_uppercase(alloc) {
        Ok(name) => SchemaFault::Name {
            kind: NameFault::UnknownName,
            name,
        },
        Err(_) => SchemaFault::Memory,
    }
}
