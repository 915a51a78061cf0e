//! Data types of a schema that are alike.
ghost use Rattle.std.specs.Prelude.{◌≡◌, ◌<◌, length};
ghost use Rattle.schema_data_types.specs.steps.Alike.{IsTable};
ghost use Rattle.schema_data_types.specs.ShapeTables.{DecidesAlike};

use crate::shapes::{Shape, are_alike};

/// Whether the data types with these numbers are alike (ISO 10303-11, 8), as those of an attribute
/// and of its redeclaration have to be (9.2.3.4).
///
/// `shapes` is the table of the shapes of a schema whose names are resolved. Takes at most one step
/// for each data type.
pub fn are_alike_types(shapes: &[Shape], first: u32, second: u32) -> bool
    requires table { IsTable shapes.now }
    requires first_within { first < length shapes.now }
    requires second_within { second < length shapes.now }
    ensures { DecidesAlike shapes.now first second result }
{
    are_alike(shapes, first, second)
}
