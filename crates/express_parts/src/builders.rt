//! Data types built from their parts.

ghost use Rattle.std.specs.Prelude.{◌≡◌, ℕ, List};
ghost use Rattle.express_syntax.specs.Schemas;
ghost use Rattle.express_syntax.specs.Views.{data_type_of, width_of, bounds_of, if_some};
ghost use Rattle.express_syntax.specs.Profile.{Maybe};
ghost use Rattle.express_syntax.specs.Sources.{IsBoundsOf, IsWidthOf, IsDataTypeOf};

use express_syntax::tree::{Bounds, DataType, Width};

/// Builds a REAL, with its precision, if any.
pub fn real(width: Option<Box<Width<'_>>>) -> DataType<'_>
    ensures data_type { data_type_of result
        ≡ Schemas.real (if_some (λ b. width_of b.value) width.entry) }
    ensures text { (text : List ℕ) → Maybe (λ b. IsWidthOf text b.value) width.entry
        → IsDataTypeOf text result }
{
    DataType::Real(width)
}

/// Builds an array of these elements.
pub fn array<'a>(
    is_optional: bool,
    is_unique: bool,
    bounds: Box<Bounds<'a>>,
    element: Box<DataType<'a>>,
) -> DataType<'a>
    ensures data_type { data_type_of result
        ≡ Schemas.array (bounds_of bounds.entry.value) is_optional is_unique
        (data_type_of element.entry.value) }
    ensures text { (text : List ℕ) → IsBoundsOf text bounds.entry.value
        → IsDataTypeOf text element.entry.value → IsDataTypeOf text result }
{
    DataType::Array {
        is_optional,
        is_unique,
        bounds,
        element,
    }
}

/// Builds a list of these elements.
pub fn list<'a>(
    is_unique: bool,
    bounds: Box<Option<Bounds<'a>>>,
    element: Box<DataType<'a>>,
) -> DataType<'a>
    ensures data_type { data_type_of result
        ≡ Schemas.list (if_some bounds_of bounds.entry.value) is_unique
        (data_type_of element.entry.value) }
    ensures text { (text : List ℕ) → Maybe (IsBoundsOf text) bounds.entry.value
        → IsDataTypeOf text element.entry.value → IsDataTypeOf text result }
{
    DataType::List {
        is_unique,
        bounds,
        element,
    }
}

/// Builds a bag of these elements.
pub fn bag<'a>(bounds: Box<Option<Bounds<'a>>>, element: Box<DataType<'a>>) -> DataType<'a>
    ensures data_type { data_type_of result
        ≡ Schemas.bag (if_some bounds_of bounds.entry.value) (data_type_of element.entry.value) }
    ensures text { (text : List ℕ) → Maybe (IsBoundsOf text) bounds.entry.value
        → IsDataTypeOf text element.entry.value → IsDataTypeOf text result }
{
    DataType::Bag { bounds, element }
}

/// Builds a set of these elements.
pub fn set<'a>(bounds: Box<Option<Bounds<'a>>>, element: Box<DataType<'a>>) -> DataType<'a>
    ensures data_type { data_type_of result
        ≡ Schemas.set (if_some bounds_of bounds.entry.value) (data_type_of element.entry.value) }
    ensures text { (text : List ℕ) → Maybe (IsBoundsOf text) bounds.entry.value
        → IsDataTypeOf text element.entry.value → IsDataTypeOf text result }
{
    DataType::Set { bounds, element }
}
