//! Shapes of aggregates.

ghost use Rattle.std.specs.Prelude.{◌≡◌};
ghost use Rattle.conformance.specs.Operations.{first_index, kept_shape};
ghost use Rattle.rule_values.specs.TableValues.{shape_seen, coded_shape};

use schema_underlying_types::base::{Aggregate, Base, Collection};

/// The order and the indices of the elements of an aggregate (ISO 10303-11, 8.2).
#[derive(Clone, Copy)]
pub enum Shape<'p> {
    List,
    /// A SET or a BAG.
    Bag,
    /// An ARRAY of this type.
    Array(&'p Aggregate),
}

impl<'p> Shape<'p> {
    /// Returns the shape of the result of a QUERY. That of an ARRAY is a LIST (ISO 10303-11,
    /// 12.6.7).
    pub(crate) fn kept(self) -> Shape<'p>
        ensures { shape_seen result ≡ kept_shape (shape_seen self.entry) }
    {
        match self {
            Shape::List => Shape::List,
            Shape::Bag => Shape::Bag,
            Shape::Array(_) => Shape::List,
        }
    }

    /// Returns the index of the first element: the declared one of an ARRAY, if any, otherwise 1
    /// (ISO 10303-11, 15.17).
    pub(crate) fn first_index(self) -> Option<i64>
        ensures { result ≡ first_index (shape_seen self.entry) }
    {
        match self {
            Shape::List => Some(1),
            Shape::Bag => Some(1),
            Shape::Array(aggregate) => aggregate.lower,
        }
    }
}

/// Returns the shape of values with an order, whose type is `base`.
pub(crate) fn shape_of(base: &Base) -> Shape<'_>
    ensures { shape_seen result ≡ coded_shape base.now }
{
    let Base::Aggregate(aggregate) = base else {
        return Shape::List;
    };
    match aggregate.collection {
        Collection::Array => Shape::Array(aggregate),
        Collection::List | Collection::Bag | Collection::Set => Shape::List,
    }
}
