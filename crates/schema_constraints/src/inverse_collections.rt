//! The collections of inverse attributes (ISO 10303-11, 9.2.1.3).

ghost use Rattle.std.specs.Prelude.{◌≡◌};
ghost use Rattle.express_syntax.specs.Views.{bound_of, bounds_of, collection_of, if_some};
ghost use Rattle.conformance.specs.Bases.{Domain, lower_bound, upper_bound};
ghost use Rattle.conformance.specs.Rules.{gathering_of};
ghost use Rattle.schema_constraints.specs.RuleViews.{gathering_seen};
ghost use Rattle.schema_constraints.specs.steps.Making.{AreBounds};

use express_syntax::tree::{Bound, Bounds, Collection};

/// The collection of an inverse attribute: a single instance, a SET or a BAG. A bound is `None` if
/// it is absent, indeterminate or unchecked (ISO 10303-11, 9.2.1.3).
#[derive(Clone, Copy, Debug, PartialEq, Eq)]
pub enum Gathering {
    Alone,
    Set {
        lower: Option<i64>,
        upper: Option<i64>,
    },
    Bag {
        lower: Option<i64>,
        upper: Option<i64>,
    },
}

/// Returns the integer value of `bound`, or `None` if it is indeterminate or unchecked.
fn value_of(bound: &Bound<'_>) -> Option<i64>
    ensures { (d : Domain) → AreBounds d → result ≡ d.bound (bound_of bound.now) }
{
    bound.value()
}

/// Returns the lower bound, if any.
fn lower_of(bounds: &Option<Bounds<'_>>) -> Option<i64>
    ensures { (d : Domain) → AreBounds d → result ≡ lower_bound d (if_some bounds_of bounds.now) }
{
    match bounds {
        Some(bounds) => value_of(&bounds.lower),
        None => None,
    }
}

/// Returns the upper bound, if any.
fn upper_of(bounds: &Option<Bounds<'_>>) -> Option<i64>
    ensures { (d : Domain) → AreBounds d → result ≡ upper_bound d (if_some bounds_of bounds.now) }
{
    match bounds {
        Some(bounds) => value_of(&bounds.upper),
        None => None,
    }
}

/// Returns the collection of an inverse attribute.
pub(crate) fn gathering_of(collection: &Collection<'_>) -> Gathering
    ensures { (d : Domain) → AreBounds d
        → gathering_seen result ≡ gathering_of d (collection_of collection.now) }
{
    match collection {
        Collection::One => Gathering::Alone,
        Collection::Set(bounds) => Gathering::Set {
            lower: lower_of(bounds),
            upper: upper_of(bounds),
        },
        Collection::Bag(bounds) => Gathering::Bag {
            lower: lower_of(bounds),
            upper: upper_of(bounds),
        },
    }
}
