//! Which values can be, or can contain, a LIST or ARRAY OF UNIQUE.

ghost use Rattle.std.specs.Prelude.{◌≡◌};
ghost use Rattle.express_syntax.specs.Schemas.{Schema};
ghost use Rattle.conformance.specs.Bases.{Domain, IsDomain};
ghost use Rattle.schema_names.specs.Schemas.{the_schema};
ghost use Rattle.schema_underlying_types.specs.BaseViews.{base_seen};
ghost use Rattle.schema_underlying_types.specs.Tables.{AreBases, IsNumberedBase};
ghost use Rattle.population_pins.specs.steps.Holding.{is_unique, has_parts, may_hold};

use schema_underlying_types::base::Base;
use schema_underlying_types::lookup::Bases;

/// Whether the required data type is an aggregate OF UNIQUE.
pub(crate) fn is_unique(base: Base) -> bool
    ensures { (s : Schema) → result ≡ is_unique (base_seen s base) }
{
    match base {
        Base::Aggregate(aggregate) => aggregate.is_unique,
        _ => false,
    }
}

/// Whether values of the required data type can have parts: those of an aggregate or a SELECT.
fn has_parts(base: Base) -> bool
    ensures { (s : Schema) → result ≡ has_parts (base_seen s base) }
{
    matches!(base, Base::Aggregate(_) | Base::Select(_))
}

/// Whether a value of the required data type can be, or can contain, a LIST or ARRAY OF UNIQUE. If
/// not, no value does. A SET counts as one.
pub(crate) fn may_hold(bases: &Bases<'_, '_, '_>, base: Base) -> bool
    requires bases { AreBases bases.now }
    requires numbered { IsNumberedBase (the_schema bases.now.names.now) base }
    ensures { (d : Domain) → IsDomain (the_schema bases.now.names.now) d
        → result ≡ may_hold d (base_seen (the_schema bases.now.names.now) base) }
{
    match base {
        Base::Select(_) => true,
        Base::Aggregate(aggregate) => {
            aggregate.is_unique || has_parts(bases.of_number(aggregate.element))
        }
        _ => false,
    }
}
