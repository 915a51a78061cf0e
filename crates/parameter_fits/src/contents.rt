//! The data types of what is inside a typed parameter or a list.

ghost use Rattle.std.specs.Prelude.{◌≡◌, IfSome};
ghost use Rattle.std.specs.Option.{option_map};
ghost use Rattle.step_literals.specs.Words.{upper};
ghost use Rattle.express_syntax.specs.Schemas.{Schema};
ghost use Rattle.conformance.specs.Bases.{Domain, IsDomain};
ghost use Rattle.conformance.specs.ParameterFits.{inner, element};
ghost use Rattle.schema_names.specs.Schemas.{the_schema};
ghost use Rattle.schema_underlying_types.specs.BaseViews.{base_seen};
ghost use Rattle.schema_underlying_types.specs.Tables.{AreBases, IsNumberedBase};
ghost use Rattle.parameter_fits.specs.steps.Gathering.{makes_bag};

use schema_underlying_types::base::{Base, Collection};
use schema_underlying_types::lookup::Bases;
use step_literals::literal::Word;

/// Returns the underlying type of the parameter inside a typed parameter with the keyword `word`.
/// Returns `None` if `base` isn't a SELECT with a defined type of that name among its items.
pub fn item(bases: &Bases<'_, '_, '_>, base: Base, word: Word<'_>) -> Option<Base>
    requires bases { AreBases bases.now }
    requires numbered { IsNumberedBase (the_schema bases.now.names.now) base }
    ensures numbered { IfSome result (IsNumberedBase (the_schema bases.now.names.now)) }
    ensures says { (d : Domain) → IsDomain (the_schema bases.now.names.now) d
        → option_map (base_seen (the_schema bases.now.names.now)) result
        ≡ inner (the_schema bases.now.names.now) d (base_seen (the_schema bases.now.names.now) base)
        (upper word.entry.text.now) }
{
    match base {
        Base::Select(number) => bases.item(number, word),
        _ => None,
    }
}

/// Returns the underlying type of the elements if `base` is an aggregate, otherwise `base` itself.
pub fn element(bases: &Bases<'_, '_, '_>, base: Base) -> Base
    requires bases { AreBases bases.now }
    requires numbered { IsNumberedBase (the_schema bases.now.names.now) base }
    ensures numbered { IsNumberedBase (the_schema bases.now.names.now) result }
    ensures says { (d : Domain) → IsDomain (the_schema bases.now.names.now) d
        → base_seen (the_schema bases.now.names.now) result
        ≡ element (the_schema bases.now.names.now) d
        (base_seen (the_schema bases.now.names.now) base) }
{
    match base {
        Base::Aggregate(aggregate) => bases.of_number(aggregate.element),
        _ => base,
    }
}

/// Whether `base` is a BAG or a SET, whose elements have no order (ISO 10303-11, 8.2.3 and 8.2.4).
pub fn has_no_order(base: Base) -> bool
    ensures { (s : Schema) → result ≡ makes_bag (base_seen s base) }
{
    match base {
        Base::Aggregate(aggregate) => {
            matches!(aggregate.collection, Collection::Bag | Collection::Set)
        }
        _ => false,
    }
}
