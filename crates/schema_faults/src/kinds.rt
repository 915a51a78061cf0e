//! Subtypes, and inherited attributes (ISO 10303-11, 9.2.3).

ghost use Rattle.std.specs.Prelude.{◌≡◌};
ghost use Rattle.std.specs.List.{list_any};
ghost use Rattle.graphs.specs.Graphs.{graph_of};
ghost use Rattle.express_syntax.specs.ExpressionViews.{capitals};
ghost use Rattle.express_syntax.specs.Views.{names_of};
ghost use Rattle.schema_names.specs.Schemas.{the_schema};
ghost use Rattle.schema_faults.specs.steps.Kinds.{is_kind, is_inherited, is_inverted};

use crate::inherited_attributes::has;
use schema_explicit_attributes::own_attributes::Meant;
use schema_explicit_attributes::supertypes::is_or_leads;
use schema_names::names::Names;
use step_literals::literal::Word;

/// Whether the entity `name` is `upper` or one of its subtypes.
fn is_kind(names: &Names<'_, '_>, above: &[Vec<u32>], name: Word<'_>, upper: u32) -> bool
    ensures { result ≡ is_kind (the_schema names.now) (graph_of above.now) upper
        (capitals name.entry) }
{
    match names.find(name) {
        Some(lower) => is_or_leads(above, lower, upper),
        None => false,
    }
}

/// Whether one of the entities `lowers` is `upper` or one of its subtypes.
fn any_kind(names: &Names<'_, '_>, above: &[Vec<u32>], lowers: &[Word<'_>], upper: u32) -> bool
    ensures { result ≡ list_any (is_kind (the_schema names.now) (graph_of above.now)
        upper) (names_of lowers.now) }
{
    for lower in lowers {
        if is_kind(names, above, *lower, upper) {
            return true;
        }
    }
    false
}

/// Whether `entity` is one of `supertypes` or a supertype of one, and declares or inherits an
/// attribute `name` (ISO 10303-11, 9.2.3.4).
pub(crate) fn is_inherited(
    names: &Names<'_, '_>,
    above: &[Vec<u32>],
    supertypes: &[Word<'_>],
    entity: Word<'_>,
    name: Word<'_>,
) -> bool
    ensures { result ≡ is_inherited (the_schema names.now) (graph_of above.now)
        (names_of supertypes.now) (capitals entity.entry) (capitals name.entry) }
{
    match names.find(entity) {
        Some(number) => {
            any_kind(names, above, supertypes, number)
                && has(names, above, number, Meant::All, name)
        }
        None => false,
    }
}

/// Whether `entity` declares or inherits an explicit attribute `name` (ISO 10303-11, 9.2.1.3).
pub(crate) fn is_inverted(
    names: &Names<'_, '_>,
    above: &[Vec<u32>],
    entity: Word<'_>,
    name: Word<'_>,
) -> bool
    ensures { result ≡ is_inverted (the_schema names.now) (graph_of above.now)
        (capitals entity.entry) (capitals name.entry) }
{
    match names.find(entity) {
        Some(number) => has(names, above, number, Meant::Explicit, name),
        None => false,
    }
}
