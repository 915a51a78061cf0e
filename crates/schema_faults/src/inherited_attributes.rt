//! The attributes that an entity declares or inherits (ISO 10303-11, 9.2.3.3).

ghost use Rattle.std.specs.Prelude.{◌≡◌};
ghost use Rattle.std.specs.List.{list_any};
ghost use Rattle.graphs.specs.Graphs.{graph_of};
ghost use Rattle.express_syntax.specs.ExpressionViews.{capitals};
ghost use Rattle.schema_names.specs.Schemas.{the_schema};
ghost use Rattle.schema_explicit_attributes.specs.steps.Owned.{declares_at, has_meant};

use schema_explicit_attributes::own_attributes::{Meant, declares_at};
use schema_names::names::Names;
use step_literals::literal::Word;

/// Whether one of the entities declares an attribute `name` among those that `meant` selects.
fn any_declares(names: &Names<'_, '_>, numbers: &[u32], meant: Meant, name: Word<'_>) -> bool
    ensures { result ≡ list_any (declares_at (the_schema names.now) meant
        (capitals name.entry)) numbers.now }
{
    for number in numbers {
        if declares_at(names, *number, meant, name) {
            return true;
        }
    }
    false
}

/// Whether the entity `number` declares or inherits an attribute `name` among those that `meant`
/// selects.
pub(crate) fn has(
    names: &Names<'_, '_>,
    above: &[Vec<u32>],
    number: u32,
    meant: Meant,
    name: Word<'_>,
) -> bool
    ensures { result ≡ has_meant (the_schema names.now) (graph_of above.now) meant
        (capitals name.entry) number }
{
    if declares_at(names, number, meant, name) {
        return true;
    }
    let Some(uppers) = above.get(number as usize) else {
        return false;
    };
    any_declares(names, uppers, meant, name)
}
