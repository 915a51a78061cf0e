//! The explicit attributes that entities redeclare as derived.

ghost use Rattle.std.specs.Prelude.{◌≡◌, map, IfOk};
ghost use Rattle.std.specs.List.{AllZip};
ghost use Rattle.graphs.specs.Graphs.{graph_of};
ghost use Rattle.express_syntax.specs.Views.{derived_of, declaration_of};
ghost use Rattle.schema_names.specs.Schemas.{the_schema};
ghost use Rattle.schema_redeclarations.specs.steps.Speaking.{AreSources, ArePlacesOf, DerivesOne, AreDerivedIn};

use crate::redeclared_attributes::{add, derived_place};
use crate::uses::Sources;
use express_syntax::tree::{Declaration, Derived};
use std::alloc::{AllocError, Global};

/// Returns the numbers of the explicit attributes that `deriveds` redeclare.
fn derived_places<'a>(
    alloc: Global,
    sources: &Sources<'a, '_, '_>,
    deriveds: &[Derived<'a>],
) -> Result<Vec<u32>, AllocError>
    requires sources { AreSources sources.now }
    ensures { IfOk result (λ places. ArePlacesOf (the_schema sources.now.names.now)
        (DerivesOne (the_schema sources.now.names.now) (map derived_of deriveds.now))
        places.items) }
{
    let mut places = Vec::new(alloc);
    for derived in deriveds {
        add(&mut places, derived_place(sources, derived.attribute))?;
    }
    Ok(places)
}

/// Returns the numbers of the explicit attributes that a declaration redeclares as derived. Empty
/// for anything that isn't an entity.
fn derived_by<'a>(
    alloc: Global,
    sources: &Sources<'a, '_, '_>,
    declaration: &Declaration<'a>,
) -> Result<Vec<u32>, AllocError>
    requires sources { AreSources sources.now }
    ensures { IfOk result (λ places. AreDerivedIn (the_schema sources.now.names.now)
        (declaration_of declaration.now) places.items) }
{
    match declaration {
        Declaration::Entity(entity) => {
            derived_places(alloc, sources, entity.derived_attributes())
        }
        _ => Ok(Vec::new(alloc)),
    }
}

/// Returns by declaration the numbers of the explicit attributes that it redeclares as derived.
pub(crate) fn all_derived(
    alloc: Global,
    sources: &Sources<'_, '_, '_>,
) -> Result<Vec<Vec<u32>>, AllocError>
    requires sources { AreSources sources.now }
    ensures { IfOk result (λ rows. AllZip (AreDerivedIn (the_schema sources.now.names.now))
        (the_schema sources.now.names.now).declarations (graph_of rows.items)) }
{
    let mut rows = Vec::new(alloc);
    for declaration in sources.names.declarations() {
        let row = derived_by(alloc, sources, declaration)?;
        rows.push(row)?;
    }
    Ok(rows)
}
