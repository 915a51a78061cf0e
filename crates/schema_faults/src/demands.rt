//! The requirements of a schema on its names.
//!
//! Each `check_` function fails with the first name that doesn't refer to what its context
//! requires.

ghost use Rattle.std.specs.Prelude.{◌≡◌};
ghost use Rattle.graphs.specs.Graphs.{graph_of};
ghost use Rattle.express_syntax.specs.Views.{declaration_of as declaration_seen};
ghost use Rattle.schema_semantics.specs.Faults.{demands_of_declaration, demands};
ghost use Rattle.schema_names.specs.Schemas.{the_schema};
ghost use Rattle.schema_faults.specs.steps.Checks.{Checks};
ghost use Rattle.schema_explicit_attributes.specs.Supertypes.{AreAbove};

use crate::entities::check_entity_declaration;
use crate::types::check_underlying;
use express_syntax::tree::Declaration;
use schema_names::names::Names;
use step_literals::literal::Word;

/// Checks the names in a declaration.
fn check_declaration<'a>(
    names: &Names<'a, '_>,
    above: &[Vec<u32>],
    declaration: &Declaration<'a>,
) -> Result<(), Word<'a>>
    requires { AreAbove (the_schema names.now) (graph_of above.now) }
    ensures { Checks (the_schema names.now)
        (demands_of_declaration (declaration_seen declaration.now)) result }
{
    match declaration {
        Declaration::Type(declared) => check_underlying(names, &declared.underlying),
        Declaration::Entity(entity) => check_entity_declaration(names, above, entity),
        Declaration::Skipped(_) => Ok(()),
    }
}

/// Checks that each name of a schema refers to what its context requires
/// (ISO 10303-11, 8, 9 and 10). `above` has the proper supertypes of each entity.
///
/// # Errors
/// The first name in the text that isn't what it has to be: the name of a type, of an entity, of an
/// inherited attribute or of an inverted one.
pub fn check_demands<'a>(names: &Names<'a, '_>, above: &[Vec<u32>]) -> Result<(), Word<'a>>
    requires { AreAbove (the_schema names.now) (graph_of above.now) }
    ensures { Checks (the_schema names.now) (demands (the_schema names.now)) result }
{
    for declaration in names.declarations() {
        check_declaration(names, above, declaration)?;
    }
    Ok(())
}
