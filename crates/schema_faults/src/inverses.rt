//! The names in inverse attributes (ISO 10303-11, 9.2.1.3).
//!
//! Each `check_` function fails with the first name that doesn't refer to what its context
//! requires.

ghost use Rattle.std.specs.Prelude.{◌∷◌, [], flat_map, map};
ghost use Rattle.graphs.specs.Graphs.{graph_of};
ghost use Rattle.express_syntax.specs.ExpressionViews.{capitals};
ghost use Rattle.express_syntax.specs.Views.{inverse_of};
ghost use Rattle.schema_semantics.specs.Faults.{inverted};
ghost use Rattle.schema_names.specs.Schemas.{the_schema};
ghost use Rattle.schema_faults.specs.steps.Checks.{Checks};
ghost use Rattle.schema_explicit_attributes.specs.Supertypes.{AreAbove};
ghost use Rattle.schema_faults.specs.steps.Clauses.{demands_of_inverted, demands_of_own_inverse};

use crate::kinds::is_inverted;
use crate::names::check_entity;
use express_syntax::tree::{Attribute, Inverse};
use schema_names::names::Names;
use step_literals::literal::Word;

/// Checks that `entity` has the explicit attribute that an inverse attribute inverts
/// (ISO 10303-11, 9.2.1.3).
fn check_inverted<'a>(
    names: &Names<'a, '_>,
    above: &[Vec<u32>],
    entity: Word<'a>,
    name: Word<'a>,
) -> Result<(), Word<'a>>
    requires { AreAbove (the_schema names.now) (graph_of above.now) }
    ensures { Checks (the_schema names.now)
        (inverted (capitals entity.entry) (capitals name.entry) ∷ []) result }
{
    if is_inverted(names, above, entity, name) {
        Ok(())
    } else {
        Err(name)
    }
}

/// Checks the entity that qualifies the name of the inverted attribute, if any, and that attribute
/// (ISO 10303-11, 9.2.1.3).
fn check_holder<'a>(
    names: &Names<'a, '_>,
    above: &[Vec<u32>],
    inverse: &Inverse<'a>,
) -> Result<(), Word<'a>>
    requires { AreAbove (the_schema names.now) (graph_of above.now) }
    ensures { Checks (the_schema names.now) (demands_of_inverted (inverse_of inverse.now)) result }
{
    let Some(holder) = inverse.holder else {
        return check_inverted(names, above, inverse.entity, inverse.inverted);
    };
    check_entity(names, holder)?;
    check_inverted(names, above, holder, inverse.inverted)
}

/// Checks an inverse attribute. There is no requirement on a redeclared one
/// (ISO 10303-11, 9.2.1.3).
fn check_inverse<'a>(
    names: &Names<'a, '_>,
    above: &[Vec<u32>],
    inverse: &Inverse<'a>,
) -> Result<(), Word<'a>>
    requires { AreAbove (the_schema names.now) (graph_of above.now) }
    ensures { Checks (the_schema names.now)
        (demands_of_own_inverse (inverse_of inverse.now)) result }
{
    let Attribute::Unqualified(_) = inverse.attribute else {
        return Ok(());
    };
    check_entity(names, inverse.entity)?;
    check_holder(names, above, inverse)
}

pub(crate) fn check_inverses<'a>(
    names: &Names<'a, '_>,
    above: &[Vec<u32>],
    inverses: &[Inverse<'a>],
) -> Result<(), Word<'a>>
    requires { AreAbove (the_schema names.now) (graph_of above.now) }
    ensures { Checks (the_schema names.now)
        (flat_map demands_of_own_inverse (map inverse_of inverses.now)) result }
{
    for inverse in inverses {
        check_inverse(names, above, inverse)?;
    }
    Ok(())
}
