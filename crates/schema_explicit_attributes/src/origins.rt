//! The entity that declares an attribute to which a schema refers.

ghost use Rattle.std.specs.Prelude.{◌≡◌, ℕ, ◌<◌, length};
ghost use Rattle.std.specs.List.{find};
ghost use Rattle.graphs.specs.Graphs.{graph_of};
ghost use Rattle.express_syntax.specs.ExpressionViews.{capitals};
ghost use Rattle.schema_semantics.specs.Names.{Name, IsEntity, DeclaresExplicit};
ghost use Rattle.schema_semantics.specs.Attributes.{IsNearest, IsOrigin};
ghost use Rattle.schema_names.specs.Numbers.{HasNumber};
ghost use Rattle.schema_names.specs.Schemas.{the_schema};
ghost use Rattle.schema_explicit_attributes.specs.SupertypeLines.{HaveLines};
ghost use Rattle.schema_explicit_attributes.specs.steps.Owned.{declares_at};
ghost use Rattle.schema_explicit_attributes.specs.steps.Origins.{IsNumberOf};

use crate::own_attributes::{Meant, declares_at};
use schema_names::names::Names;
use step_literals::literal::Word;

/// Returns the first entity of `line` that declares an attribute `name`.
fn nearest(names: &Names<'_, '_>, line: &[u32], meant: Meant, name: Word<'_>) -> Option<u32>
    ensures { result ≡ find
        (declares_at (the_schema names.now) meant (capitals name.entry)) line.now }
{
    for number in line {
        if declares_at(names, *number, meant, name) {
            return Some(*number);
        }
    }
    None
}

/// Returns the number of the entity that declares the attribute to which `SELF\entity.attribute`
/// refers (ISO 10303-11, 9.2.3.4).
///
/// That entity is the first in the supertype chain of `entity` that declares an explicit, derived
/// or inverse attribute of this name. `None` if none does. Takes time proportional to the length of
/// the chain.
pub fn origin(
    names: &Names<'_, '_>,
    lines: &[Vec<u32>],
    entity: u32,
    attribute: Word<'_>,
) -> Option<u32>
    requires lines { HaveLines (the_schema names.now) (graph_of lines.now) }
    requires within { entity < length lines.now }
    ensures { (q : Name) → IsEntity (the_schema names.now) q
        → HasNumber (the_schema names.now) q entity
        → IsNumberOf (the_schema names.now)
        (IsOrigin (the_schema names.now) q (capitals attribute.entry)) result }
{
    nearest(names, &lines[entity as usize], Meant::All, attribute)
}

/// Returns the number of the entity that declares the explicit attribute which an inverse attribute
/// inverts (ISO 10303-11, 9.2.1.3).
///
/// `entity` and `attribute` are those of its FOR clause. The result is the first entity in the
/// supertype chain of `entity` that declares an explicit attribute of this name, or `None` if none
/// does. Takes time proportional to the length of the chain.
pub fn inverted(
    names: &Names<'_, '_>,
    lines: &[Vec<u32>],
    entity: u32,
    attribute: Word<'_>,
) -> Option<u32>
    requires lines { HaveLines (the_schema names.now) (graph_of lines.now) }
    requires within { entity < length lines.now }
    ensures { (q : Name) → IsEntity (the_schema names.now) q
        → HasNumber (the_schema names.now) q entity
        → IsNumberOf (the_schema names.now) (IsNearest (the_schema names.now)
        (λ (n : Name). DeclaresExplicit (the_schema names.now) n
        (capitals attribute.entry)) q) result }
{
    nearest(names, &lines[entity as usize], Meant::Explicit, attribute)
}
