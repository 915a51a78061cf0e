//! The parts of declarations that are unchecked whatever their expressions are (ISO 10303-11, 9).

ghost use Rattle.std.specs.Prelude.{◌≡◌, ◌∷◌, [], OnOk, map};
ghost use Rattle.express_syntax.specs.ExpressionViews.{capitals};
ghost use Rattle.express_syntax.specs.Views.{
  attribute_of,
  entity_of,
  inverse_of,
  skipped_of,
  supertype_of,
};
ghost use Rattle.schema_semantics.specs.Names.{listed};
ghost use Rattle.schema_semantics.specs.Parts.{
  for_each,
  part_of_skipped,
  parts_of_inverse,
  parts_of_redeclared_inverse,
  parts_of_supertype,
};
ghost use Rattle.schema_unchecked_declarations.specs.UncheckedLists.{Adds, label_name, unchecked_in};

use crate::limits::add_collection;
use crate::list::{Label, Unchecked, add_part, attribute_label};
use express_syntax::tree::{Attribute, Entity, Inverse, Skipped, Supertype};
use schema_semantics::unchecked::{PartKind, Reason};
use std::alloc::{AllocError, Global};
use step_literals::literal::Word;

/// Adds the SUPERTYPE clause of an entity if its expression is neither one entity nor ONEOF a list
/// of entities (ISO 10303-11, 9.2.5).
pub fn add_supertype(
    alloc: Global,
    list: &mut Vec<Unchecked>,
    entity: Word<'_>,
    supertype: &Supertype<'_>,
) -> Result<(), AllocError>
    ensures { OnOk result (Adds
        (parts_of_supertype (capitals entity.entry) (supertype_of supertype.now))
        (unchecked_in list.old.items) (unchecked_in list.new.items)) }
{
    match supertype {
        Supertype::OfOther(_) => {
            let label = Label::Of(entity);
            add_part(alloc, list, PartKind::Supertype, label, Reason::Profile)
        }
        Supertype::Unsaid | Supertype::Bare => Ok(()),
        Supertype::OfOne(_) | Supertype::OfOneOf(_) => Ok(()),
    }
}

/// Adds an inverse attribute if it is a redeclaration (ISO 10303-11, 9.2.1.3 and 9.2.3.4).
fn add_redeclared_inverse(
    alloc: Global,
    list: &mut Vec<Unchecked>,
    holder: Word<'_>,
    attribute: &Attribute<'_>,
) -> Result<(), AllocError>
    ensures { OnOk result (Adds
        (parts_of_redeclared_inverse (capitals holder.entry) (attribute_of attribute.now))
        (unchecked_in list.old.items) (unchecked_in list.new.items)) }
{
    match *attribute {
        Attribute::Unqualified(_) => Ok(()),
        Attribute::Redeclared(_, name) => {
            let label = Label::Dotted(holder, name);
            add_part(alloc, list, PartKind::Inverse, label, Reason::Profile)
        }
    }
}

/// Adds an inverse attribute if it is a redeclaration, then its unchecked bounds
/// (ISO 10303-11, 9.2.1.3).
fn add_inverse(
    alloc: Global,
    list: &mut Vec<Unchecked>,
    holder: Word<'_>,
    inverse: &Inverse<'_>,
) -> Result<(), AllocError>
    ensures { OnOk result (Adds
        (parts_of_inverse (capitals holder.entry) (inverse_of inverse.now))
        (unchecked_in list.old.items) (unchecked_in list.new.items)) }
{
    add_redeclared_inverse(alloc, list, holder, &inverse.attribute)?;
    let label = attribute_label(holder, &inverse.attribute);
    add_collection(alloc, list, label, &inverse.collection)
}

/// Adds the unchecked parts of `inverses`.
fn add_inverses(
    alloc: Global,
    list: &mut Vec<Unchecked>,
    holder: Word<'_>,
    inverses: &[Inverse<'_>],
) -> Result<(), AllocError>
    ensures { OnOk result (Adds
        (for_each (parts_of_inverse (capitals holder.entry)) (map inverse_of inverses.now))
        (unchecked_in list.old.items) (unchecked_in list.new.items)) }
{
    for inverse in inverses {
        add_inverse(alloc, list, holder, inverse)?;
    }
    Ok(())
}

/// Adds the unchecked parts of an entity's inverse attributes, in the order of the text
/// (ISO 10303-11, 9.2.1.3).
pub fn add_inverse_clause(
    alloc: Global,
    list: &mut Vec<Unchecked>,
    entity: &Entity<'_>,
) -> Result<(), AllocError>
    ensures { OnOk result (Adds
        (for_each (parts_of_inverse (entity_of entity.now).name)
        (listed (entity_of entity.now).inverses))
        (unchecked_in list.old.items) (unchecked_in list.new.items)) }
{
    add_inverses(alloc, list, entity.name, entity.inverse_attributes())
}

/// Returns the kind and the name of a skipped declaration (ISO 10303-11, 9.4 to 9.7).
fn skipped_part<'a>(skipped: &Skipped<'a>) -> (PartKind, Label<'a>)
    ensures kind { result.0 ≡ (part_of_skipped (skipped_of skipped.now)).kind }
    ensures name { label_name result.1 ≡ (part_of_skipped (skipped_of skipped.now)).name }
{
    match *skipped {
        Skipped::Function(name, _) => (PartKind::Function, Label::Of(name)),
        Skipped::Procedure(name, _) => (PartKind::Procedure, Label::Of(name)),
        Skipped::Rule(name, _) => (PartKind::Rule, Label::Of(name)),
        Skipped::Constants(_) => (PartKind::Constant, Label::Constants),
        Skipped::SubtypeConstraint(name, _) => (PartKind::SubtypeConstraint, Label::Of(name)),
    }
}

/// Adds a skipped declaration (ISO 10303-11, 9.4 to 9.7).
pub fn add_skipped(
    alloc: Global,
    list: &mut Vec<Unchecked>,
    skipped: &Skipped<'_>,
) -> Result<(), AllocError>
    ensures { OnOk result (Adds (part_of_skipped (skipped_of skipped.now) ∷ [])
        (unchecked_in list.old.items) (unchecked_in list.new.items)) }
{
    let (kind, label) = skipped_part(skipped);
    add_part(alloc, list, kind, label, Reason::Skipped)
}
