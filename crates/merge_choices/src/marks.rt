//! Marks of the entities that names choose, by the numbers of their declarations.

ghost use Rattle.std.specs.Prelude.{◌≡◌, map, IfOk};
ghost use Rattle.express_syntax.specs.Views.{declaration_of};
ghost use Rattle.express_syntax.specs.SchemaViews.{schema_of};
ghost use Rattle.conformance.specs.Choices.{merge_options};
ghost use Rattle.merge_choices.specs.ChosenEntities.{choice_of, names_of, is_marked, AreChosen, AreOfEntities};

use crate::choice::{Choice, Chosen, Names};
use crate::names::is_named;
use express_syntax::tree::{Declaration, SchemaTree};
use std::alloc::{AllocError, Global};

/// Whether a declaration is an entity with one of these names.
fn is_marked(names: &Names, declaration: &Declaration<'_>) -> bool
    ensures { result ≡ is_marked (names_of names.now) (declaration_of declaration.now) }
{
    match declaration {
        Declaration::Entity(entity) => is_named(names, entity.name.spelling()),
        _ => false,
    }
}

/// Returns for each declaration whether it is an entity with one of these names.
fn marks_of(
    alloc: Global,
    names: &Names,
    declarations: &[Declaration<'_>],
) -> Result<Vec<bool>, AllocError>
    ensures { IfOk result (λ marks. marks.items
        ≡ map (is_marked (names_of names.now)) (map declaration_of declarations.now)) }
{
    let mut marks = Vec::with_capacity(alloc, declarations.len())?;
    for declaration in declarations {
        marks.push(is_marked(names, declaration))?;
    }
    Ok(marks)
}

/// Returns the entities of a schema that a choice names.
pub(crate) fn chosen_of(
    alloc: Global,
    choice: &Choice,
    schema: &SchemaTree<'_>,
) -> Result<Chosen, AllocError>
    ensures { IfOk result (λ c. AreChosen (schema_of schema.now)
        (merge_options (schema_of schema.now) (choice_of choice.now)) c
        × AreOfEntities (schema_of schema.now) c) }
{
    let marks = marks_of(alloc, &choice.names, &schema.declarations)?;
    Ok(Chosen {
        in_sets: choice.in_sets,
        marks,
    })
}
