//! Names that have to be those of types or of entities.
//!
//! Each `check_` function fails with the first name that doesn't refer to what its context
//! requires.

ghost use Rattle.std.specs.Prelude.{◌≡◌, ◌∷◌, [], map, MatchBool};
ghost use Rattle.express_syntax.specs.ExpressionViews.{capitals};
ghost use Rattle.express_syntax.specs.Views.{names_of, declaration_of as declaration_seen};
ghost use Rattle.schema_semantics.specs.Names.{IsEntity};
ghost use Rattle.schema_semantics.specs.Faults.{a_type, an_entity};
ghost use Rattle.schema_names.specs.Schemas.{the_schema};
ghost use Rattle.schema_faults.specs.steps.Checks.{Checks, is_entity};

use express_syntax::tree::Declaration;
use schema_names::names::Names;
use step_literals::literal::Word;

/// Checks that a name is that of a defined type or an entity.
pub(crate) fn check_type<'a>(names: &Names<'a, '_>, word: Word<'a>) -> Result<(), Word<'a>>
    ensures { Checks (the_schema names.now) (a_type (capitals word.entry) ∷ []) result }
{
    match names.find(word) {
        Some(_) => Ok(()),
        None => Err(word),
    }
}

/// Whether `declaration` is an entity.
fn declares_entity(declaration: &Declaration<'_>) -> bool
    ensures { result ≡ is_entity (declaration_seen declaration.now) }
{
    matches!(declaration, Declaration::Entity(_))
}

/// Whether `word` is the name of an entity.
fn is_entity(names: &Names<'_, '_>, word: Word<'_>) -> bool
    ensures { MatchBool result (IsEntity (the_schema names.now) (capitals word.entry))
        (IsEntity (the_schema names.now) (capitals word.entry) → ⊥) }
{
    match names.find(word) {
        Some(number) => declares_entity(names.declaration(number)),
        None => false,
    }
}

/// Checks that a name is that of an entity.
pub(crate) fn check_entity<'a>(names: &Names<'a, '_>, word: Word<'a>) -> Result<(), Word<'a>>
    ensures { Checks (the_schema names.now) (an_entity (capitals word.entry) ∷ []) result }
{
    if is_entity(names, word) {
        Ok(())
    } else {
        Err(word)
    }
}

/// Checks that each name is that of a defined type or an entity.
pub(crate) fn check_types<'a>(names: &Names<'a, '_>, words: &[Word<'a>]) -> Result<(), Word<'a>>
    ensures { Checks (the_schema names.now) (map a_type (names_of words.now)) result }
{
    for word in words {
        check_type(names, *word)?;
    }
    Ok(())
}

/// Checks that each name is that of an entity.
pub(crate) fn check_entities<'a>(names: &Names<'a, '_>, words: &[Word<'a>]) -> Result<(), Word<'a>>
    ensures { Checks (the_schema names.now) (map an_entity (names_of words.now)) result }
{
    for word in words {
        check_entity(names, *word)?;
    }
    Ok(())
}
