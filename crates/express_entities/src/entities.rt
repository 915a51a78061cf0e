//! Entities (ISO 10303-11, 9.2).

ghost use Rattle.std.specs.Prelude.{◌≡◌, [], ◌∷◌, ◌++◌, List, IfOk, MatchResult};
ghost use Rattle.express_lexer.specs.declared.marks.Mark.TheVariants as marks;
ghost use Rattle.express_syntax.specs.declared.keyword.Keyword.TheVariants as keywords;
ghost use Rattle.express_syntax.specs.Words;
ghost use Rattle.express_syntax.specs.Words.{keyword, mark};
ghost use Rattle.express_syntax.specs.Grammar.{depth_limit};
ghost use Rattle.express_syntax.specs.Views.{if_some, names_of, entity_of};
ghost use Rattle.express_syntax.specs.WrittenSchemas.{words_of_subtype, words_of_entity};
ghost use Rattle.express_syntax.specs.Profile.{Maybe, IsFilled, FitsEntity};
ghost use Rattle.express_syntax.specs.Sources.{IsSupertypeOf, IsEntityOf};
ghost use Rattle.express_syntax.specs.steps.Predict;
ghost use Rattle.express_syntax.specs.steps.Predict.{Id, Super, Sub, explicits};
ghost use Rattle.express_token_runs.specs.steps.Items.{located_of};
ghost use Rattle.express_entities.specs.steps.EntityParts.{FitsHead, words_of_types, words_of_beginning};
ghost use Rattle.express_syntax.specs.steps.Steps.{
  Passes,
  ParsesWhere,
  ParsesFrom,
  ParsesBehind,
  StopsIn,
};

use crate::clauses::read_clauses;
use express_lexer::marks::Mark;
use express_parts::bounds::supertype;
use express_syntax::fault::SyntaxFault;
use express_syntax::keyword::Keyword;
use express_syntax::tree::{Entity, Supertype};
use express_token_runs::names::names;
use express_token_runs::reader::Reader;
use express_token_runs::tokens::{Item, is_keyword, is_mark, refuse};
use step_literals::literal::Word;

/// The part of an entity between its name and its first clause.
#[derive(Drop)]
pub struct Head<'a> {
    pub is_abstract: bool,
    pub supertype: Supertype<'a>,
    pub subtype_of: Option<Vec<Word<'a>>>,
}

/// Reads the SUBTYPE clause, if it begins with this token, and the semicolon.
fn subtype_of<'a>(
    reader: &mut Reader<'a>,
    first: Item<'a>,
) -> Result<Option<Vec<Word<'a>>>, SyntaxFault>
    ensures { ParsesFrom (located_of first.entry) result (Sub ∷ [])
        (λ x. words_of_subtype (if_some (λ names. names_of names.items) x)
        ++ mark marks.Semicolon ∷ [])
        (λ x. Maybe IsFilled (if_some (λ names. names_of names.items) x)) reader.old reader.new }
{
    if is_mark(first, Mark::Semicolon) {
        return Ok(None);
    }
    if !is_keyword(first, Keyword::Subtype) {
        return Err(refuse(first));
    }
    reader.expect_keyword(Keyword::Of)?;
    let entities = names(reader)?;
    reader.expect(Mark::Semicolon)?;
    Ok(Some(entities))
}

/// Reads the SUPERTYPE and SUBTYPE clauses from this token on, and the semicolon.
fn types<'a>(
    reader: &mut Reader<'a>,
    first: Item<'a>,
    is_abstract: bool,
) -> Result<Head<'a>, SyntaxFault>
    ensures read { MatchResult result
        (λ h. (h.is_abstract ≡ is_abstract) × FitsHead h
        × Passes (Super ∷ []) [] (located_of first.entry ∷ []) (words_of_types h) reader.old
        reader.new)
        (λ e. StopsIn e (Super ∷ []) (located_of first.entry ∷ []) reader.old) }
    ensures text { IfOk result (λ h. IsSupertypeOf reader.old.text h.supertype) }
{
    if !is_keyword(first, Keyword::Supertype) {
        let subtype_of = subtype_of(reader, first)?;
        return Ok(Head {
            is_abstract,
            supertype: Supertype::Unsaid,
            subtype_of,
        });
    }
    let second = reader.take()?;
    if !is_keyword(second, Keyword::Of) {
        let subtype_of = subtype_of(reader, second)?;
        return Ok(Head {
            is_abstract,
            supertype: Supertype::Bare,
            subtype_of,
        });
    }
    reader.expect(Mark::Open)?;
    let supertype = supertype(reader)?;
    let behind = reader.take()?;
    let subtype_of = subtype_of(reader, behind)?;
    Ok(Head {
        is_abstract,
        supertype,
        subtype_of,
    })
}

/// Reads the head of an entity, after its name.
fn read_head<'a>(reader: &mut Reader<'a>) -> Result<Head<'a>, SyntaxFault>
    ensures read { ParsesWhere result (Predict.Head ∷ []) words_of_beginning FitsHead reader.old
        reader.new }
    ensures text { IfOk result (λ h. IsSupertypeOf reader.old.text h.supertype) }
{
    let first = reader.take()?;
    if !is_keyword(first, Keyword::Abstract) {
        return types(reader, first, false);
    }
    let second = reader.take()?;
    types(reader, second, true)
}

/// Reads an entity, after ENTITY.
pub fn entity<'a>(reader: &mut Reader<'a>) -> Result<Entity<'a>, SyntaxFault>
    ensures read { ParsesBehind (keyword keywords.Entity ∷ []) result
        (Id ∷ Predict.Head ∷ Predict.Body explicits ∷ [])
        (λ x. words_of_entity (entity_of x))
        (λ x. FitsEntity depth_limit (entity_of x)) reader.old reader.new }
    ensures text { IfOk result (λ x. IsEntityOf reader.old.text x) }
{
    let name = reader.expect_name()?;
    let head = read_head(reader)?;
    let clauses = read_clauses(reader)?;
    Ok(Entity {
        name,
        is_abstract: head.is_abstract,
        supertype: head.supertype,
        subtype_of: head.subtype_of,
        explicits: clauses.explicits,
        derived: clauses.derived,
        inverses: clauses.inverses,
        uniques: clauses.uniques,
        rules: clauses.rules,
    })
}
