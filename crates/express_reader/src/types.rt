//! Defined types (ISO 10303-11, 8.3, 8.4 and 9.1).

ghost use Rattle.std.specs.Prelude.{◌≡◌, [], ◌∷◌, ◌++◌, List, IfOk};
ghost use Rattle.express_lexer.specs.declared.marks.Mark.TheVariants as marks;
ghost use Rattle.express_syntax.specs.declared.keyword.Keyword.TheVariants as keywords;
ghost use Rattle.express_syntax.specs.Words;
ghost use Rattle.express_syntax.specs.Words.{keyword, mark};
ghost use Rattle.express_syntax.specs.Grammar.{depth_limit};
ghost use Rattle.express_syntax.specs.Views.{type_of, underlying_of, names_of, rules_of, if_some};
ghost use Rattle.express_syntax.specs.WrittenSchemas.{
  words_of_type,
  words_of_underlying,
  words_of_names,
  words_of_clause,
  words_of_rule,
};
ghost use Rattle.express_syntax.specs.Profile.{
  Every,
  FitsType,
  FitsUnderlying,
  FitsRules,
  IsFilled,
  Maybe,
};
ghost use Rattle.express_syntax.specs.Sources.{IsUnderlyingOf, IsRuleOf, IsTypeOf};
ghost use Rattle.express_syntax.specs.steps.Predict;
ghost use Rattle.express_syntax.specs.steps.Predict.{Id, Just, TypeEnd, names_symbols};
ghost use Rattle.express_syntax.specs.steps.Steps.{ParsesWhere, ParsesBehind};

use express_lexer::marks::Mark;
use express_parts::data_types::{Ending, data_type_from};
use express_parts::rules::rules;
use express_syntax::fault::SyntaxFault;
use express_syntax::keyword::Keyword;
use express_syntax::tree::{Rule, TypeDeclaration, Underlying};
use express_token_runs::names::names;
use express_token_runs::reader::Reader;
use express_token_runs::tokens::{is_keyword, refuse};
use step_literals::literal::Word;

/// Reads names in parentheses, and the semicolon after them.
fn last_names<'a>(reader: &mut Reader<'a>) -> Result<Vec<Word<'a>>, SyntaxFault>
    ensures { ParsesWhere result (names_symbols ++ Just marks.Semicolon ∷ [])
        (λ ns. words_of_names (names_of ns.items) ++ mark marks.Semicolon ∷ [])
        (λ ns. IsFilled (names_of ns.items)) reader.old reader.new }
{
    let names = names(reader)?;
    reader.expect(Mark::Semicolon)?;
    Ok(names)
}

/// Reads the underlying type of a defined type, and the semicolon after it.
fn underlying<'a>(reader: &mut Reader<'a>) -> Result<Underlying<'a>, SyntaxFault>
    ensures read { ParsesWhere result (Predict.Underlying ∷ [])
        (λ u. words_of_underlying (underlying_of u) ++ mark marks.Semicolon ∷ [])
        (λ u. FitsUnderlying depth_limit (underlying_of u)) reader.old reader.new }
    ensures text { IfOk result (λ u. IsUnderlyingOf reader.old.text u) }
{
    let first = reader.take()?;
    if is_keyword(first, Keyword::Enumeration) {
        reader.expect_keyword(Keyword::Of)?;
        let items = last_names(reader)?;
        return Ok(Underlying::Enumeration(items));
    }
    if is_keyword(first, Keyword::Select) {
        let types = last_names(reader)?;
        return Ok(Underlying::Select(types));
    }
    let data_type = data_type_from(reader, first, 0, Ending::Semicolon)?;
    Ok(Underlying::DataType(data_type))
}

/// Reads the rules of a defined type, if any, and its end.
fn rules_to_end<'a>(reader: &mut Reader<'a>) -> Result<Option<Vec<Rule<'a>>>, SyntaxFault>
    ensures read { ParsesWhere result (TypeEnd ∷ [])
        (λ o. words_of_clause keywords.Where words_of_rule (if_some (λ rs. rules_of rs.items) o)
        ++ keyword keywords.EndType ∷ mark marks.Semicolon ∷ [])
        (λ o. Maybe (FitsRules depth_limit keywords.EndType) (if_some (λ rs. rules_of rs.items) o))
        reader.old reader.new }
    ensures text { IfOk result
        (λ o. Maybe (λ rs. Every (IsRuleOf reader.old.text) rs.items) o) }
{
    let first = reader.take()?;
    if is_keyword(first, Keyword::Where) {
        let rules = rules(reader, Keyword::EndType)?;
        return Ok(Some(rules));
    }
    if !is_keyword(first, Keyword::EndType) {
        return Err(refuse(first));
    }
    reader.expect(Mark::Semicolon)?;
    Ok(None)
}

/// Reads a defined type, after TYPE.
pub fn type_declaration<'a>(reader: &mut Reader<'a>) -> Result<TypeDeclaration<'a>, SyntaxFault>
    ensures read { ParsesBehind (keyword keywords.Type ∷ []) result
        (Id ∷ Just marks.Equal ∷ Predict.Underlying ∷ TypeEnd ∷ [])
        (λ t. words_of_type (type_of t))
        (λ t. FitsType depth_limit (type_of t)) reader.old reader.new }
    ensures text { IfOk result (λ t. IsTypeOf reader.old.text t) }
{
    let name = reader.expect_name()?;
    reader.expect(Mark::Equal)?;
    let underlying = underlying(reader)?;
    let rules = rules_to_end(reader)?;
    Ok(TypeDeclaration {
        name,
        underlying,
        rules,
    })
}
