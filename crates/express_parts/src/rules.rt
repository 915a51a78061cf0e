//! The expressions of rules and derived attributes (ISO 10303-11, 9.2.1.2 and 9.2.2.2).

ghost use Rattle.std.specs.Prelude.{◌≡◌, [], ◌∷◌, ◌++◌, List, map, false, IfOk, MatchResult};
ghost use Rattle.express_lexer.specs.Reading.{Reading};
ghost use Rattle.express_lexer.specs.declared.marks.Mark.TheVariants as marks;
ghost use Rattle.express_syntax.specs.declared.keyword.Keyword.{Keyword};
ghost use Rattle.express_syntax.specs.Words.{mark, keyword};
ghost use Rattle.express_syntax.specs.Grammar.{depth_limit};
ghost use Rattle.express_token_runs.specs.steps.Items.{located_of, named};
ghost use Rattle.express_syntax.specs.Texts.{Shows};
ghost use Rattle.express_syntax.specs.Views.{body_of, rule_of, rules_of};
ghost use Rattle.express_syntax.specs.WrittenSchemas.{concatenated, words_of_body, words_of_rule};
ghost use Rattle.express_syntax.specs.Profile.{Every, FitsBody, FitsRules};
ghost use Rattle.express_syntax.specs.Sources.{IsBodyOf, IsRuleOf};
ghost use Rattle.express_token_runs.specs.steps.OpenRuns.{IsBegun, more_of};
ghost use Rattle.express_syntax.specs.steps.Predict;
ghost use Rattle.express_syntax.specs.steps.Predict.{Running, in_rule, Rules};
ghost use Rattle.express_syntax.specs.steps.Steps.{ParsesWhere, StopsIn};
ghost use Rattle.express_parts.specs.steps.RuleReading.{BodyRead, RuleRead};

use express_expressions::reader::read_expression;
use express_lexer::lexer::Lexer;
use express_lexer::marks::Mark;
use express_syntax::fault::SyntaxFault;
use express_syntax::keyword::Keyword;
use express_syntax::lexeme::Lexeme;
use express_syntax::tree::{Body, Rule};
use express_token_runs::reader::Reader;
use express_token_runs::runs::{Buffer, Ends, gather};
use express_token_runs::tokens::{Item, is_keyword, is_mark};
use std::alloc::Global;
use step_literals::literal::Word;

/// Reads an expression, or tokens that aren't one, and the semicolon. It begins with the tokens of
/// the buffer, then `first`, which is already taken.
fn gathered_body<'a>(
    alloc: Global,
    lexer: &mut Lexer<'a>,
    first: Item<'a>,
    buffer: &mut Buffer<'a>,
) -> Result<Body<'a>, SyntaxFault>
    requires begun { (mid : Reading) × IsBegun in_rule 0 buffer.old mid
        × Shows mid (located_of first) lexer.old }
    ensures read { MatchResult result
        (λ b. BodyRead buffer.old (located_of first.entry) (body_of b) lexer.old lexer.new)
        (λ e. StopsIn e (more_of in_rule 0 buffer.old ∷ []) (located_of first.entry ∷ [])
        lexer.old) }
    ensures text { IfOk result (λ b. IsBodyOf lexer.old.text b) }
{
    let run = gather(lexer, Ends::Rule, 0, buffer, first)?;
    match read_expression(alloc, &buffer.lexemes, 0)? {
        Some(tree) => Ok(Body::Expression(tree)),
        None => Ok(Body::SetAside(run)),
    }
}

/// Reads an expression, or tokens that aren't one, and the semicolon after it.
pub fn body<'a>(reader: &mut Reader<'a>) -> Result<Body<'a>, SyntaxFault>
    ensures read { ParsesWhere result (Running in_rule 0 [] false ∷ [])
        (λ b. words_of_body (body_of b) ++ mark marks.Semicolon ∷ [])
        (λ b. FitsBody depth_limit (body_of b)) reader.old reader.new }
    ensures text { IfOk result (λ b. IsBodyOf reader.old.text b) }
{
    let first = reader.take()?;
    reader.buffer.clear();
    gathered_body(reader.alloc, &mut reader.lexer, first, &mut reader.buffer)
}

/// Reads the rule that begins with this name, which is its label if a colon follows.
fn named_rule<'a>(
    reader: &mut Reader<'a>,
    word: Word<'a>,
    place: u64,
) -> Result<Rule<'a>, SyntaxFault>
    requires shown { (mid : Reading) × Shows mid (named word place) reader.old }
    ensures read { (end : Keyword) → MatchResult result
        (λ r. RuleRead end (named word.entry place) (rule_of r) reader.old reader.new)
        (λ e. StopsIn e (Rules end ∷ []) (named word.entry place ∷ []) reader.old) }
    ensures text { IfOk result (λ r. IsRuleOf reader.old.text r) }
{
    let to = reader.place();
    let next = reader.take()?;
    if is_mark(next, Mark::Colon) {
        let body = body(reader)?;
        return Ok(Rule {
            label: Some(word),
            body,
        });
    }
    reader.buffer.begin(word, place, to)?;
    let body = gathered_body(reader.alloc, &mut reader.lexer, next, &mut reader.buffer)?;
    Ok(Rule { label: None, body })
}

/// Reads the rule that begins with this token.
fn rule_from<'a>(reader: &mut Reader<'a>, first: Item<'a>) -> Result<Rule<'a>, SyntaxFault>
    requires shown { (mid : Reading) × Shows mid (located_of first) reader.old }
    ensures read { (end : Keyword)
        → Predict.is_keyword end (located_of first.entry).lookahead ≡ false
        → MatchResult result
        (λ r. RuleRead end (located_of first.entry) (rule_of r) reader.old reader.new)
        (λ e. StopsIn e (Rules end ∷ []) (located_of first.entry ∷ []) reader.old) }
    ensures text { IfOk result (λ r. IsRuleOf reader.old.text r) }
{
    if let Lexeme::Name(word) = first.lexeme {
        return named_rule(reader, word, first.place);
    }
    reader.buffer.clear();
    let body = gathered_body(reader.alloc, &mut reader.lexer, first, &mut reader.buffer)?;
    Ok(Rule { label: None, body })
}

/// Reads rules up to the keyword that ends them, and its semicolon.
pub fn rules<'a>(reader: &mut Reader<'a>, end: Keyword) -> Result<Vec<Rule<'a>>, SyntaxFault>
    ensures read { ParsesWhere result (Rules end ∷ [])
        (λ rs. concatenated (map words_of_rule (rules_of rs.items))
        ++ keyword end ∷ mark marks.Semicolon ∷ [])
        (λ rs. FitsRules depth_limit end (rules_of rs.items)) reader.old reader.new }
    ensures text { IfOk result (λ rs. Every (IsRuleOf reader.old.text) rs.items) }
{
    let mut rules = Vec::new(reader.alloc());
    loop {
        let first = reader.take()?;
        if is_keyword(first, end) {
            reader.expect(Mark::Semicolon)?;
            rules.shrink_to_fit();
            return Ok(rules);
        }
        let rule = rule_from(reader, first)?;
        rules.push(rule)?;
    }
}
