//! The clauses of an entity (ISO 10303-11, 9.2.1 and 9.2.2).

ghost use Rattle.std.specs.Prelude.{
  ◌≡◌,
  [],
  ◌∷◌,
  ◌++◌,
  List,
  map,
  true,
  IfOk,
  MatchOption,
  MatchResult,
  Err,
};
ghost use Rattle.express_lexer.specs.declared.marks.Mark.TheVariants as marks;
ghost use Rattle.express_syntax.specs.declared.keyword.Keyword.TheVariants as keywords;
ghost use Rattle.express_syntax.specs.Words.{Word, keyword, mark};
ghost use Rattle.express_syntax.specs.Grammar.{depth_limit};
ghost use Rattle.express_syntax.specs.Texts.{token};
ghost use Rattle.express_syntax.specs.Views.{
  if_some,
  attribute_of,
  explicit_of,
  derived_of,
  inverse_of,
  unique_of,
  rules_of,
};
ghost use Rattle.express_syntax.specs.WrittenSchemas.{
  words_of_attribute,
  words_of_clause,
  words_of_explicit,
  words_of_derived,
  words_of_inverse,
  words_of_unique,
  words_of_rule,
};
ghost use Rattle.express_syntax.specs.Profile.{
  Every,
  Maybe,
  FitsExplicit,
  FitsDerived,
  FitsInverse,
  FitsUnique,
  FitsRules,
};
ghost use Rattle.express_syntax.specs.Sources.{IsExplicitOf, IsDerivedOf, IsInverseOf, IsRuleOf};
ghost use Rattle.express_syntax.specs.steps.Predict;
ghost use Rattle.express_syntax.specs.steps.Predict.{explicits, derived, inverses, uniques, refused};
ghost use Rattle.express_entities.specs.steps.EntityParts;
ghost use Rattle.express_entities.specs.steps.EntityParts.{
  clause_of,
  may_end,
  keyword_of,
  symbols_behind,
  behind_first,
  Begins,
  Ended,
  Clausal,
  AreClausesOf,
  FitsClauses,
  words_of_clauses,
};
ghost use Rattle.express_syntax.specs.steps.Steps.{Passes, ParsesWhere, ParsesBehind, StopsIn};

use crate::attributes::{derived, explicit, inverse, redeclared, unique, unique_named};
use express_lexer::marks::Mark;
use express_parts::rules::rules;
use express_syntax::fault::SyntaxFault;
use express_syntax::keyword::Keyword;
use express_syntax::lexeme::Lexeme;
use express_syntax::tree::{Attribute, Derived, Explicit, Inverse, Rule, Unique};
use express_token_runs::reader::Reader;
use express_token_runs::tokens::{is_keyword, refuse};

/// A clause of attributes or of uniqueness rules.
#[derive(Clone, Copy, Debug, PartialEq, Eq)]
pub enum Clause {
    Explicits,
    Derived,
    Inverses,
    Uniques,
}

/// The keyword that ends a clause.
#[derive(Clone, Copy, Debug, PartialEq, Eq)]
pub enum Boundary {
    Derive,
    Inverse,
    Unique,
    Where,
    EndEntity,
}

/// The beginning of the next part of a clause: an attribute, or the keyword that ends the clause.
#[derive(Clone, Copy)]
pub enum ClauseStart<'a> {
    Attribute(Attribute<'a>),
    Boundary(Boundary),
}

/// All clauses of an entity.
#[derive(Drop)]
pub struct Clauses<'a> {
    pub explicits: Vec<Explicit<'a>>,
    pub derived: Option<Vec<Derived<'a>>>,
    pub inverses: Option<Vec<Inverse<'a>>>,
    pub uniques: Option<Vec<Unique<'a>>>,
    pub rules: Option<Vec<Rule<'a>>>,
}

/// Returns the boundary with this keyword, if any.
fn boundary_of(found: Keyword) -> Option<Boundary>
    ensures { result ≡ EntityParts.boundary_of found }
{
    match found {
        Keyword::Derive => Some(Boundary::Derive),
        Keyword::Inverse => Some(Boundary::Inverse),
        Keyword::Unique => Some(Boundary::Unique),
        Keyword::Where => Some(Boundary::Where),
        Keyword::EndEntity => Some(Boundary::EndEntity),
        _ => None,
    }
}

/// Whether the boundary ends this clause. Clauses have a fixed order, and none occurs twice.
fn may_end(clause: Clause, boundary: Boundary) -> bool
    ensures { result ≡ EntityParts.may_end (clause_of clause) boundary }
{
    match boundary {
        Boundary::Derive => matches!(clause, Clause::Explicits),
        Boundary::Inverse => matches!(clause, Clause::Explicits | Clause::Derived),
        Boundary::Unique => !matches!(clause, Clause::Uniques),
        Boundary::Where | Boundary::EndEntity => true,
    }
}

/// Returns the boundary with this keyword, if it ends this clause.
fn boundary_behind(clause: Clause, found: Keyword) -> Option<Boundary>
    ensures { MatchOption result ((found ≡ keywords.SelfWord → ⊥)
        → Predict.next depth_limit (Predict.Body (clause_of clause)) (token (keyword found))
        ≡ Err (refused (token (keyword found))))
        (λ b. (found ≡ keyword_of b) × (EntityParts.may_end (clause_of clause) b ≡ true)) }
{
    let boundary = boundary_of(found)?;
    if may_end(clause, boundary) {
        Some(boundary)
    } else {
        None
    }
}

/// Reads the first attribute of the next part of a clause, or the keyword that ends the clause.
fn take_start<'a>(reader: &mut Reader<'a>, clause: Clause) -> Result<ClauseStart<'a>, SyntaxFault>
    ensures { MatchResult result
        (λ f. Begins (clause_of clause) f reader.old reader.new)
        (λ e. StopsIn e (Predict.Body (clause_of clause) ∷ []) [] reader.old) }
{
    let item = reader.take()?;
    if is_keyword(item, Keyword::SelfWord) {
        return Ok(ClauseStart::Attribute(redeclared(reader)?));
    }
    match item.lexeme {
        Lexeme::Name(word) => Ok(ClauseStart::Attribute(Attribute::Unqualified(word))),
        Lexeme::Keyword(found) => match boundary_behind(clause, found) {
            Some(boundary) => Ok(ClauseStart::Boundary(boundary)),
            None => Err(refuse(item)),
        },
        _ => Err(refuse(item)),
    }
}

/// Reads explicit attributes, up to and including the keyword that ends them.
fn explicit_clause<'a>(
    reader: &mut Reader<'a>,
) -> Result<(Vec<Explicit<'a>>, Boundary), SyntaxFault>
    ensures read { MatchResult result
        (λ p. Ended explicits (FitsExplicit depth_limit) words_of_explicit
        (map explicit_of p.0.items) p.1 reader.old reader.new)
        (λ e. StopsIn e (Predict.Body explicits ∷ []) [] reader.old) }
    ensures text { IfOk result (λ p. Every (IsExplicitOf reader.old.text) p.0.items) }
{
    let mut list = Vec::new(reader.alloc());
    loop {
        match take_start(reader, Clause::Explicits)? {
            ClauseStart::Attribute(attribute) => {
                let item = explicit(reader, attribute)?;
                list.push(item)?;
            }
            ClauseStart::Boundary(boundary) => {
                list.shrink_to_fit();
                return Ok((list, boundary));
            }
        }
    }
}

/// Reads derived attributes, up to and including the keyword that ends them.
fn derived_clause<'a>(reader: &mut Reader<'a>) -> Result<(Vec<Derived<'a>>, Boundary), SyntaxFault>
    ensures read { MatchResult result
        (λ p. Ended derived (FitsDerived depth_limit) words_of_derived (map derived_of p.0.items)
        p.1 reader.old reader.new)
        (λ e. StopsIn e (Predict.Body derived ∷ []) [] reader.old) }
    ensures text { IfOk result (λ p. Every (IsDerivedOf reader.old.text) p.0.items) }
{
    let mut list = Vec::new(reader.alloc());
    loop {
        match take_start(reader, Clause::Derived)? {
            ClauseStart::Attribute(attribute) => {
                let item = derived(reader, attribute)?;
                list.push(item)?;
            }
            ClauseStart::Boundary(boundary) => {
                list.shrink_to_fit();
                return Ok((list, boundary));
            }
        }
    }
}

/// Reads inverse attributes, up to and including the keyword that ends them.
fn inverse_clause<'a>(reader: &mut Reader<'a>) -> Result<(Vec<Inverse<'a>>, Boundary), SyntaxFault>
    ensures read { MatchResult result
        (λ p. Ended inverses (FitsInverse depth_limit) words_of_inverse (map inverse_of p.0.items)
        p.1 reader.old reader.new)
        (λ e. StopsIn e (Predict.Body inverses ∷ []) [] reader.old) }
    ensures text { IfOk result (λ p. Every (IsInverseOf reader.old.text) p.0.items) }
{
    let mut list = Vec::new(reader.alloc());
    loop {
        match take_start(reader, Clause::Inverses)? {
            ClauseStart::Attribute(attribute) => {
                let item = inverse(reader, attribute)?;
                list.push(item)?;
            }
            ClauseStart::Boundary(boundary) => {
                list.shrink_to_fit();
                return Ok((list, boundary));
            }
        }
    }
}

/// Reads a uniqueness rule after the attribute that begins it, or its label.
fn unique_rule<'a>(reader: &mut Reader<'a>, first: Attribute<'a>) -> Result<Unique<'a>, SyntaxFault>
    ensures { ParsesBehind (words_of_attribute (attribute_of first.entry)) result
        (behind_first uniques (attribute_of first.entry))
        (λ x. words_of_unique (unique_of x))
        (λ x. FitsUnique (unique_of x)) reader.old reader.new }
{
    match first {
        Attribute::Unqualified(word) => unique_named(reader, word),
        Attribute::Redeclared(_, _) => unique(reader, first),
    }
}

/// Reads uniqueness rules, up to and including the keyword that ends them.
fn unique_clause<'a>(reader: &mut Reader<'a>) -> Result<(Vec<Unique<'a>>, Boundary), SyntaxFault>
    ensures { MatchResult result
        (λ p. Ended uniques FitsUnique words_of_unique (map unique_of p.0.items) p.1 reader.old
        reader.new)
        (λ e. StopsIn e (Predict.Body uniques ∷ []) [] reader.old) }
{
    let mut list = Vec::new(reader.alloc());
    loop {
        match take_start(reader, Clause::Uniques)? {
            ClauseStart::Attribute(attribute) => {
                let item = unique_rule(reader, attribute)?;
                list.push(item)?;
            }
            ClauseStart::Boundary(boundary) => {
                list.shrink_to_fit();
                return Ok((list, boundary));
            }
        }
    }
}

/// Reads the derived attributes, if the keyword before is DERIVE.
fn some_derived<'a>(
    reader: &mut Reader<'a>,
    from: Boundary,
) -> Result<(Option<Vec<Derived<'a>>>, Boundary), SyntaxFault>
    ensures read { MatchResult result
        (λ p. Clausal derived keywords.Derive (FitsDerived depth_limit) words_of_derived
        (if_some (λ list. map derived_of list.items) p.0) from p.1 reader.old reader.new)
        (λ e. StopsIn e (symbols_behind from) [] reader.old) }
    ensures text { IfOk result
        (λ p. Maybe (λ list. Every (IsDerivedOf reader.old.text) list.items) p.0) }
{
    match from {
        Boundary::Derive => {
            let (list, to) = derived_clause(reader)?;
            Ok((Some(list), to))
        }
        _ => Ok((None, from)),
    }
}

/// Reads the inverse attributes, if the keyword before is INVERSE.
fn some_inverses<'a>(
    reader: &mut Reader<'a>,
    from: Boundary,
) -> Result<(Option<Vec<Inverse<'a>>>, Boundary), SyntaxFault>
    requires { EntityParts.may_end derived from ≡ true }
    ensures read { MatchResult result
        (λ p. Clausal inverses keywords.Inverse (FitsInverse depth_limit) words_of_inverse
        (if_some (λ list. map inverse_of list.items) p.0) from p.1 reader.old reader.new)
        (λ e. StopsIn e (symbols_behind from) [] reader.old) }
    ensures text { IfOk result
        (λ p. Maybe (λ list. Every (IsInverseOf reader.old.text) list.items) p.0) }
{
    match from {
        Boundary::Inverse => {
            let (list, to) = inverse_clause(reader)?;
            Ok((Some(list), to))
        }
        _ => Ok((None, from)),
    }
}

/// Reads the uniqueness rules, if the keyword before is UNIQUE.
fn some_uniques<'a>(
    reader: &mut Reader<'a>,
    from: Boundary,
) -> Result<(Option<Vec<Unique<'a>>>, Boundary), SyntaxFault>
    requires { EntityParts.may_end inverses from ≡ true }
    ensures { MatchResult result
        (λ p. Clausal uniques keywords.Unique FitsUnique words_of_unique
        (if_some (λ us. map unique_of us.items) p.0) from p.1 reader.old reader.new)
        (λ e. StopsIn e (symbols_behind from) [] reader.old) }
{
    match from {
        Boundary::Unique => {
            let (list, to) = unique_clause(reader)?;
            Ok((Some(list), to))
        }
        _ => Ok((None, from)),
    }
}

/// Reads the domain rules, if the keyword before is WHERE, and the end of the entity.
fn some_rules<'a>(
    reader: &mut Reader<'a>,
    from: Boundary,
) -> Result<Option<Vec<Rule<'a>>>, SyntaxFault>
    requires { EntityParts.may_end uniques from ≡ true }
    ensures read { MatchResult result
        (λ x. Maybe (FitsRules depth_limit keywords.EndEntity) (if_some (λ rs. rules_of rs.items) x)
        × (ws : List Word) × (keyword (keyword_of from) ∷ ws
        ≡ words_of_clause keywords.Where words_of_rule (if_some (λ rs. rules_of rs.items) x)
        ++ keyword keywords.EndEntity ∷ mark marks.Semicolon ∷ [])
        × Passes (symbols_behind from) [] [] ws reader.old reader.new)
        (λ e. StopsIn e (symbols_behind from) [] reader.old) }
    ensures text { IfOk result
        (λ x. Maybe (λ rs. Every (IsRuleOf reader.old.text) rs.items) x) }
{
    match from {
        Boundary::Where => {
            let list = rules(reader, Keyword::EndEntity)?;
            Ok(Some(list))
        }
        _ => {
            reader.expect(Mark::Semicolon)?;
            Ok(None)
        }
    }
}

/// Reads the clauses of an entity, and its end.
pub fn read_clauses<'a>(reader: &mut Reader<'a>) -> Result<Clauses<'a>, SyntaxFault>
    ensures read { ParsesWhere result (Predict.Body explicits ∷ []) words_of_clauses FitsClauses
        reader.old reader.new }
    ensures text { IfOk result (λ x. AreClausesOf reader.old.text x) }
{
    let (explicits, behind_explicits) = explicit_clause(reader)?;
    let (derived, behind_derived) = some_derived(reader, behind_explicits)?;
    let (inverses, behind_inverses) = some_inverses(reader, behind_derived)?;
    let (uniques, behind_uniques) = some_uniques(reader, behind_inverses)?;
    let rules = some_rules(reader, behind_uniques)?;
    Ok(Clauses {
        explicits,
        derived,
        inverses,
        uniques,
        rules,
    })
}
