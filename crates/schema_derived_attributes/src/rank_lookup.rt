//! Looking up the ranks of derived attributes by name.

ghost use Rattle.std.specs.Prelude.{◌≡◌, ℕ, ◌+◌, ◌<◌, None, map, length, get_or, IfOk};
ghost use Rattle.express_syntax.specs.ExpressionViews.{capitals};
ghost use Rattle.express_syntax.specs.Views.{derived_of, declaration_of as declaration_seen};
ghost use Rattle.schema_semantics.specs.Names.{Name};
ghost use Rattle.schema_semantics.specs.Ranks.{IsRankAt};
ghost use Rattle.schema_names.specs.Numbers.{HasNumber};
ghost use Rattle.schema_names.specs.Schemas.{the_schema};
ghost use Rattle.schema_attributes.specs.Derivations.{derivations_in};
ghost use Rattle.schema_derived_attributes.specs.steps.Asked.{deriveds_in, derives, first_for};
ghost use Rattle.schema_derived_attributes.specs.Firsts.{AreFirsts};
ghost use Rattle.schema_derived_attributes.specs.AttributeRanks.{IsRankOf, AreRanksOf};

use express_syntax::tree::{Attribute, Declaration, Derived};
use schema_names::names::Names;
use std::alloc::{AllocError, Global};
use step_literals::literal::Word;

/// The most derived attributes that a schema may have: their counts are 32-bit numbers.
const MOST_DERIVATIONS: usize = 4_294_967_295;

/// Returns the DERIVE clause of an entity. Empty for other declarations.
fn deriveds_in<'d, 'a>(declaration: &'d Declaration<'a>) -> &'d [Derived<'a>]
    ensures { map derived_of result.now ≡ deriveds_in (declaration_seen declaration.now) }
{
    match declaration {
        Declaration::Entity(entity) => entity.derived_attributes(),
        _ => &[],
    }
}

/// Returns `count` plus the count of derived attributes of `declaration`.
fn count_more(count: u32, declaration: &Declaration<'_>) -> Result<u32, AllocError>
    ensures { IfOk result (λ n. n
        ≡ count + length (derivations_in (declaration_seen declaration.now))) }
{
    let more = deriveds_in(declaration).len();
    if more > MOST_DERIVATIONS - count as usize {
        return Err(AllocError);
    }
    Ok(count + more as u32)
}

/// Returns by declaration the count of derived attributes before it, which is the number of its own
/// first one.
///
/// # Errors
/// `AllocError` if memory runs out or there are more than 2^32 - 1 derived attributes.
pub fn first_derivations(alloc: Global, names: &Names<'_, '_>) -> Result<Vec<u32>, AllocError>
    ensures { IfOk result (λ firsts. AreFirsts (the_schema names.now) firsts.items) }
{
    let mut firsts = Vec::new(alloc);
    let mut count: u32 = 0;
    for declaration in names.declarations() {
        firsts.push(count)?;
        count = count_more(count, declaration)?;
    }
    Ok(firsts)
}

/// Whether a derived attribute declares or redeclares an attribute `name`.
fn derives(derived: &Derived<'_>, name: Word<'_>) -> bool
    ensures { result ≡ derives (capitals name.entry) (derived_of derived.now) }
{
    match derived.attribute {
        Attribute::Unqualified(own) => own == name,
        Attribute::Redeclared(_, own) => own == name,
    }
}

/// Returns the index in the DERIVE clause of the first attribute that declares or redeclares
/// `name`, if any.
fn first_for(declaration: &Declaration<'_>, name: Word<'_>) -> Option<usize>
    ensures { result
        ≡ first_for (capitals name.entry) (deriveds_in (declaration_seen declaration.now)) }
{
    deriveds_in(declaration)
        .iter()
        .position(|derived| derives(derived, name))
}

/// Returns the rank at an index after the first derived attribute of an entity.
fn rank_behind(ranks: &[Option<u32>], first: u32, place: usize) -> Option<u32>
    requires { first + place < length ranks.now }
    ensures { result ≡ get_or ranks.now (first + place) None }
{
    ranks[first as usize + place]
}

/// Returns the rank of the first attribute in the DERIVE clause of `entity` that declares or
/// redeclares `attribute`. `None` if there is none, or if it is set aside (ISO 10303-11, 9.2.1.2).
pub fn rank_at(
    names: &Names<'_, '_>,
    firsts: &[u32],
    ranks: &[Option<u32>],
    entity: u32,
    attribute: Word<'_>,
) -> Option<u32>
    requires firsts { ∥ AreFirsts (the_schema names.now) firsts.now ∥₁ }
    requires ranks { ∥ AreRanksOf (the_schema names.now) ranks.now ∥₁ }
    ensures { ∥ IsRankOf (the_schema names.now) entity (capitals attribute.entry) result ∥₁ }
{
    let declaration = names.at(entity)?;
    let place = first_for(declaration, attribute)?;
    rank_behind(ranks, firsts[entity as usize], place)
}
