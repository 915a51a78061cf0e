//! Inverse attributes (ISO 10303-11, 9.2.1.3).

ghost use Rattle.std.specs.Prelude.{◌≡◌, ◌<◌, ◌^◌, ◌∷◌, [], length, map, IfOk, OnOk};
ghost use Rattle.express_syntax.specs.ExpressionViews.{capitals};
ghost use Rattle.express_syntax.specs.Schemas.{Entity as EntityTree, entity as entity_tree, own};
ghost use Rattle.express_syntax.specs.Views.{declaration_of, inverse_of};
ghost use Rattle.express_syntax.specs.Profile.{Every};
ghost use Rattle.schema_semantics.specs.Names.{Name, listed};
ghost use Rattle.schema_semantics.specs.Faults.{holder_of};
ghost use Rattle.schema_semantics.specs.Attributes.{IsInverted};
ghost use Rattle.schema_names.specs.Numbers.{IsAt};
ghost use Rattle.schema_attribute_references.specs.steps.Taking.{schema_in};
ghost use Rattle.schema_redeclarations.specs.Uses.{HasPlace};
ghost use Rattle.conformance.specs.Bases.{Domain, IsDomain};
ghost use Rattle.conformance.specs.Rules.{IsInverseAttribute, InTurn, declared_inverses};
ghost use Rattle.schema_constraints.specs.steps.Sources.{AreSources};
ghost use Rattle.schema_constraints.specs.RuleViews.{inverse_seen, IsNumberedInverse};
ghost use Rattle.schema_constraints.specs.steps.Making.{
  Adds,
  of_entity,
  IsKnownInverse,
  HasInverse,
  inverses_of,
  inverses_by,
  IsInverse,
};

use crate::inverse_collections::{Gathering, gathering_of};
use crate::places::{entity_number, own_place};
use crate::sources::Sources;
use express_syntax::tree::{Attribute, Declaration, Inverse};
use schema_explicit_attributes::origins::inverted;
use std::alloc::{AllocError, Global};
use step_literals::literal::Word;

/// An inverse attribute: the instances of another entity that refer to an instance by one of their
/// explicit attributes (ISO 10303-11, 9.2.1.3).
#[derive(Clone, Copy)]
pub struct InverseAttribute<'a> {
    /// The number of the entity that declares it.
    pub entity: u32,
    pub name: Word<'a>,
    pub gathering: Gathering,
    /// The number of the entity whose instances refer.
    pub referrer: u32,
    /// The number of the explicit attribute by which they refer.
    pub inverted: u32,
}

/// Returns the entity in whose supertype chain the inverted attribute is looked up: the qualifier
/// of its name, if any, otherwise the referring entity.
fn holder<'a>(inverse: &Inverse<'a>) -> Word<'a>
    ensures { capitals result
        ≡ holder_of (inverse_of inverse.now).holder (inverse_of inverse.now).entity }
{
    match inverse.holder {
        Some(holder) => holder,
        None => inverse.entity,
    }
}

/// Returns the number of the explicit attribute that `inverse` inverts.
fn inverted_place<'a>(sources: &Sources<'a, '_, '_>, inverse: &Inverse<'a>) -> u32
    requires sources { AreSources sources.now }
    requires known { IsKnownInverse (schema_in sources.now.known) (inverse_of inverse.now) }
    ensures { (p : Name) × IsInverted (schema_in sources.now.known) (inverse_of inverse.now) p
        × HasPlace (schema_in sources.now.known) (p, capitals inverse.now.inverted) result }
{
    let names = sources.known.tables.names;
    let holder = entity_number(names, holder(inverse));
    let entity = inverted(names, sources.lines, holder, inverse.inverted).unwrap();
    own_place(sources, entity, inverse.inverted).unwrap()
}

/// Returns the row of the inverse attribute `name` of `entity`.
fn inverse_attribute<'a>(
    sources: &Sources<'a, '_, '_>,
    entity: u32,
    name: Word<'a>,
    inverse: &Inverse<'a>,
) -> InverseAttribute<'a>
    requires sources { AreSources sources.now }
    requires known { IsKnownInverse (schema_in sources.now.known) (inverse_of inverse.now) }
    requires name { (inverse_of inverse.now).attribute ≡ own (capitals name) }
    ensures { (e : EntityTree) → IsAt (schema_in sources.now.known) entity (entity_tree e)
        → IsInverse (schema_in sources.now.known) (e.name, inverse_of inverse.now) result }
{
    InverseAttribute {
        entity,
        name,
        gathering: gathering_of(&inverse.collection),
        referrer: entity_number(sources.known.tables.names, inverse.entity),
        inverted: inverted_place(sources, inverse),
    }
}

/// Adds an inverse attribute of `entity`, unless it is a redeclaration (ISO 10303-11, 9.2.3.4).
fn add_inverse<'a>(
    sources: &Sources<'a, '_, '_>,
    attributes: &mut Vec<InverseAttribute<'a>>,
    entity: u32,
    inverse: &Inverse<'a>,
) -> Result<(), AllocError>
    requires sources { AreSources sources.now }
    requires declared { HasInverse (schema_in sources.now.known) entity (inverse_of inverse.now) }
    ensures { OnOk result ((e : EntityTree)
        → IsAt (schema_in sources.now.known) entity (entity_tree e)
        → Adds (IsInverse (schema_in sources.now.known))
        (inverses_of e.name (inverse_of inverse.now ∷ [])) attributes.old.items
        attributes.new.items) }
{
    let Attribute::Unqualified(name) = inverse.attribute else {
        return Ok(());
    };
    attributes.push(inverse_attribute(sources, entity, name, inverse))?;
    Ok(())
}

/// Adds the inverse attributes of `entity`, except redeclarations.
fn add_inverses<'a>(
    sources: &Sources<'a, '_, '_>,
    attributes: &mut Vec<InverseAttribute<'a>>,
    entity: u32,
    inverses: &[Inverse<'a>],
) -> Result<(), AllocError>
    requires sources { AreSources sources.now }
    requires declared { (e : EntityTree) × IsAt (schema_in sources.now.known) entity (entity_tree e)
        × (map inverse_of inverses.now ≡ listed e.inverses) }
    ensures { OnOk result ((e : EntityTree)
        → IsAt (schema_in sources.now.known) entity (entity_tree e)
        → Adds (IsInverse (schema_in sources.now.known)) (inverses_of e.name
        (map inverse_of inverses.now)) attributes.old.items attributes.new.items) }
{
    for inverse in inverses {
        add_inverse(sources, attributes, entity, inverse)?;
    }
    Ok(())
}

/// Adds the inverse attributes of the declaration `number`, if it is an entity.
fn add_declaration<'a>(
    sources: &Sources<'a, '_, '_>,
    attributes: &mut Vec<InverseAttribute<'a>>,
    number: u32,
    declaration: &Declaration<'a>,
) -> Result<(), AllocError>
    requires sources { AreSources sources.now }
    requires at { IsAt (schema_in sources.now.known) number (declaration_of declaration.now) }
    ensures { OnOk result (Adds (IsInverse (schema_in sources.now.known))
        (of_entity inverses_by (declaration_of declaration.now)) attributes.old.items
        attributes.new.items) }
{
    match declaration {
        Declaration::Entity(entity) => {
            add_inverses(sources, attributes, number, entity.inverse_attributes())
        }
        _ => Ok(()),
    }
}

/// Adds the inverse attributes of all declarations, in the order of the text.
fn add_all<'a>(
    sources: &Sources<'a, '_, '_>,
    attributes: &mut Vec<InverseAttribute<'a>>,
    declarations: &[Declaration<'a>],
) -> Result<(), AllocError>
    requires sources { AreSources sources.now }
    requires few { length declarations.now < 2 ^ 32 }
    requires all { map declaration_of declarations.now
        ≡ (schema_in sources.now.known).declarations }
    ensures { OnOk result (Adds (IsInverse (schema_in sources.now.known))
        (declared_inverses (schema_in sources.now.known)) attributes.old.items
        attributes.new.items) }
{
    for i in 0..declarations.len() {
        add_declaration(sources, attributes, i as u32, &declarations[i])?;
    }
    Ok(())
}

/// Returns the inverse attributes of a schema whose names are resolved, in the order of the text,
/// except redeclarations (ISO 10303-11, 9.2.1.3 and 9.2.3.4).
///
/// For each attribute, this takes time proportional to the length of the supertype chain in which
/// the inverted attribute is looked up, plus the count of attributes of the entity that declares
/// it.
pub fn inverse_attributes<'a>(
    alloc: Global,
    sources: &Sources<'a, '_, '_>,
) -> Result<Vec<InverseAttribute<'a>>, AllocError>
    requires sources { AreSources sources.now }
    ensures seen { IfOk result (λ t. (d : Domain) → IsDomain (schema_in sources.now.known) d
        → InTurn (IsInverseAttribute (schema_in sources.now.known) d)
        (declared_inverses (schema_in sources.now.known))
        (map (inverse_seen (schema_in sources.now.known)) t.items)) }
    ensures numbered { IfOk result (λ t. Every (IsNumberedInverse (schema_in sources.now.known))
        t.items) }
{
    let mut attributes = Vec::new(alloc);
    let declarations = sources.known.tables.names.declarations();
    add_all(sources, &mut attributes, declarations)?;
    Ok(attributes)
}
