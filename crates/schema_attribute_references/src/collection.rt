//! The possible values and the derivations of attribute declarations.

ghost use Rattle.std.specs.Prelude.{◌≡◌, filter_map, IfOk, ◌↔◌};
ghost use Rattle.express_syntax.specs.Schemas.{DataType};
ghost use Rattle.schema_semantics.specs.Names.{Among};
ghost use Rattle.schema_semantics.specs.Shapes.{Atom as Member};
ghost use Rattle.schema_names.specs.Schemas.{the_schema};
ghost use Rattle.schema_data_types.specs.steps.Values.{Holds, AreTables};
ghost use Rattle.schema_attributes.specs.declared.declaration.AttributeDeclaration.{
  AttributeDeclaration,
};
ghost use Rattle.schema_attributes.specs.steps.Declarations.{GivesType};
ghost use Rattle.schema_attribute_references.specs.steps.Gathering.{IsOfOne, Gathers};

use crate::numbers::add_some;
use crate::taken_attributes::Taken;
use schema_attributes::declaration::AttributeDeclaration;
use schema_data_types::values::{Atom, Tables, add_values};
use std::alloc::{AllocError, Global};

/// Returns the atoms of the data types of `declarations`.
fn values_of(
    alloc: Global,
    tables: &Tables<'_, '_, '_>,
    declarations: &[AttributeDeclaration],
) -> Result<Vec<Atom>, AllocError>
    requires tables { AreTables tables.now }
    requires typed { (x : AttributeDeclaration) → Among x declarations.now
        → (k : DataType) × GivesType (the_schema tables.now.names.now) k x }
    ensures { IfOk result (λ v. (a : Member) → Holds (the_schema tables.now.names.now) v.items a
        ↔ IsOfOne (the_schema tables.now.names.now) declarations.now a) }
{
    let mut atoms = Vec::new(alloc);
    for declaration in declarations {
        add_values(tables, declaration.data_type, &mut atoms)?;
    }
    Ok(atoms)
}

/// Returns the derived attributes that give the values of `declarations`.
fn derivations_of(
    alloc: Global,
    declarations: &[AttributeDeclaration],
) -> Result<Vec<u32>, AllocError>
    ensures { IfOk result (λ v. v.items
        ≡ filter_map (λ (x : AttributeDeclaration). x.derivation) declarations.now) }
{
    let mut derivations = Vec::new(alloc);
    for declaration in declarations {
        add_some(&mut derivations, declaration.derivation)?;
    }
    Ok(derivations)
}

/// Returns the result of a reference that takes `declarations`.
pub(crate) fn gather(
    alloc: Global,
    tables: &Tables<'_, '_, '_>,
    declarations: &[AttributeDeclaration],
    is_unclear: bool,
) -> Result<Taken, AllocError>
    requires tables { AreTables tables.now }
    requires typed { (x : AttributeDeclaration) → Among x declarations.now
        → (k : DataType) × GivesType (the_schema tables.now.names.now) k x }
    ensures { IfOk result (λ t. Gathers (the_schema tables.now.names.now) declarations.now t
        × (t.is_unclear ≡ is_unclear)) }
{
    let may = values_of(alloc, tables, declarations)?;
    let uses = derivations_of(alloc, declarations)?;
    Ok(Taken {
        is_some: !declarations.is_empty(),
        is_unclear,
        may,
        uses,
    })
}
