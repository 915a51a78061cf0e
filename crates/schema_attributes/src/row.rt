//! The declarations of the attributes of one name.

ghost use Rattle.std.specs.Prelude.{◌≡◌, ◌++◌, [], ◌∷◌, IfOk, OnOk};
ghost use Rattle.schema_attributes.specs.steps.Declarations.{items_of};

use crate::declaration::AttributeDeclaration;
use std::alloc::{AllocError, Global};
use std::slice;

/// The declarations of one name. Most names have one, which needs no allocation.
#[derive(Drop)]
pub enum Row {
    One(AttributeDeclaration),
    Several(Box<Vec<AttributeDeclaration>>),
}

/// Returns a row of two declarations.
fn two(
    alloc: Global,
    first: AttributeDeclaration,
    second: AttributeDeclaration,
) -> Result<Row, AllocError>
    ensures { IfOk result (λ r. items_of r ≡ first ∷ second ∷ []) }
{
    let mut row = Vec::with_capacity(alloc, 2)?;
    row.push(first)?;
    row.push(second)?;
    let boxed = Box::new(alloc, row)?;
    Ok(Row::Several(boxed))
}

impl Row {
    /// Returns the declarations.
    pub fn as_slice(&self) -> &[AttributeDeclaration]
        ensures { result.now ≡ items_of self.now }
    {
        match self {
            Row::One(declaration) => slice::from_ref(declaration),
            Row::Several(declarations) => declarations,
        }
    }

    /// Adds a declaration.
    pub fn push(
        &mut self,
        alloc: Global,
        declaration: AttributeDeclaration,
    ) -> Result<(), AllocError>
        ensures { OnOk result (items_of self.new ≡ items_of self.old ++ declaration ∷ []) }
    {
        match self {
            Row::One(first) => *self = two(alloc, *first, declaration)?,
            Row::Several(declarations) => declarations.push(declaration)?,
        }
        Ok(())
    }
}
