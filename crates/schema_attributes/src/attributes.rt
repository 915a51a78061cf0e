//! The attribute declarations of a schema, by name.

ghost use Rattle.std.specs.Prelude.{
  ◌≡◌,
  [],
  length,
  option_map,
  slice_get,
  IfOk,
  OnOk,
};
ghost use Rattle.graphs.specs.Graphs.{graph_of};
ghost use Rattle.express_syntax.specs.ExpressionViews.{capitals};
ghost use Rattle.schema_semantics.specs.Faults.{IsResolved};
ghost use Rattle.schema_names.specs.Numbers.{AreNumberRowsOf};
ghost use Rattle.schema_names.specs.Schemas.{the_schema};
ghost use Rattle.schema_data_types.specs.NumberedTypes.{whole_types, all_data_types};
ghost use Rattle.schema_data_types.specs.ShapeTables.{AreShapes};
ghost use Rattle.schema_explicit_attributes.specs.SupertypeLines.{HaveLines};
ghost use Rattle.step_literals.specs.declared.literal.Word.{Word};
ghost use Rattle.schema_attributes.specs.steps.Declarations.{AreAttributes, row_in, found};
ghost use Rattle.schema_attributes.specs.steps.Gathering.{AddsAll, SaysIs};

use crate::attribute_collection::{Sources, gathered};
use crate::declaration::AttributeDeclaration;
use crate::row::Row;
use indexmap::IndexMap;
use schema_data_types::forms::DataTypes;
use schema_data_types::shapes::Shape;
use schema_names::names::Names;
use std::alloc::{AllocError, Global};
use std::hash::RandomState;
use step_literals::literal::Word;

/// Rows of attribute declarations, by name.
type Rows<'a> = IndexMap<Word<'a>, Row, RandomState>;

/// The attribute declarations of a schema, by name. The hash keys are random, so no schema can be
/// crafted to collide.
#[derive(Drop)]
pub struct Attributes<'a> {
    rows: Rows<'a>,
}

/// Returns the row at an index, if any, otherwise an empty one.
fn row_at<'r>(rows: &'r Rows<'_>, place: usize) -> &'r [AttributeDeclaration]
    ensures { result.now ≡ row_in (option_map (λ e. e.1) (slice_get rows.now.entries place)) }
{
    match rows.get_index(place) {
        Some((_, row)) => row.as_slice(),
        None => &[],
    }
}

impl<'a> Attributes<'a> {
    /// Returns an empty table with room for `count` names.
    pub(crate) fn with_room(
        alloc: Global,
        keys: RandomState,
        count: usize,
    ) -> Result<Attributes<'a>, AllocError>
        ensures { IfOk result (λ t. (w : Word) → found t w ≡ []) }
    {
        let rows = IndexMap::with_capacity_and_hasher(alloc, count, keys)?;
        Ok(Attributes { rows })
    }

    /// Adds a declaration of an attribute `name`.
    pub(crate) fn add(
        &mut self,
        name: Word<'a>,
        declaration: AttributeDeclaration,
    ) -> Result<(), AllocError>
        ensures { OnOk result (AddsAll self.old
            (SaysIs (capitals name.entry) declaration) self.new) }
    {
        let alloc = *self.rows.allocator();
        if let Some(row) = self.rows.get_mut(&name) {
            return row.push(alloc, declaration);
        }
        self.rows.insert(name, Row::One(declaration))?;
        Ok(())
    }

    /// Returns the attribute declarations of a schema whose names are resolved.
    ///
    /// `data_types` are its data types and `shapes` their shapes. `lines` has the supertype chain
    /// of each entity. Names are hashed with `keys`.
    pub fn of(
        alloc: Global,
        keys: RandomState,
        names: &Names<'a, '_>,
        data_types: &DataTypes,
        lines: &[Vec<u32>],
        shapes: &[Shape],
    ) -> Result<Attributes<'a>, AllocError>
        requires resolved { IsResolved (the_schema names.now) }
        requires rows { AreNumberRowsOf whole_types (all_data_types (the_schema names.now))
            (the_schema names.now).declarations (graph_of data_types.now.rows.items) }
        requires lines { HaveLines (the_schema names.now) (graph_of lines.now) }
        requires each { length lines.now ≡ length names.now.schema.now.declarations.items }
        requires shapes { AreShapes (the_schema names.now) shapes.now }
        ensures { IfOk result (λ t. AreAttributes (the_schema names.now) t) }
    {
        let sources = Sources {
            names,
            data_types,
            lines,
            shapes,
        };
        gathered(alloc, keys, &sources)
    }

    /// Returns the declarations and redeclarations of attributes called `name`; empty if there are
    /// none.
    pub fn find(&self, name: Word<'_>) -> &[AttributeDeclaration]
        ensures { result.now ≡ found self.now name.entry }
    {
        match self.rows.get_index_of(&name) {
            Some(place) => row_at(&self.rows, place),
            None => &[],
        }
    }
}
