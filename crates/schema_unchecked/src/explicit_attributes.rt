//! Explicit attributes (ISO 10303-11, 9.2.1.1).

ghost use Rattle.std.specs.Prelude.{◌≡◌, OnOk, map, IsTrue, ◌↔◌, List, Some, slice_get};
ghost use Rattle.express_syntax.specs.ExpressionViews.{capitals};
ghost use Rattle.express_syntax.specs.Schemas.{DataType as DataTypeTree, entity as entity_tree};
ghost use Rattle.express_syntax.specs.Views.{
  attribute_of,
  data_type_of,
  explicit_of,
  entity_of,
};
ghost use Rattle.schema_semantics.specs.Parts.{
  for_each,
  parts_of_explicit,
  parts_of_redeclared,
  parts_of_data_type,
  attribute_label,
  HasOtherShape,
};
ghost use Rattle.schema_names.specs.Numbers.{IsAt};
ghost use Rattle.schema_attribute_references.specs.steps.Taking.{schema_in};
ghost use Rattle.schema_unchecked_declarations.specs.UncheckedLists.{Adds, unchecked_in};
ghost use Rattle.schema_unchecked.specs.steps.Findings.{AreFound};
ghost use Rattle.schema_unchecked.specs.steps.Places.{IsDataTypeAt, AreDataTypesAt};

use crate::findings::Findings;
use express_syntax::tree::{Attribute, DataType, Entity, Explicit};
use schema_attributes::redeclarations::{has_first_shape, redeclared_entity};
use schema_data_types::laws::data_types_are_known;
use schema_semantics::unchecked::{PartKind, Reason};
use schema_unchecked_declarations::limits::add_data_type;
use schema_unchecked_declarations::list::{Label, Unchecked, add_part, attribute_label};
use std::alloc::{AllocError, Global};
use step_literals::literal::Word;

/// Whether `attribute` is a redeclaration whose data type doesn't have the shape of the attribute's
/// first one.
fn has_other_shape(
    findings: &Findings<'_, '_, '_>,
    attribute: Attribute<'_>,
    data_type: u32,
) -> bool
    requires found { AreFound findings.now }
    ensures { (k : DataTypeTree) → IsDataTypeAt (schema_in findings.now.known) data_type k
        → IsTrue result
        ↔ HasOtherShape (schema_in findings.now.known) (attribute_of attribute.entry) k }
{
    let tables = &findings.known.tables;
    match redeclared_entity(tables.names, findings.lines, attribute) {
        Some(entity) => !has_first_shape(
            tables.names,
            tables.data_types,
            findings.shapes,
            entity,
            attribute.name(),
            data_type,
        ),
        None => false,
    }
}

/// Adds `attribute` if it is a redeclaration whose data type doesn't have the shape of the
/// attribute's first one (ISO 10303-11, 9.2.3.4).
fn add_redeclared(
    alloc: Global,
    findings: &Findings<'_, '_, '_>,
    list: &mut Vec<Unchecked>,
    holder: Word<'_>,
    attribute: Attribute<'_>,
    data_type: u32,
) -> Result<(), AllocError>
    requires found { AreFound findings.now }
    ensures { (k : DataTypeTree) → IsDataTypeAt (schema_in findings.now.known) data_type k
        → OnOk result (Adds (parts_of_redeclared (schema_in findings.now.known)
        (capitals holder.entry) k (attribute_of attribute.entry))
        (unchecked_in list.old.items) (unchecked_in list.new.items)) }
{
    match attribute {
        Attribute::Unqualified(_) => Ok(()),
        Attribute::Redeclared(_, name) => {
            if !has_other_shape(findings, attribute, data_type) {
                return Ok(());
            }
            let label = Label::Dotted(holder, name);
            add_part(alloc, list, PartKind::Redeclared, label, Reason::Profile)
        }
    }
}

/// Adds the unchecked parts of one explicit declaration: for each attribute its redeclaration, then
/// the limits of its data type.
fn add_explicit<'a>(
    alloc: Global,
    findings: &Findings<'a, '_, '_>,
    list: &mut Vec<Unchecked>,
    holder: Word<'_>,
    explicit: &Explicit<'a>,
    data_type: u32,
) -> Result<(), AllocError>
    requires found { AreFound findings.now }
    requires data_type { IsDataTypeAt (schema_in findings.now.known) data_type
        (explicit_of explicit.now).data_type }
    ensures { OnOk result (Adds (parts_of_explicit (schema_in findings.now.known)
        (capitals holder.entry) (explicit_of explicit.now))
        (unchecked_in list.old.items) (unchecked_in list.new.items)) }
{
    for attribute in explicit.attributes.as_slice() {
        add_redeclared(alloc, findings, list, holder, *attribute, data_type)?;
        let label = attribute_label(holder, attribute);
        add_data_type(alloc, list, label, &explicit.data_type)?;
    }
    Ok(())
}

/// Adds the unchecked parts of explicit declarations, whose data types have the numbers in `row`.
fn add_explicits<'a>(
    alloc: Global,
    findings: &Findings<'a, '_, '_>,
    list: &mut Vec<Unchecked>,
    holder: Word<'_>,
    explicits: &[Explicit<'a>],
    row: &[u32],
) -> Result<(), AllocError>
    requires found { AreFound findings.now }
    requires row { AreDataTypesAt (schema_in findings.now.known) row.now
        (map explicit_of explicits.now) }
    ensures { OnOk result (Adds (for_each (parts_of_explicit (schema_in findings.now.known)
        (capitals holder.entry)) (map explicit_of explicits.now))
        (unchecked_in list.old.items) (unchecked_in list.new.items)) }
{
    for i in 0..explicits.len() {
        add_explicit(alloc, findings, list, holder, &explicits[i], row[i])?;
    }
    Ok(())
}

/// Adds the unchecked parts of an entity's explicit attributes, in the order of the text
/// (ISO 10303-11, 9.2.1.1).
pub(crate) fn add_explicit_attributes<'a>(
    alloc: Global,
    findings: &Findings<'a, '_, '_>,
    list: &mut Vec<Unchecked>,
    number: u32,
    entity: &Entity<'a>,
) -> Result<(), AllocError>
    requires found { AreFound findings.now }
    requires at { IsAt (schema_in findings.now.known) number (entity_tree (entity_of entity.now)) }
    ensures { OnOk result (Adds (for_each (parts_of_explicit (schema_in findings.now.known)
        (entity_of entity.now).name) (entity_of entity.now).explicits)
        (unchecked_in list.old.items) (unchecked_in list.new.items)) }
{
    data_types_are_known();
    let row = &findings.known.tables.data_types.rows[number as usize];
    add_explicits(alloc, findings, list, entity.name, &entity.explicits, row)
}
