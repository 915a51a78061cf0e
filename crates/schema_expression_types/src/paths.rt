//! The qualifiers of references.

ghost use Rattle.std.specs.Prelude.{List, ◌∷◌, [], IfOk, OnOk};
ghost use Rattle.express_syntax.specs.Trees.{attribute};
ghost use Rattle.express_syntax.specs.ExpressionViews.{selection_of, selections_of, qualifiers_of};
ghost use Rattle.schema_semantics.specs.Sets.{Only, WithSubtypes, of_set, path_behind};
ghost use Rattle.schema_semantics.specs.Names.{Name};
ghost use Rattle.schema_data_types.specs.declared.values.Atom.{Atom as Numbered};
ghost use Rattle.schema_semantics.specs.Shapes.{an_item};
ghost use Rattle.schema_data_types.specs.steps.Values.{Holds};
ghost use Rattle.schema_attribute_references.specs.steps.Taking.{IsKnown, IsTaken, schema_in};
ghost use Rattle.schema_expression_types.specs.steps.Paths.{GoesOn, IsPath, Joins};

use crate::atoms::add_sort;
use crate::references::Reference;
use crate::sets::elements;
use express_syntax::expression::Qualifier;
use schema_attribute_references::references::{take_of_any, take_of_entity};
use schema_attribute_references::schema_facts::Known;
use schema_attribute_references::taken_attributes::Taken;
use schema_data_types::values::{Atom, Sort};
use std::alloc::{AllocError, Global};

/// Continues a reference with an attribute.
fn go_to_attribute(reference: &mut Reference, taken: Taken) -> Result<(), AllocError>
    ensures { OnOk result (Joins reference.old taken reference.new) }
{
    reference.uses.extend_from_slice(&taken.uses)?;
    reference.is_unclear = reference.is_unclear || taken.is_unclear;
    reference.may = taken.may;
    Ok(())
}

/// Continues a reference with a qualifier (ISO 10303-11, 12.7).
fn go_on<'a>(
    alloc: Global,
    known: &Known<'a, '_, '_>,
    reference: &mut Reference,
    qualifier: &Qualifier<'a>,
) -> Result<(), AllocError>
    requires known { IsKnown known.now }
    ensures { OnOk result (GoesOn (schema_in known.now) reference.old
        (selections_of (selection_of qualifier.now ∷ [])) reference.new) }
{
    match qualifier {
        Qualifier::Attribute(name) => {
            let taken = take_of_any(alloc, known, &reference.may, *name)?;
            go_to_attribute(reference, taken)
        }
        Qualifier::Group(entity, name) => {
            let taken = take_of_entity(alloc, known, *entity, *name)?;
            go_to_attribute(reference, taken)
        }
        Qualifier::Index(_) => {
            reference.may = elements(alloc, &known.tables, &reference.may)?;
            Ok(())
        }
    }
}

/// Continues a reference with qualifiers, one after the other.
pub(crate) fn follow<'a>(
    alloc: Global,
    known: &Known<'a, '_, '_>,
    begun: Reference,
    qualifiers: &[Qualifier<'a>],
) -> Result<Reference, AllocError>
    requires known { IsKnown known.now }
    ensures { IfOk result (GoesOn (schema_in known.now) begun
        (qualifiers_of qualifiers.now)) }
{
    let mut reference = begun;
    for qualifier in qualifiers {
        go_on(alloc, known, &mut reference, qualifier)?;
    }
    Ok(reference)
}

/// Returns the analysis of `qualifiers` after a value that may be one of `may`.
pub(crate) fn select<'a>(
    alloc: Global,
    known: &Known<'a, '_, '_>,
    may: Vec<Atom>,
    qualifiers: &[Qualifier<'a>],
) -> Result<Reference, AllocError>
    requires known { IsKnown known.now }
    ensures { IfOk result (IsPath (schema_in known.now) (path_behind (schema_in known.now)
        (Holds (schema_in known.now) may.items) (qualifiers_of qualifiers.now))) }
{
    let begun = Reference {
        is_unclear: false,
        may,
        uses: Vec::new(alloc),
    };
    follow(alloc, known, begun, qualifiers)
}

/// Returns the analysis of `qualifiers` after an enumeration item.
pub(crate) fn select_of_item<'a>(
    alloc: Global,
    known: &Known<'a, '_, '_>,
    qualifiers: &[Qualifier<'a>],
) -> Result<Reference, AllocError>
    requires known { IsKnown known.now }
    ensures { IfOk result (IsPath (schema_in known.now) (path_behind (schema_in known.now)
        (Only an_item) (qualifiers_of qualifiers.now))) }
{
    let mut may = Vec::new(alloc);
    add_sort(Sort::Item, &mut may)?;
    select(alloc, known, may, qualifiers)
}

/// Returns the analysis of an attribute of SELF, followed by `qualifiers`.
pub(crate) fn select_of_taken<'a>(
    alloc: Global,
    known: &Known<'a, '_, '_>,
    taken: Taken,
    qualifiers: &[Qualifier<'a>],
) -> Result<Reference, AllocError>
    requires known { IsKnown known.now }
    ensures { (own : List Numbered) (n : Name)
        → IsTaken (schema_in known.now) (of_set (WithSubtypes (schema_in known.now)
        (Holds (schema_in known.now) own)) n) taken
        → IfOk result (IsPath (schema_in known.now) (path_behind (schema_in known.now)
        (Holds (schema_in known.now) own) (attribute n (qualifiers_of qualifiers.now)))) }
{
    let begun = Reference {
        is_unclear: taken.is_unclear,
        may: taken.may,
        uses: taken.uses,
    };
    follow(alloc, known, begun, qualifiers)
}
