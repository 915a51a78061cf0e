//! The table of sources, built once for all instances of a form.

ghost use Rattle.std.specs.Prelude.{◌≡◌, List, Some, IfOk, OnOk, IfSome};
ghost use Rattle.express_syntax.specs.Schemas.{Schema};
ghost use Rattle.express_syntax.specs.Profile.{Every};
ghost use Rattle.express_syntax.specs.ExpressionViews.{capitals};
ghost use Rattle.schema_names.specs.Schemas.{the_schema};
ghost use Rattle.population_rows.specs.steps.Positions.{ArePositions};
ghost use Rattle.population_rows.specs.declared.form.Form.{Form};
ghost use Rattle.conformance.specs.Rules.{InverseAttribute as InverseTree};
ghost use Rattle.typed_populations.specs.PopulationTables.{form_among, AreNumbered};
ghost use Rattle.schema_attribute_sources.specs.SourceViews.{inverses_seen};
ghost use Rattle.schema_attribute_sources.specs.Tables.{AreResolvedSources};
ghost use Rattle.rule_sources.specs.Sources.{
  form_source,
  IsFormSource,
  IsNamedSource,
  AreNamedSources,
  AreFormSources,
};

use express_syntax::tree::{Declaration, Derived, Inverse};
use population_rows::form::{Form, SlotForm};
use population_rows::index::RowIndex;
use population_rows::positions::{FEW, positions};
use schema_attribute_sources::source::Source;
use schema_attribute_sources::sources::{AttributeSources, attribute_source};
use schema_constraints::inverses::InverseAttribute;
use schema_types::types::ResolvedTypes;
use std::alloc::{AllocError, Global};
use std::hash::RandomState;
use step_literals::literal::Word;

/// A form has no row if it has more than this many names and more than this many types for each of
/// its instances.
const MANY: usize = 64;

/// Where instances of a form have the value of an attribute.
#[derive(Clone, Copy)]
pub enum FormSource {
    /// The explicit attribute numbered `place`, at `position` among the values of an instance.
    Explicit { place: u32, position: usize },
    Other(Source),
}

/// Where instances of a form have the value of the attribute called `name`.
#[derive(Clone, Copy)]
pub struct NamedSource<'s> {
    pub name: Word<'s>,
    pub source: FormSource,
}

/// Where instances of each form have the values of their attributes: the explicit attributes of the
/// form, and the derived and inverse attributes that its types declare. Each row is sorted by
/// attribute name. It is empty if the form has many names and many types, but few instances.
#[derive(Drop)]
pub struct FormSources<'s> {
    pub rows: Vec<Vec<NamedSource<'s>>>,
}

/// The tables of a schema that find the source of an attribute's value.
#[derive(Clone, Copy)]
struct SourceTables<'i, 'r> {
    sources: &'r AttributeSources,
    /// The inverse attributes of the schema.
    inverses: &'r [InverseAttribute<'i>],
}

/// Returns where instances of a form have the value of `source`. `positions` finds the explicit
/// attributes of the form.
fn form_source(positions: &RowIndex, source: Source) -> FormSource
    ensures { (form : Form) → ArePositions form.slots.items positions.now
        → result ≡ form_source form.slots.items source }
{
    let Source::Explicit(place) = source else {
        return FormSource::Other(source);
    };
    match positions.find(place as u64) {
        Some(position) => FormSource::Explicit {
            place,
            position: position as usize,
        },
        None => FormSource::Other(source),
    }
}

/// Returns where instances of `form` have the value of their attribute called `name`, if they have
/// one.
fn named_source<'s>(
    schema: &ResolvedTypes<'s, '_>,
    tables: &SourceTables<'_, '_>,
    form: &Form,
    positions: &RowIndex,
    name: Word<'s>,
) -> Option<NamedSource<'s>>
    requires known { AreResolvedSources schema.now tables.now.sources.now tables.now.inverses.now }
    requires numbered { AreNumbered (the_schema schema.now.names) form.now }
    requires positions { ArePositions form.now.slots.items positions.now }
    ensures { IfSome result (IsNamedSource (the_schema schema.now.names)
        (inverses_seen (the_schema schema.now.names) tables.now.inverses.now) form.now) }
{
    match attribute_source(schema, tables.sources, tables.inverses, &form.types, name) {
        Some(source) => Some(NamedSource {
            name,
            source: form_source(positions, source),
        }),
        None => None,
    }
}

/// Adds where instances of `form` have the value of their attribute called `name`, if they have
/// one.
fn add_named<'s>(
    schema: &ResolvedTypes<'s, '_>,
    row: &mut Vec<NamedSource<'s>>,
    tables: &SourceTables<'_, '_>,
    form: &Form,
    positions: &RowIndex,
    name: Word<'s>,
) -> Result<(), AllocError>
    requires known { AreResolvedSources schema.now tables.now.sources.now tables.now.inverses.now }
    requires numbered { AreNumbered (the_schema schema.now.names) form.now }
    requires positions { ArePositions form.now.slots.items positions.now }
    requires row { let s = the_schema schema.now.names in
        AreNamedSources s (inverses_seen s tables.now.inverses.now) form.now row.old.items }
    ensures { let s = the_schema schema.now.names in OnOk result
        (AreNamedSources s (inverses_seen s tables.now.inverses.now) form.now row.new.items) }
{
    let Some(named) = named_source(schema, tables, form, positions, name) else {
        return Ok(());
    };
    row.push(named)?;
    Ok(())
}

/// Adds the name of the explicit attribute numbered `number`.
fn add_place<'s>(
    schema: &ResolvedTypes<'s, '_>,
    names: &mut Vec<Word<'s>>,
    number: u32,
) -> Result<(), AllocError> {
    if let Some(place) = schema.places.attributes.get(number as usize) {
        names.push(*place.attribute)?;
    }
    Ok(())
}

/// Adds the names of the explicit attributes `slots`.
fn add_slots<'s>(
    schema: &ResolvedTypes<'s, '_>,
    names: &mut Vec<Word<'s>>,
    slots: &[SlotForm],
) -> Result<(), AllocError> {
    for slot in slots {
        add_place(schema, names, slot.place)?;
    }
    Ok(())
}

/// Adds the names of derived attributes.
fn add_derived<'s>(
    names: &mut Vec<Word<'s>>,
    attributes: &[Derived<'s>],
) -> Result<(), AllocError> {
    for each in attributes {
        names.push(each.attribute.name())?;
    }
    Ok(())
}

/// Adds the names of inverse attributes.
fn add_inverse<'s>(
    names: &mut Vec<Word<'s>>,
    attributes: &[Inverse<'s>],
) -> Result<(), AllocError> {
    for each in attributes {
        names.push(each.attribute.name())?;
    }
    Ok(())
}

/// Adds the names of the derived and inverse attributes of `declaration`, if it is an entity.
fn add_declared<'s>(
    names: &mut Vec<Word<'s>>,
    declaration: &Declaration<'s>,
) -> Result<(), AllocError> {
    let Declaration::Entity(entity) = declaration else {
        return Ok(());
    };
    add_derived(names, entity.derived_attributes())?;
    add_inverse(names, entity.inverse_attributes())
}

/// Adds the names of the derived and inverse attributes of the declaration numbered `number`.
fn add_type<'s>(
    schema: &ResolvedTypes<'s, '_>,
    names: &mut Vec<Word<'s>>,
    number: u32,
) -> Result<(), AllocError> {
    match schema.names.at(number) {
        Some(declaration) => add_declared(names, declaration),
        None => Ok(()),
    }
}

/// Adds the names of the derived and inverse attributes of `types`.
fn add_types<'s>(
    schema: &ResolvedTypes<'s, '_>,
    names: &mut Vec<Word<'s>>,
    types: &[u32],
) -> Result<(), AllocError> {
    for number in types {
        add_type(schema, names, *number)?;
    }
    Ok(())
}

/// Returns the names of the explicit attributes of `form` and of the derived and inverse attributes
/// that its types declare or redeclare, sorted and each once.
fn attribute_names<'s>(
    alloc: Global,
    schema: &ResolvedTypes<'s, '_>,
    form: &Form,
) -> Result<Vec<Word<'s>>, AllocError> {
    let mut names = Vec::new(alloc);
    add_slots(schema, &mut names, &form.slots)?;
    add_types(schema, &mut names, &form.types)?;
    names.sort_unstable();
    names.dedup();
    Ok(names)
}

/// Returns where instances of `form` have the values of the attributes called `names`, in order.
fn named_sources<'s>(
    alloc: Global,
    schema: &ResolvedTypes<'s, '_>,
    tables: &SourceTables<'_, '_>,
    form: &Form,
    positions: &RowIndex,
    names: &[Word<'s>],
) -> Result<Vec<NamedSource<'s>>, AllocError>
    requires known { AreResolvedSources schema.now tables.now.sources.now tables.now.inverses.now }
    requires numbered { AreNumbered (the_schema schema.now.names) form.now }
    requires positions { ArePositions form.now.slots.items positions.now }
    ensures { IfOk result (λ t. AreNamedSources (the_schema schema.now.names)
        (inverses_seen (the_schema schema.now.names) tables.now.inverses.now) form.now t.items) }
{
    let mut row: Vec<NamedSource<'s>> = Vec::new(alloc);
    for name in names {
        add_named(schema, &mut row, tables, form, positions, *name)?;
    }
    Ok(row)
}

/// Whether a form has many names and many types compared with its instances. The time for a row is
/// the product of names and types, which is too much if both are many and hardly any name is looked
/// up.
fn are_many(names: usize, types: usize, instances: usize) -> bool {
    names / MANY > instances && types / MANY > instances
}

/// Returns where `count` instances of `form` have the values of their attributes, sorted by name;
/// empty if the form has many names and many types compared with `count`.
fn form_row<'s>(
    alloc: Global,
    keys: RandomState,
    schema: &ResolvedTypes<'s, '_>,
    tables: &SourceTables<'_, '_>,
    form: &Form,
    count: usize,
) -> Result<Vec<NamedSource<'s>>, AllocError>
    requires known { AreResolvedSources schema.now tables.now.sources.now tables.now.inverses.now }
    requires numbered { AreNumbered (the_schema schema.now.names) form.now }
    ensures { IfOk result (λ t. AreNamedSources (the_schema schema.now.names)
        (inverses_seen (the_schema schema.now.names) tables.now.inverses.now) form.now t.items) }
{
    let names = attribute_names(alloc, schema, form)?;
    if are_many(names.len(), form.types.len(), count) {
        return Ok(Vec::new(alloc));
    }
    let positions = positions(alloc, keys, &form.slots)?;
    named_sources(alloc, schema, tables, form, &positions, &names)
}

/// Counts an instance of `form`.
fn count_instance(counts: &mut [usize], form: Option<u32>) {
    let Some(form) = form else {
        return;
    };
    if let Some(count) = counts.get_mut(form as usize) {
        *count = count.saturating_add(1);
    }
}

/// Returns the number of instances of each of `forms` forms. `form_of` has the form of each
/// instance.
fn instance_counts(
    alloc: Global,
    forms: usize,
    form_of: &[Option<u32>],
) -> Result<Vec<usize>, AllocError> {
    let mut counts = vec![in alloc; 0; forms]?;
    for form in form_of {
        count_instance(&mut counts, *form);
    }
    Ok(counts)
}

/// Returns the number of instances of `form`.
fn count_of(counts: &[usize], form: usize) -> usize {
    match counts.get(form) {
        Some(count) => *count,
        None => 0,
    }
}

/// Returns the element of `row` at index `at`, if it is called `name`.
fn named_at<'n, 's>(
    row: &'n [NamedSource<'s>],
    at: usize,
    name: Word<'_>,
) -> Option<&'n NamedSource<'s>>
    ensures { (s : Schema) (inverses : List InverseTree) (form : Form)
        → AreNamedSources s inverses form row.entry.now
        → IfSome result (λ x. IsFormSource s inverses (Some form)
        (capitals name.entry) x.now.source) }
{
    let Some(each) = row.get(at) else {
        return None;
    };
    if each.name == name { Some(each) } else { None }
}

/// Returns the index of the first element of `row`, which is sorted, whose name isn't less than
/// `name`.
fn searched(row: &[NamedSource<'_>], name: Word<'_>) -> usize {
    row.partition_point(|each| each.name < name)
}

/// Returns the first element of `row` whose name is spelled like `name`, including the case of each
/// letter. `None` doesn't mean that there is no such attribute.
fn find_spelt<'n, 's>(row: &'n [NamedSource<'s>], name: Word<'_>) -> Option<&'n NamedSource<'s>>
    ensures { (s : Schema) (inverses : List InverseTree) (form : Form)
        → AreNamedSources s inverses form row.entry.now
        → IfSome result (λ x. IsFormSource s inverses (Some form)
        (capitals name.entry) x.now.source) }
{
    for each in row {
        if each.name.spelling() == name.spelling() {
            return Some(each);
        }
    }
    None
}

/// Returns the first element of `row` whose name is spelled like `name`, if the row is short.
/// `None` doesn't mean that there is no such attribute.
fn find_among_few<'n, 's>(row: &'n [NamedSource<'s>], name: Word<'_>) -> Option<&'n NamedSource<'s>>
    ensures { (s : Schema) (inverses : List InverseTree) (form : Form)
        → AreNamedSources s inverses form row.entry.now
        → IfSome result (λ x. IsFormSource s inverses (Some form)
        (capitals name.entry) x.now.source) }
{
    if row.len() > FEW {
        return None;
    }
    find_spelt(row, name)
}

/// Returns the element of `row`, which is sorted, called `name`. Tries the exact spelling first,
/// because expressions mostly spell names as they are declared. `None` doesn't mean that there is
/// no such attribute.
fn find_in<'n, 's>(row: &'n [NamedSource<'s>], name: Word<'_>) -> Option<&'n NamedSource<'s>>
    ensures { (s : Schema) (inverses : List InverseTree) (form : Form)
        → AreNamedSources s inverses form row.entry.now
        → IfSome result (λ x. IsFormSource s inverses (Some form)
        (capitals name.entry) x.now.source) }
{
    match find_among_few(row, name) {
        Some(named) => Some(named),
        None => named_at(row, searched(row, name), name),
    }
}

impl<'s> FormSources<'s> {
    /// Builds the table of `forms`, whose types are those of `schema`. `form_of` has the number of
    /// the form of each instance. Attributes are hashed by `keys`.
    pub fn of(
        alloc: Global,
        keys: RandomState,
        schema: &ResolvedTypes<'s, '_>,
        sources: &AttributeSources,
        inverses: &[InverseAttribute<'_>],
        forms: &[Form],
        form_of: &[Option<u32>],
    ) -> Result<FormSources<'s>, AllocError>
        requires known { AreResolvedSources schema.now sources.now inverses.now }
        requires numbered { Every (AreNumbered (the_schema schema.now.names)) forms.now }
        ensures { IfOk result (AreFormSources (the_schema schema.now.names)
            (inverses_seen (the_schema schema.now.names) inverses.now) forms.now) }
    {
        let tables = SourceTables { sources, inverses };
        let counts = instance_counts(alloc, forms.len(), form_of)?;
        let mut rows = Vec::new(alloc);
        for n in 0..forms.len() {
            let count = count_of(&counts, n);
            let row = form_row(alloc, keys, schema, &tables, &forms[n], count)?;
            rows.push(row)?;
        }
        Ok(FormSources { rows })
    }

    /// Returns where instances of `form` have the value of their attribute called `name`. `None`
    /// means that the table doesn't have it, not that there is no such attribute. Allocates no
    /// memory.
    pub fn find(&self, form: Option<u32>, name: Word<'_>) -> Option<&NamedSource<'s>>
        ensures { (s : Schema) (inverses : List InverseTree) (forms : List Form)
            → AreFormSources s inverses forms self.now
            → IfSome result (λ x. IsFormSource s inverses (form_among forms form)
            (capitals name.entry) x.now.source) }
    {
        let Some(number) = form else {
            return None;
        };
        match self.rows.get(number as usize) {
            Some(row) => find_in(row, name),
            None => None,
        }
    }
}
