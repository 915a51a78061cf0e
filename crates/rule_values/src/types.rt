//! The requirements of data types on values, without the schema that declares them.

ghost use Rattle.std.specs.Prelude.{◌≡◌, ◌<◌, Some, IfOk, OnOk, if◌then◌else◌, length};
ghost use Rattle.step_values.specs.Views.{word_of};
ghost use Rattle.schema_semantics.specs.Names.{Name};
ghost use Rattle.schema_names.specs.Numbers.{number_of};
ghost use Rattle.schema_names.specs.Schemas.{the_schema};
ghost use Rattle.schema_underlying_types.specs.BaseEntries.{entry};
ghost use Rattle.schema_underlying_types.specs.Tables.{AreBases};
ghost use Rattle.rule_values.specs.NamedValues.{found, names_entry};
ghost use Rattle.rule_values.specs.TableValues.{number_base, named_base, element_base};
ghost use Rattle.rule_values.specs.Tables.{AreValueTypes};

use indexmap::IndexMap;
use schema_underlying_types::base::Base;
use schema_underlying_types::lookup::Bases;
use std::alloc::{AllocError, Global};
use std::hash::RandomState;
use step_literals::literal::Word;

/// The numbers of declarations by name. Hash keys are random, so that no text can be crafted to
/// have names that collide.
type Numbers<'r> = IndexMap<Word<'r>, u32, RandomState>;

/// The requirements of the data types of a schema on values, by number and by name.
#[derive(Drop)]
pub struct ValueTypes<'r> {
    by_number: &'r [Base],
    by_declaration: &'r [Base],
    numbers: Numbers<'r>,
}

/// Returns the element at index `number`; INTEGER if there is none.
fn entry(bases: &[Base], number: u32) -> &Base
    ensures { result.now ≡ entry bases.now number }
{
    match bases.get(number as usize) {
        Some(base) => base,
        None => &Base::Integer,
    }
}

/// Maps the name of the declaration numbered `number` to that number, in place of the number of a
/// later declaration with that name.
fn add_name<'r, 't, 'a: 'r>(
    numbers: &mut Numbers<'r>,
    bases: &Bases<'a, 't, 'r>,
    number: u32,
) -> Result<(), AllocError>
    requires { number < length bases.now.names.now.schema.now.declarations.items }
    ensures { OnOk result ((n : Name) → found numbers.new n
        ≡ (if names_entry (the_schema bases.now.names.now) number n then Some number
        else found numbers.old n)) }
{
    let Some(name) = bases.names.name(number) else {
        return Ok(());
    };
    numbers.insert(name, number)?;
    Ok(())
}

/// Returns the numbers of the declarations of a schema by name. If several have the same name, the
/// first counts.
fn numbers_of<'r, 't, 'a: 'r>(
    alloc: Global,
    keys: RandomState,
    bases: &Bases<'a, 't, 'r>,
) -> Result<Numbers<'r>, AllocError>
    ensures { IfOk result (λ m. (n : Name)
        → found m n ≡ number_of (the_schema bases.now.names.now) n) }
{
    let mut numbers: Numbers<'r> = IndexMap::with_hasher(alloc, keys);
    for i in (0..bases.names.len()).rev() {
        add_name(&mut numbers, bases, i as u32)?;
    }
    Ok(numbers)
}

impl<'r> ValueTypes<'r> {
    /// Returns the table of a schema, built from the tables of its data types. Names are hashed by
    /// `keys`.
    pub fn of<'t, 'a: 'r>(
        alloc: Global,
        keys: RandomState,
        bases: &Bases<'a, 't, 'r>,
    ) -> Result<ValueTypes<'r>, AllocError>
        requires bases { AreBases bases.now }
        ensures { IfOk result (AreValueTypes (the_schema bases.now.names.now)) }
    {
        let numbers = numbers_of(alloc, keys, bases)?;
        Ok(ValueTypes {
            by_number: &bases.table.by_number,
            by_declaration: &bases.table.by_declaration,
            numbers,
        })
    }

    /// Returns the underlying type of the data type numbered `number`; INTEGER if there is none.
    pub fn of_number(&self, number: u32) -> &'r Base
        ensures { result.now ≡ number_base self.now number }
    {
        entry(self.by_number, number)
    }

    /// Returns the underlying type of the type or entity called `name`; INTEGER if there is none.
    pub fn of_name(&self, name: Word<'_>) -> &'r Base
        ensures { result.now ≡ named_base self.now (word_of name.entry) }
    {
        match self.numbers.get(&name) {
            Some(number) => entry(self.by_declaration, *number),
            None => &Base::Integer,
        }
    }

    /// Returns the underlying type of the elements if `base` is an aggregate, otherwise `base`
    /// itself.
    pub fn of_elements<'p>(&self, base: &'p Base) -> &'p Base
    where
        'r: 'p,
        ensures { result.now ≡ element_base self.now base.now }
    {
        match *base {
            Base::Aggregate(aggregate) => self.of_number(aggregate.element),
            _ => base,
        }
    }
}
