//! The data types by which values are searched.

ghost use Rattle.std.specs.Prelude.{◌≡◌};
ghost use Rattle.step_values.specs.Views.{word_of};
ghost use Rattle.rule_plans.specs.steps.Coded as coded;
ghost use Rattle.rule_plans.specs.steps.Coded.{named_in, named_at, elements_of};

use crate::searched_types::wanted_in;
use rule_values::types::ValueTypes;
use schema_data_types::forms::Form;
use schema_names::names::Names;
use schema_underlying_types::base::Base;
use step_literals::literal::Word;

/// A data type by which a value is searched.
#[derive(Clone, Copy)]
pub(crate) struct Sought {
    /// The number of the defined type that the data type names, if that type is wanted.
    pub declared: Option<u32>,
    /// The underlying type.
    pub base: Base,
}

/// A schema, and its wanted types.
#[derive(Drop)]
pub(crate) struct Seeker<'a, 't, 'n, 'r, 'p> {
    pub names: &'n Names<'a, 't>,
    pub types: &'p ValueTypes<'r>,
    /// The data types of the schema.
    pub forms: &'n [Form],
    /// For each declaration, whether it is a defined type whose values are wanted.
    pub wanted: &'n [bool],
}

/// Returns the number of the type or entity that a data type names, if it is a name.
fn named_in(form: Form) -> Option<u32>
    ensures { result ≡ named_in form }
{
    match form {
        Form::Named(number) => number,
        _ => None,
    }
}

/// Returns the number of the type or entity that the data type numbered `number` names, if it is a
/// name.
fn named_at(forms: &[Form], number: u32) -> Option<u32>
    ensures { result ≡ named_at forms.now number }
{
    match forms.get(number as usize) {
        Some(form) => named_in(*form),
        None => None,
    }
}

impl<'a, 't, 'n, 'r, 'p> Seeker<'a, 't, 'n, 'r, 'p> {
    /// Returns the data type numbered `number`.
    pub(crate) fn by_number(&self, number: u32) -> Sought
        ensures { result ≡ coded.by_number self.now number }
    {
        let declared = wanted_in(self.wanted, named_at(self.forms, number));
        let base = *self.types.of_number(number);
        Sought { declared, base }
    }

    /// Returns the type called `name`.
    pub(crate) fn by_name(&self, name: Word<'_>) -> Sought
        ensures { result ≡ coded.by_name self.now (word_of name.entry) }
    {
        let declared = wanted_in(self.wanted, self.names.find(name));
        let base = *self.types.of_name(name);
        Sought { declared, base }
    }

    /// Returns the data type of the elements of an aggregate, and any other data type itself.
    pub(crate) fn elements_of(&self, sought: Sought) -> Sought
        ensures { result ≡ elements_of self.now sought }
    {
        match sought.base {
            Base::Aggregate(aggregate) => self.by_number(aggregate.element),
            _ => sought,
        }
    }
}
