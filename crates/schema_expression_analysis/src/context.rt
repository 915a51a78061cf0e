//! The scope of an expression, without variables.

ghost use Rattle.std.specs.Prelude.{◌≡◌};
ghost use Rattle.schema_attribute_references.specs.steps.Taking.{schema_in};
ghost use Rattle.schema_expression_types.specs.steps.Scopes.{IsScope, own_in, variables_in, inside};
ghost use Rattle.schema_expression_analysis.specs.steps.Questions.{IsContext, own_of_context};

use schema_attribute_references::schema_facts::Known;
use schema_data_types::items::Items;
use schema_data_types::values::Atom;
use schema_expression_types::scope::{Scope, Variable};

/// The scope of an expression, without variables.
#[derive(Clone, Copy)]
pub(crate) struct Context<'a, 't, 'r> {
    pub known: Known<'a, 't, 'r>,
    pub items: &'r Items<'a>,
    /// The possible values of SELF.
    pub own: &'r [Atom],
}

impl<'a, 't, 'r> Context<'a, 't, 'r> {
    /// Returns the scope with these variables.
    pub(crate) fn with<'v>(&self, variables: &'v [Variable<'a>]) -> Scope<'a, 't, 'r, 'v>
        requires { IsContext self.now }
        ensures scope { IsScope result }
        ensures schema { schema_in result.known ≡ schema_in self.now.known }
        ensures own { result.own.now ≡ self.now.own.now }
        ensures variables { result.variables.now ≡ variables.now }
    {
        Scope {
            known: self.known,
            items: self.items,
            own: self.own,
            variables,
        }
    }
}
