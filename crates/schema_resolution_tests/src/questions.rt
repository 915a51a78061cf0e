//! Questions about a schema, with the expected answers.

ghost use Rattle.schema_semantics.specs.Faults.{IsResolved};
ghost use Rattle.schema_names.specs.Schemas.{the_schema};

use crate::attributes::{has_origins, has_rank};
use crate::lists::{Part, add_shapes, are_parts, declares};
use crate::values::has_types;
use express_reader::read_schema;
use express_syntax::tree::SchemaTree;
use schema_data_types::values::Atom;
use schema_resolution::resolution::resolve;
use schema_resolution::resolved_schema::ResolvedSchema;
use std::alloc::Global;
use std::hash::RandomState;
use std::random::RandomSource;

/// A question with the expected answer.
#[derive(Clone, Copy)]
pub(crate) enum Question {
    /// The parts that aren't checked whatever the expressions are. The names of the schema needn't
    /// be resolved.
    Declared(&'static [Part]),
    /// All parts that aren't checked.
    Listed(&'static [Part]),
    /// The rank of an entity's attribute, if the entity derives it.
    Rank(&'static [u8], &'static [u8], Option<u32>),
    /// For an entity and an attribute: the numbers of the entities that declare the attribute that
    /// is meant, and the one that an inverse attribute inverts.
    Origins(&'static [u8], &'static [u8], Option<u32>, Option<u32>),
    /// The numbers of two data types, and whether they are alike.
    Alike(u32, u32, bool),
    /// The number of a data type, and the values that it may have.
    Values(u32, &'static [Atom]),
}

/// The text of a schema.
#[derive(Clone, Copy)]
pub(crate) enum Text {
    Whole(&'static [u8]),
    /// The schema of shapes, with clauses of point, of solid, and after both.
    Shapes(&'static [u8], &'static [u8], &'static [u8]),
}

/// The text of a schema, and a question.
pub(crate) type Case = (Text, Question);

// Whether the expected answer is returned for a schema whose names are resolved.
fn is_answered(alloc: Global, graph: &ResolvedSchema<'_, '_>, question: Question) -> bool
    requires { IsResolved (the_schema graph.now.types.names) }
{
    match question {
        Question::Declared(_) => false,
        Question::Listed(parts) => are_parts(graph.unchecked(), parts),
        Question::Rank(entity, attribute, rank) => has_rank(graph, entity, attribute, rank),
        Question::Origins(..) => has_origins(alloc, &graph.types.names, question),
        Question::Alike(..) | Question::Values(..) => {
            has_types(alloc, &graph.types.names, question)
        }
    }
}

fn is_right_of(
    alloc: Global,
    keys: RandomState,
    schema: &SchemaTree<'_>,
    question: Question,
) -> bool {
    if let Question::Declared(parts) = question {
        return declares(alloc, &schema.declarations, parts);
    }
    let Ok(graph) = resolve(alloc, keys, schema) else {
        return false;
    };
    is_answered(alloc, &graph, question)
}

fn is_right_in(alloc: Global, keys: RandomState, text: &[u8], question: Question) -> bool {
    match read_schema(alloc, text) {
        Ok(schema) => is_right_of(alloc, keys, &schema, question),
        Err(_) => false,
    }
}

fn is_right_of_shapes(
    alloc: Global,
    keys: RandomState,
    of_point: &[u8],
    of_solid: &[u8],
    at_end: &[u8],
    question: Question,
) -> bool {
    let mut text = Vec::new(alloc);
    add_shapes(&mut text, of_point, of_solid, at_end).is_ok()
        && is_right_in(alloc, keys, &text, question)
}

fn is_right(alloc: Global, keys: RandomState, case: Case) -> bool {
    let (text, question) = case;
    match text {
        Text::Whole(text) => is_right_in(alloc, keys, text, question),
        Text::Shapes(of_point, of_solid, at_end) => {
            is_right_of_shapes(alloc, keys, of_point, of_solid, at_end, question)
        }
    }
}

/// Returns the number of the first case with another answer, if any; the number of cases if there
/// are no keys.
pub(crate) fn wrong_case(rt: &impl RandomSource, alloc: Global, cases: &[Case]) -> Option<usize> {
    let Ok(keys) = RandomState::new(rt) else {
        return Some(cases.len());
    };
    for i in 0..cases.len() {
        if !is_right(alloc, keys, cases[i]) {
            return Some(i);
        }
    }
    None
}
