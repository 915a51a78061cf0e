//! Questions about the text of a schema, with the expected answers.

use crate::names::{are_kinds, has_places};
use crate::trees::{entities_are_read, has_bounds, is_function_kept, is_set_aside, types_are_read};
use express_reader::fault::{FaultKind, NameFault, SchemaFault};
use express_reader::read_schema;
use express_reader::tree::SchemaTree;
use schema_types::resolution::resolve_types;
use schema_types::types::ResolvedTypes;
use std::alloc::Global;
use std::hash::RandomState;
use std::random::RandomSource;

/// A question with the expected answer.
#[derive(Clone, Copy)]
pub(crate) enum Question {
    /// The first fault of the text, and its byte offset.
    Text(FaultKind, u64),
    /// The fault of names, and the name.
    Name(NameFault, &'static str),
    /// Whether the text is a schema.
    Schema,
    /// Whether the types of `GEO` are read.
    Types,
    /// Whether entities of `GEO` have their clauses.
    Entities,
    /// Whether the tokens of `GEO`'s function are kept.
    Function,
    /// Whether the tokens of the second of two rules are kept.
    SetAside,
    /// The integer bounds of the schema's first type, an array.
    Bounds(Option<i64>, Option<i64>),
    /// The attributes of an entity, each as the declaring entity and the name.
    Places(&'static [u8], &'static [(&'static [u8], &'static [u8])]),
    /// Whether an entity is a kind of another.
    Kind(&'static [u8], &'static [u8], bool),
}

/// A text and a question.
pub(crate) type Case = (&'static [u8], Question);

fn is_fault(fault: &SchemaFault, question: Question) -> bool {
    match (fault, question) {
        (SchemaFault::Text { kind, place }, Question::Text(wanted, there)) => {
            *kind == wanted && *place == there
        }
        (SchemaFault::Name { kind, name }, Question::Name(wanted, called)) => {
            *kind == wanted && name.as_str() == called
        }
        _ => false,
    }
}

// Whether the expected answer is returned for a schema whose names are resolved.
fn is_answered(types: &ResolvedTypes<'_, '_>, question: Question) -> bool {
    match question {
        Question::Places(entity, places) => has_places(types, entity, places),
        Question::Kind(lower, upper, wanted) => are_kinds(types, lower, upper, wanted),
        _ => false,
    }
}

fn is_right_by(
    alloc: Global,
    keys: RandomState,
    schema: &SchemaTree<'_>,
    question: Question,
) -> bool {
    match resolve_types(alloc, keys, schema) {
        Ok(types) => is_answered(&types, question),
        Err(fault) => is_fault(&fault, question),
    }
}

fn is_right_of(
    alloc: Global,
    keys: RandomState,
    schema: &SchemaTree<'_>,
    question: Question,
) -> bool {
    match question {
        Question::Text(..) => false,
        Question::Schema => true,
        Question::Types => types_are_read(schema),
        Question::Entities => entities_are_read(schema),
        Question::Function => is_function_kept(schema),
        Question::SetAside => is_set_aside(schema),
        Question::Bounds(lower, upper) => has_bounds(schema, lower, upper),
        _ => is_right_by(alloc, keys, schema, question),
    }
}

fn is_right(alloc: Global, keys: RandomState, case: Case) -> bool {
    let (text, question) = case;
    match read_schema(alloc, text) {
        Ok(schema) => is_right_of(alloc, keys, &schema, question),
        Err(fault) => is_fault(&fault, question),
    }
}

/// Returns the number of the first case with another answer, if any; the number of cases if there
/// are no keys.
pub(crate) fn wrong_case(rt: &impl RandomSource, alloc: Global, cases: &[Case]) -> Option<usize> {
    let Ok(keys) = RandomState::new(rt) else {
        return Some(cases.len());
    };
    for i in 0..cases.len() {
        if !is_right(alloc, keys, cases[i]) {
            return Some(i);
        }
    }
    None
}
