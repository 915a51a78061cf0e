//! Verifying an output, from four texts and a choice.

ghost use Rattle.merge_choices.specs.ChosenEntities.{choice_of};
ghost use Rattle.verifying.specs.Verifying.{Verifies};

use crate::input::{Claim, verify_input};
use crate::proof::Proof;
use express_reader::read_schema;
use merge_choices::choice::Choice;
use reports::fault::{Fault, of_schema};
use resources::Resources;
use schema_resolution::resolution::resolve;

/// Tests whether `certificate` proves that `output` conforms to the schema and is a least image of
/// `input`. Instances of the chosen entity data types may be merged. Returns the numbers of the
/// proof. It doesn't matter what program wrote output and certificate, nor whether the choice is
/// strict.
///
/// The function doesn't test the limits of 2^40 bytes; `verify_files` does. To save memory, it
/// frees the certificate once its tables are read. Before the output is read, it frees all of the
/// input's structure except the headings of its sections. Names and keys of rules are hashed with the
/// keys of `resources`.
///
/// # Errors
/// The first of these:
///
/// - `Schema` if the text of the schema has a fault.
/// - `Schema` if a name in the schema is at fault.
/// - `Schema` with `UnknownName` if a chosen name isn't an entity data type of the schema.
/// - `Text` of the input if its text has a fault.
/// - `Refused` of the input if it breaks the schema, its rules included.
/// - `Text` of the output if its text has a fault.
/// - `Refused` of the output if its header or its instances, one by one, have findings.
/// - `Certificate(OldVersion)` if the certificate is of version 1.
/// - `Certificate(BadText)` if the text isn't a certificate.
/// - `Certificate`, for the first table under the weak pins of the input, then for the second table
///   under the gentle pins that the first one gives: `WrongNames` if the members of the table
///   aren't the input's instances, `GroundlessSplit` if a split has no ground, `Unstable` if the
///   last round isn't stable.
/// - `Certificate(NotTheImage)` if the output isn't the input with the classes of the second table
///   merged, or the headings of its sections differ.
///
/// `Memory` if memory runs out, at any time.
pub fn verify<'s>(
    resources: Resources,
    schema: &'s [u8],
    input: &[u8],
    output: &[u8],
    choice: &Choice,
    certificate: Vec<u8>,
) -> Result<Proof, Fault<'s>>
    ensures { Verifies schema.now input.now output.now certificate.items
        (choice_of choice.now) result }
{
    let claim = Claim {
        output,
        certificate,
    };
    let tree = match read_schema(resources.alloc, schema) {
        Ok(tree) => tree,
        Err(fault) => return Err(of_schema(fault)),
    };
    let other_names = match choice.copy_other_names() {
        Ok(names) => names,
        Err(_) => return Err(Fault::Memory),
    };
    let named = tree.with_other_names(other_names);
    let graph = match resolve(resources.alloc, resources.keys, &named) {
        Ok(graph) => graph,
        Err(fault) => return Err(of_schema(fault)),
    };
    let chosen = match choice.settle(resources.alloc, &graph.types) {
        Ok(chosen) => chosen,
        Err(fault) => return Err(of_schema(fault)),
    };
    verify_input(resources, &graph, &chosen, input, claim)
}
