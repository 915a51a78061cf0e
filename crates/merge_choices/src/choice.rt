//! Choices of entities by name, and the chosen entities of a schema.

ghost use Rattle.std.specs.Prelude.{◌≡◌, IfOk, None, MatchResult, map, string_bytes};
ghost use Rattle.conformance.specs.Choices.{unknown_choice, merge_options};
ghost use Rattle.schema_names.specs.Schemas.{the_schema};
ghost use Rattle.merge_choices.specs.ChosenEntities.{choice_of, is_chosen, AreChosen, AreOfEntities, IsChoiceFault};

use crate::marks::chosen_of;
use crate::names::{unknown_fault, unknown_name};
use express_syntax::fault::SchemaFault;
use schema_types::types::ResolvedTypes;
use std::alloc::{AllocError, Global};

/// The entities whose instances may be merged.
#[derive(Drop)]
pub enum Names {
    /// The points, directions and placements of published schemas, as far as a schema has them.
    Usual,
    /// Those of these words, regardless of case: each is a preset, such as `@styles`, or the name of
    /// an entity.
    Given(Vec<String>),
}

/// The instances that may be merged, the names by which a file may call the schema, and whether a
/// schema with unchecked parts is refused.
#[derive(Drop)]
pub struct Choice {
    /// The entities whose instances may be merged.
    pub names: Names,
    /// Whether an instance may be merged that stands alone in a SET or BAG.
    pub in_sets: bool,
    /// The names by which the file may call the schema beside its own, in any case. An empty one is
    /// ignored.
    pub other_names: Vec<String>,
    /// Whether a schema with unchecked parts is refused.
    pub strict: bool,
}

/// The entities that a choice names, by the numbers of their declarations, and what it says of SETs
/// and BAGs.
#[derive(Drop)]
pub struct Chosen {
    /// Whether an instance may be merged that stands alone in a SET or BAG.
    pub in_sets: bool,
    /// By declaration, whether it is a chosen entity.
    pub(crate) marks: Vec<bool>,
}

impl Choice {
    /// Returns a copy of the other names of the schema.
    pub fn copy_other_names(&self) -> Result<Vec<String>, AllocError>
        ensures { IfOk result (λ names. map string_bytes names.items
            ≡ (choice_of self.now).other_names) }
    {
        self.other_names.clone()
    }

    /// Returns the entities of a schema that this choice names. Names of presets that the schema
    /// lacks are ignored, and so is `strict`. The running time is proportional to the number of
    /// declarations times the number of names.
    ///
    /// # Errors
    ///
    /// - `Name` with `UnknownName` and the first given word, in capitals, that is neither a preset nor
    ///   an entity of the schema,
    /// - `Memory` if memory runs out.
    pub fn settle(
        &self,
        alloc: Global,
        types: &ResolvedTypes<'_, '_>,
    ) -> Result<Chosen, SchemaFault>
        ensures { let s = the_schema types.now.names in
            let choice = choice_of self.now in
            MatchResult result (λ c. (unknown_choice s choice ≡ None)
            × (AreChosen s (merge_options s choice) c × AreOfEntities s c))
            (IsChoiceFault s choice) }
    {
        let schema = types.names.schema;
        if let Some(name) = unknown_name(&self.names, schema) {
            return Err(unknown_fault(alloc, name));
        }
        match chosen_of(alloc, self, schema) {
            Ok(chosen) => Ok(chosen),
            Err(_) => Err(SchemaFault::Memory),
        }
    }
}

impl Chosen {
    /// Whether the declaration with this number is a chosen entity; false for a number that no
    /// declaration has. It allocates nothing.
    pub fn contains(&self, entity: u32) -> bool
        ensures { result ≡ is_chosen self.now entity }
    {
        match self.marks.get(entity as usize) {
            Some(mark) => *mark,
            None => false,
        }
    }
}
