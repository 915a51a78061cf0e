//! The tables of a schema that populations are checked by.

ghost use Rattle.std.specs.Prelude.{◌≡◌, IfOk};
ghost use Rattle.schema_types.specs.TypeTables.{IsMade};
ghost use Rattle.schema_underlying_types.specs.Tables.{AreBases};
ghost use Rattle.population_forms.specs.steps.Knowing.{AreKnown};
ghost use Rattle.population_forms.specs.steps.Tables.{AreTables};

use crate::forms::one_ofs;
use crate::knowledge::Knowledge;
use schema_data_types::forms::data_types;
use schema_data_types::shape_table::shapes;
use schema_explicit_attributes::supertype_lines::lines;
use schema_names::declaration_graphs::{part_graph, supertype_graph};
use schema_redeclarations::uses::{Sources, Uses, attribute_uses};
use schema_types::types::ResolvedTypes;
use schema_underlying_types::bases::{BaseTypes, base_types};
use schema_underlying_types::lookup::Bases;
use std::alloc::{AllocError, Global};

/// What a schema requires of values and of instances, by number.
#[derive(Drop)]
pub struct SchemaTables {
    pub base_types: BaseTypes,
    pub uses: Uses,
    /// For each ONEOF that is checked, the numbers of its operands.
    pub one_ofs: Vec<Vec<u32>>,
}

impl SchemaTables {
    /// Builds the tables of the schema whose resolved types are `types`.
    pub fn of(alloc: Global, types: &ResolvedTypes<'_, '_>) -> Result<SchemaTables, AllocError>
        requires made { IsMade types.now }
        ensures { IfOk result (AreTables types.now) }
    {
        let names = &types.names;
        let forms = data_types(alloc, names)?;
        let parts = part_graph(alloc, names)?;
        let base_types = base_types(alloc, names, &forms, &parts)?;
        let shapes = shapes(alloc, names, &forms, &parts)?;
        let supertypes = supertype_graph(alloc, names)?;
        let lines = lines(alloc, names, &supertypes)?;
        let uses = attribute_uses(
            alloc,
            &Sources {
                names,
                data_types: &forms,
                lines: &lines,
                shapes: &shapes,
                places: &types.places.attributes,
                own: &types.places.own,
            },
        )?;
        let one_ofs = one_ofs(alloc, names)?;
        Ok(SchemaTables {
            base_types,
            uses,
            one_ofs,
        })
    }

    /// Returns the requirements of the schema on values.
    pub fn bases<'r, 't, 'a>(&'r self, types: &'r ResolvedTypes<'a, 't>) -> Bases<'a, 't, 'r>
        requires made { IsMade types.now }
        requires tables { AreTables types.now self.now }
        ensures bases { AreBases result }
        ensures same { result.names.now ≡ types.now.names }
    {
        Bases {
            names: &types.names,
            table: &self.base_types,
        }
    }

    /// Returns the requirements of the schema on instances.
    pub fn knowledge<'r, 't, 'a>(
        &'r self,
        types: &'r ResolvedTypes<'a, 't>,
    ) -> Knowledge<'a, 't, 'r>
        requires made { IsMade types.now }
        requires tables { AreTables types.now self.now }
        ensures known { AreKnown result }
        ensures same { result.names.now ≡ types.now.names }
    {
        Knowledge {
            names: &types.names,
            above: &types.above,
            attributes: &types.places.attributes,
            places: &types.places.rows,
            own: &types.places.own,
            uses: &self.uses,
            one_ofs: &self.one_ofs,
        }
    }
}
