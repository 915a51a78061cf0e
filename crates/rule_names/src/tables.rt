//! The tables by which expressions are evaluated.

ghost use Rattle.std.specs.Prelude.{IfOk};
ghost use Rattle.schema_types.specs.TypeTables.{IsMade};
ghost use Rattle.population_forms.specs.steps.Tables.{AreTables};
ghost use Rattle.rule_names.specs.Tables.{AreSettingTables};

use crate::declared_types::declared_bases;
use population_forms::tables::SchemaTables;
use rule_values::types::ValueTypes;
use schema_attribute_sources::sources::AttributeSources;
use schema_constraints::inverses::InverseAttribute;
use schema_data_types::forms::{DataTypes, data_types};
use schema_data_types::items::Items;
use schema_redeclarations::uses::Uses;
use schema_types::types::ResolvedTypes;
use schema_underlying_types::base::Base;
use std::alloc::{AllocError, Global};
use std::hash::RandomState;

/// What expressions need to know of a schema, by number.
#[derive(Drop)]
pub struct SettingTables<'r, 'a> {
    /// The requirements of data types on values.
    pub value_types: ValueTypes<'r>,
    /// Where the values of attributes are found.
    pub sources: AttributeSources,
    /// The underlying type with which each explicit attribute is declared, by number.
    pub declared: Vec<Base>,
    /// The declarations of attributes by the entities of the schema.
    pub uses: &'r Uses,
    /// The data types of the schema.
    pub data_types: DataTypes,
    /// The items of the enumerations of the schema.
    pub items: Items<'a>,
}

impl<'r, 'a: 'r> SettingTables<'r, 'a> {
    /// Builds the tables of the schema whose resolved types, inverse attributes and tables are
    /// given. Names are hashed by `keys`.
    pub fn of<'t>(
        alloc: Global,
        keys: RandomState,
        types: &'r ResolvedTypes<'a, 't>,
        inverses: &[InverseAttribute<'_>],
        tables: &'r SchemaTables,
    ) -> Result<SettingTables<'r, 'a>, AllocError>
        requires made { IsMade types.now }
        requires tables { AreTables types.now tables.now }
        ensures { IfOk result (AreSettingTables types.entry.now) }
    {
        let bases = tables.bases(types);
        let value_types = ValueTypes::of(alloc, keys, &bases)?;
        let sources = AttributeSources::of(alloc, types, inverses)?;
        let declared = declared_bases(alloc, keys, types, tables)?;
        let data_types = data_types(alloc, &types.names)?;
        let items = Items::of(alloc, keys, &types.names)?;
        Ok(SettingTables {
            value_types,
            sources,
            declared,
            uses: &tables.uses,
            data_types,
            items,
        })
    }
}
