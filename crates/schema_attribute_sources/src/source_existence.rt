//! The existence of a meaning of a schema's attributes.

ghost use Rattle.std.specs.Prelude.{Option};
ghost use Rattle.schema_semantics.specs.Attributes.{Derivation};
ghost use Rattle.conformance.specs.Attributes.{
  Formula,
  Attributes,
  IsFormula,
  AreAttributes,
};
ghost use Rattle.schema_names.specs.Schemas.{the_schema};
ghost use Rattle.schema_attribute_sources.specs.SourceViews.{inverses_seen};
ghost use Rattle.schema_attribute_sources.specs.Tables.{AreResolvedSources};

use crate::sources::AttributeSources;
use schema_constraints::inverses::InverseAttribute;
use schema_types::types::ResolvedTypes;

/// The attributes of a schema have a meaning (an `Attributes`), if each of its derived attributes
/// has a formula (ISO 10303-11, 9.2.1 and 9.2.3).
pub fn attributes_are_said(
    schema: &ResolvedTypes<'_, '_>,
    sources: &AttributeSources,
    inverses: &[InverseAttribute<'_>],
)
    requires known { AreResolvedSources schema.now sources.now inverses.now }
    ensures { (formula : Derivation → Option Formula)
        → ((e : Derivation) → IsFormula (the_schema schema.now.names) e (formula e))
        → (attributes : Attributes) × AreAttributes (the_schema schema.now.names)
        (inverses_seen (the_schema schema.now.names) inverses.now) attributes }
{}
