//! The supertypes of an entity (ISO 10303-11, 9.2.3.3).

ghost use Rattle.std.specs.Prelude.{◌≡◌, Some};
ghost use Rattle.graphs.specs.Graphs.{graph_of};
ghost use Rattle.schema_explicit_attributes.specs.Supertypes.{is_or_leads};

/// Whether the numbers are equal, or `upper` is in the row of `lower`.
pub fn is_or_leads(above: &[Vec<u32>], lower: u32, upper: u32) -> bool
    ensures { result ≡ is_or_leads (graph_of above.now) (Some lower) upper }
{
    if lower == upper {
        return true;
    }
    match above.get(lower as usize) {
        Some(uppers) => uppers.contains(&upper),
        None => false,
    }
}
