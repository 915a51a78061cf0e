//! The count of attribute declarations in a schema. It serves as a capacity only.

use express_syntax::tree::{Declaration, Entity, Explicit};

/// Returns the count of attributes that `explicits` declare.
fn explicit_count(explicits: &[Explicit<'_>]) -> usize {
    let mut count: usize = 0;
    for explicit in explicits {
        count = count.saturating_add(explicit.attributes.as_slice().len());
    }
    count
}

/// Returns the count of attributes that `entity` declares, of all classes.
fn entity_count(entity: &Entity<'_>) -> usize {
    explicit_count(&entity.explicits)
        .saturating_add(entity.derived_attributes().len())
        .saturating_add(entity.inverse_attributes().len())
}

/// Returns the count of attributes that the entities among `declarations` declare.
pub fn attribute_count(declarations: &[Declaration<'_>]) -> usize {
    let mut count: usize = 0;
    for declaration in declarations {
        if let Declaration::Entity(entity) = declaration {
            count = count.saturating_add(entity_count(entity));
        }
    }
    count
}
