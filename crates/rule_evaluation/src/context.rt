//! What an expression is evaluated with.

use crate::derived_values::KeptValues;
use rule_settings::setting::Setting;
use rule_values::element::Element;

/// What an expression can look up, SELF, and the rank below which derived attributes have values.
/// For the condition of a rule, that limit is above all ranks.
#[derive(Drop)]
pub(crate) struct Context<'s, 't, 'r, 'a, 'e, 'p, 'k> {
    pub setting: &'p Setting<'s, 't, 'r, 'a, 'e, 'p>,
    pub me: Element<'p, 'r>,
    pub limit: u64,
    /// Cached values of derived attributes.
    pub kept: &'k KeptValues<'p, 'r>,
    /// The number of derived attributes inside whose evaluation the expression is evaluated.
    pub level: u32,
}
