//! A data section (ISO 10303-21, 11.1).

use step_literals::literal::Text;

/// A data section. Its instances follow those of the sections before it.
#[derive(Clone, Copy)]
pub struct Section<'a> {
    /// The name of the section and the name of its schema, if it has them.
    pub heading: Option<(Text<'a>, Text<'a>)>,
    /// The number of instances in this section and the sections before it.
    pub past: u32,
}
