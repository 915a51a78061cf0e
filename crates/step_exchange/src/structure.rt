//! An exchange structure (ISO 10303-21, 5 to 11).

ghost use Rattle.std.specs.Prelude.{◌≡◌, ◌+◌, length};
ghost use Rattle.step_structures.specs.Texts.{IsRead};
ghost use Rattle.step_exchange.specs.Sections.{CountsTo, file_of};

use crate::section::Section;
use step_records::forest::Forest;
use step_records::names::Names;

/// An exchange structure that some text reads as. The fields are meant for reading only.
#[derive(Drop)]
pub struct Exchange<'a> {
    /// The bytes from the first token to the semicolon after the header's ENDSEC.
    pub header_bytes: &'a [u8],
    /// The records of the header, then the form of each instance, in the order of the file.
    pub trees: Forest<'a>,
    /// The number of records in the header.
    pub header_len: usize,
    /// The names of the instances of all data sections, in the order of the file.
    pub names: Names,
    /// The data sections, at least one, in the order of the file.
    pub sections: Vec<Section<'a>>,
    pub ghost read: { ∥ IsRead header_bytes.now
        (file_of header_len trees names sections.items) ∥₁ },
    // There is one tree for each record of the header and for each name, and no other.
    pub ghost matched: { ∥ length trees ≡ header_len + length names ∥₁ },
    // The sections' counts never fall, and the last one counts all names.
    pub ghost counted: { ∥ CountsTo 0 sections.items (length names) ∥₁ },
}
