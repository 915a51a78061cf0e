//! Laws of exchange structures and their normal texts.

ghost use Rattle.step_structures.specs.Normal.{NormalReadsAgain, NormalStays};
ghost use Rattle.step_structures.specs.Texts.{FaultsOnce, ReadsOnce, ReadsOrFails, ReadsWithoutFault};

/// A text reads as at most one exchange structure.
pub fn a_text_reads_once()
    ensures { ReadsOnce }
{}

/// A text that reads as an exchange structure has no fault.
pub fn what_reads_has_no_fault()
    ensures { ReadsWithoutFault }
{}

/// A text has at most one first fault.
pub fn a_text_has_one_first_fault()
    ensures { FaultsOnce }
{}

/// Each text reads as an exchange structure, or has a first fault.
pub fn a_text_reads_or_has_a_fault()
    ensures { ReadsOrFails }
{}

/// If a text reads as a structure, so does the structure's normal text. It has the same header
/// bytes, the same sections and headings, and the same instances in them. Only the case of words
/// and the spelling of names changes.
pub fn normal_text_reads_again()
    ensures { NormalReadsAgain }
{}

/// A normal text is its own normal text.
pub fn normal_text_stays()
    ensures { NormalStays }
{}
