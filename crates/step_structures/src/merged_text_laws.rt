//! Laws of merged texts.

ghost use Rattle.step_structures.specs.MergedTextLaws.{MergedTextReads, UnmergedTextStays};

/// If a text reads as a structure, the normal text of the merged structure reads as the merged
/// structure.
pub fn merged_text_reads()
    ensures { MergedTextReads }
{}

/// If the map leaves each name unchanged, the merged text is the normal text.
pub fn unmerged_text_stays()
    ensures { UnmergedTextStays }
{}
