//! Laws about the definitions, apart from any code.

ghost use Rattle.merge_theorems.specs.TwoStepPins.{PinsAreFound};
ghost use Rattle.merge_theorems.specs.Headline.{ChecksProve, MergesAreLeast, SecondMergesStay};
ghost use Rattle.merge_theorems.specs.StablePins.{ImagesKeepPins, SecondRunsStay};
ghost use Rattle.merge_theorems.specs.MergedFileLaws.{
  MergedFilesAreLeast,
  MergedFilesConform,
  MergedPopulationsAreLed,
  OutputsAreQuotients,
};

use conformance::value_laws::{images_conform, no_findings_exactly_where_it_conforms};

/// The population of a merged file is the merged population, whatever the schema's meaning, and its
/// rows are the merged rows.
pub fn merged_populations_are_led()
    ensures { MergedPopulationsAreLed }
{}

/// If an output is merged by a table whose last classes are a congruence, under any pins, it reads
/// as the merged structure. Its rows are those of the quotient by these classes, which is a
/// population and an image. This holds whether or not the schema's rules are satisfied.
pub fn outputs_are_quotients()
    ensures { OutputsAreQuotients }
{}

/// If a conforming file is merged by a congruence under gentle pins, the merged file conforms, its
/// rows are those of the quotient, and the quotient is an image.
pub fn merged_files_conform()
    ensures { MergedFilesConform }
{
    images_conform();
    no_findings_exactly_where_it_conforms();
}

/// A file that is merged by value equality under gentle pins has no more instances than any image.
pub fn merged_files_are_least()
    ensures { MergedFilesAreLeast }
{}

/// If exactly the value-equal instances of a conforming file are merged, the output reads as the
/// merged structure and conforms, and no image of the input has fewer instances.
pub fn merges_are_least()
    ensures { MergesAreLeast }
{
    images_conform();
    no_findings_exactly_where_it_conforms();
}

/// Two valid tables, and an output that is the quotient by the second, prove that the output
/// conforms and is a least image, whoever made them.
pub fn checks_prove()
    ensures { ChecksProve }
{
    images_conform();
    no_findings_exactly_where_it_conforms();
}

/// In an image that respects pins, an instance is pinned exactly if its image is, though the pins
/// of the image are computed anew.
pub fn images_keep_pins()
    ensures { ImagesKeepPins }
{}

/// A second run on a merged file writes the same text.
pub fn second_runs_stay()
    ensures { SecondRunsStay }
{
    no_findings_exactly_where_it_conforms();
}

/// A run on the output of a run writes the same bytes.
pub fn second_merges_stay()
    ensures { SecondMergesStay }
{
    images_conform();
    no_findings_exactly_where_it_conforms();
}

/// Pins that are found in two steps, by a table that is valid under the weak pins, are the pins.
pub fn pins_are_found()
    ensures { PinsAreFound }
{}
