//! Laws of what `shrink` returns and writes.

ghost use Rattle.shrinking.specs.Laws.{
  ShrinkAnswersAreOne,
  FilesAreOne,
  OwnOutputsPass,
  SecondFilesStay,
  SecondShrinksStay,
};

use checking::laws::reports_are_one;
use file_findings::laws::conforms_where_nothing_is_found;
use merge_theorems::merged_file_laws::second_merges_stay;
use value_equality::laws::the_standard_table_is_unique;

/// An output of `shrink` has no findings. Its text has no fault, except that it may be too large to
/// be read.
pub fn own_outputs_pass()
    ensures { OwnOutputsPass }
{
    conforms_where_nothing_is_found();
}

/// Merging an output again, with the same schema and choice, writes the same output. It fails only
/// if memory runs out, a device fails or the output is too large to be read.
pub fn second_runs_stay()
    ensures { SecondShrinksStay }
{
    own_outputs_pass();
    second_merges_stay();
}

/// Merging an output again, with the same schema and choice, writes the same output. This states
/// `second_runs_stay` for sources that reveal their texts and sinks that were empty.
pub fn second_files_stay()
    ensures { SecondFilesStay }
{
    second_runs_stay();
}

/// Any two runs on the same texts and choice return the same. They also write the same output and
/// certificate. The exception is a run in which a device fails or memory runs out.
pub fn answers_are_one()
    ensures { ShrinkAnswersAreOne }
{
    reports_are_one();
    the_standard_table_is_unique();
    conforms_where_nothing_is_found();
}

/// Any two runs on the same texts and choice return the same and write the same bytes, except a run
/// in which a device fails or memory runs out. This states `answers_are_one` for sources that
/// reveal their texts and sinks that were empty.
pub fn files_are_one()
    ensures { FilesAreOne }
{
    answers_are_one();
}
