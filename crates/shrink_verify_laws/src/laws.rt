//! Laws of what a merge writes.

ghost use Rattle.shrink_verify_laws.specs.Laws.{OwnFilesAreProved, OwnOutputsAreProved};

use merge_theorems::merged_file_laws::checks_prove;
use verifying::laws::answers_are_one;

/// For the output and the certificate that a merge wrote, `verify` returns a proof with the numbers
/// that the merge reported, unless memory runs out. Schema, file and choice are those of the merge.
pub fn own_outputs_are_proved()
    ensures { OwnOutputsAreProved }
{
    answers_are_one();
    checks_prove();
}

/// What a merge wrote to two empty sinks is proved by `verify`, with the numbers that the merge
/// reported, unless memory runs out. This states `own_outputs_are_proved` for sources that reveal
/// their texts.
pub fn own_files_are_proved()
    ensures { OwnFilesAreProved }
{
    own_outputs_are_proved();
}
