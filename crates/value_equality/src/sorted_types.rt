//! Type words in order and without repeats.

ghost use Rattle.std.specs.Prelude.{OnOk};
ghost use Rattle.std.specs.List.{AllZip};
ghost use Rattle.value_equality.specs.steps.ComputedHeads.{SettlesTypes};

use std::alloc::AllocError;
use step_literals::literal::Word;

/// Sorts the type words of each list, and removes repeats.
pub(crate) fn settle_type_lists<'a>(type_lists: &mut [Vec<Word<'a>>]) -> Result<(), AllocError>
    ensures { OnOk result (AllZip SettlesTypes type_lists.old type_lists.new) }
{
    for i in 0..type_lists.len() {
        settle(&mut type_lists[i])?;
    }
    Ok(())
}

/// Sorts type words, and removes repeats.
fn settle<'a>(types: &mut Vec<Word<'a>>) -> Result<(), AllocError>
    ensures { OnOk result (SettlesTypes types.old types.new) }
{
    types.sort()?;
    types.dedup();
    Ok(())
}
