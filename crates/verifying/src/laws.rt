//! The law of what `verify` returns.

ghost use Rattle.verifying.specs.Laws.{VerifyAnswersAreOne};

use file_findings::laws::conforms_where_nothing_is_found;

/// Any two results of `verify` for the same four texts and choice say the same, unless memory runs
/// out in one of them. So there aren't both a proof and a refusal.
pub fn answers_are_one()
    ensures { VerifyAnswersAreOne }
{
    conforms_where_nothing_is_found();
}
