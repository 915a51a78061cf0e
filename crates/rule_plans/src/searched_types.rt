//! Wanted types: the defined types whose values are searched for.

ghost use Rattle.std.specs.Prelude.{◌≡◌};
ghost use Rattle.rule_plans.specs.steps.Coded.{is_wanted, wanted_in};

/// Whether the type numbered `number` is wanted. `wanted` says so for each declaration.
pub fn is_wanted(wanted: &[bool], number: u32) -> bool
    ensures { result ≡ is_wanted wanted.now number }
{
    match wanted.get(number as usize) {
        Some(is_it) => *is_it,
        None => false,
    }
}

/// Returns `number` if the type with that number is wanted, otherwise `None`.
pub(crate) fn wanted_in(wanted: &[bool], number: Option<u32>) -> Option<u32>
    ensures { result ≡ wanted_in wanted.now number }
{
    let number = number?;
    if is_wanted(wanted, number) {
        Some(number)
    } else {
        None
    }
}
