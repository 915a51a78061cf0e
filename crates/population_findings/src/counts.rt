//! The number of parameters of records.

ghost use Rattle.std.specs.Prelude.{◌≡◌, ◌≤◌, cond, map, slice_get};
ghost use Rattle.step_exchange.specs.Views.{record_of, record_in, form_of};
ghost use Rattle.conformance.specs.Entities.{records};
ghost use Rattle.population_findings.specs.steps.Counting.{has_as_many, miscounts};

use crate::keywords::is_internal;
use step_records::param::Params;

/// Returns 1 if the number of parameters of `record` isn't `counts[index]`, otherwise 0. Also
/// returns 1 if `index` is out of range.
fn wrong_count(counts: &[usize], index: usize, record: &Params<'_, '_>) -> usize
    ensures counted { result
        ≡ cond (has_as_many (record_of record.now) (slice_get counts.now index)) 0 1 }
    ensures few { result ≤ 1 }
{
    let (_, values) = record.split(1);
    if index >= counts.len() {
        return 1;
    }
    if values.len() == counts[index] { 0 } else { 1 }
}

/// Returns how many partial records don't have the number of parameters in `counts`.
fn wrong_partials(counts: &[usize], partials: &Params<'_, '_>) -> usize
    ensures { result ≡ miscounts counts.now (map record_in partials.now) }
{
    let mut wrong: usize = 0;
    for i in 0..partials.len() {
        wrong += wrong_count(counts, i, &partials.at(i).parts());
    }
    wrong
}

/// Returns how many records of an instance don't have the number of parameters in `counts`.
pub fn wrong_counts(counts: &[usize], parts: &Params<'_, '_>) -> usize
    ensures { result ≡ miscounts counts.now (records (form_of parts.now)) }
{
    if !is_internal(parts) {
        return wrong_partials(counts, parts);
    }
    wrong_count(counts, 0, parts)
}
