//! Reading the exchange structure of a text.

ghost use Rattle.std.specs.Prelude.{◌≡◌, List, ℕ, IfOk, IfErr, MatchResult};
ghost use Rattle.step_structures.specs.Trees.{File};
ghost use Rattle.step_structures.specs.Texts.{ReadsAs, IsFaultOf, IsMemory};
ghost use Rattle.step_exchange.specs.Exchanges.{structure, IsExchange};

use crate::data::data;
use crate::header::header;
use crate::structure::Exchange;
use memchr::memchr_iter;
use std::alloc::Global;
use std::hash::RandomState;
use step_records::param::cut;
use step_records::reader::Reader;
use step_structures::fault::TextFault;

/// An estimate of the number of cells of an instance. In most files instances have this many, or a
/// few more.
const CELLS: usize = 6;

/// The least number of bytes that an instance has in most files.
const BYTES: usize = 16;

/// The size in bytes of the sample from which the number of instances is estimated.
const SAMPLE: usize = 65_536;

/// Estimates the number of instances of a text by the semicolons at its start.
fn expected(text: &[u8]) -> usize {
    let (sample, _) = cut(text, SAMPLE);
    let found = memchr_iter(b';', sample).count();
    let samples = text.len() / SAMPLE + 1;
    found.saturating_mul(samples).min(text.len() / BYTES)
}

/// Reserves room for `cells` cells and `trees` trees. If there isn't that much memory, it halves
/// both numbers until there is.
fn reserve(reader: &mut Reader<'_>, cells: usize, trees: usize)
    ensures { reader.new ≡ reader.old }
{
    let mut more_cells = cells;
    let mut more_trees = trees;
    while more_cells > 0 {
        if reader.reserve(more_cells, more_trees).is_ok() {
            return;
        }
        more_cells /= 2;
        more_trees /= 2;
    }
}

/// Returns the exchange structure that a text reads as (ISO 10303-21, 5 to 11).
///
/// The caller must test the limit of 2^40 bytes. `keys` are the hash keys for names, and for the
/// keywords of long external records.
///
/// # Errors
///
/// - `Fault` with the first fault of the text, E1 to E10, and its byte offset
/// - `Memory` if memory runs out
pub fn read_exchange<'a>(
    alloc: Global,
    keys: RandomState,
    text: &'a [u8],
) -> Result<Exchange<'a>, TextFault>
    // The result is what the text reads as.
    ensures found { IfOk result (λ x. ReadsAs text.now x.header_bytes.now (structure x)) }
    // If the text reads as a structure, that is the result, unless memory runs out.
    ensures all { (header_bytes : List ℕ) (file : File) → ReadsAs text.now header_bytes file
        → MatchResult result (λ x. IsExchange header_bytes file x) IsMemory }
    // A fault is the text's first one.
    ensures fault { IfErr result (λ e. IsFaultOf text.now e) }
{
    let rows = expected(text);
    let mut reader = Reader::new(alloc, text);
    reserve(&mut reader, rows.saturating_mul(CELLS), rows);
    let first = header(&mut reader)?;
    let end = reader.place();
    let header_len = reader.kept_len();
    let (sections, names) = data(alloc, keys, &mut reader, rows)?;
    let (front, _) = text.split_at(end as usize);
    let (_, header_bytes) = front.split_at(first as usize);
    Ok(Exchange {
        header_bytes,
        trees: reader.finish(),
        header_len,
        names,
        sections,
    })
}
