//! Numbers for the kinds of rows, by position.

ghost use Rattle.std.specs.Prelude.{
  ◌≡◌,
  ◌<◌,
  ◌↔◌,
  ℕ,
  Bool,
  cond,
  length,
  slice_get,
  slice_index,
  ◌⊎◌,
  IfOk,
  IfSome,
  List,
  OnOk,
  Option,
  Some,
};
ghost use Rattle.value_equality.specs.steps.ComputedKinds.{kind_test};
ghost use Rattle.value_equality.specs.ValueEquality.{AreAlike};
ghost use Rattle.value_equality.specs.Maps.{is_pinned};
ghost use Rattle.value_equality.specs.Rows.{Kind, Row, row_kind, names};
ghost use Rattle.row_signatures.specs.steps.Numbers.{ArePlaces};
ghost use Rattle.row_signatures.specs.steps.ComputedKinds.{
  AreRecent,
  HaveRows,
  IsFirst,
  IsNumber,
  earlier,
  first_in,
  kind_seen,
};

use crate::marks::marks;
use indexmap::IndexMap;
use std::alloc::{AllocError, Global};
use std::collections::BTreeSet;
use std::hash::RandomState;
use step_literals::literal::Word;
use value_equality::plain::Plain;

/// The section of a row, and the names of its types.
#[derive(PartialEq, Eq, Hash, Drop)]
pub(crate) struct RowKind<'p, 'a> {
    section: u32,
    types: &'p [Word<'a>],
}

/// The kinds of free rows, each with the position of its first row. Kinds are hashed by keys that
/// the author of a text doesn't know, so that no text can be crafted to make the hashes collide.
type Firsts<'p, 'a> = IndexMap<RowKind<'p, 'a>, u32, RandomState>;

/// The number of kinds that are cached.
const REMEMBERED: usize = 256;

/// A cache from the number of a list of types to the position of the first free row of the kind. A
/// population has few kinds, so a row is mostly compared with the first one of its kind, and its
/// types aren't hashed.
type Recent = Vec<Option<u32>>;

/// Returns a number for each row, by position. Two rows have equal numbers exactly if they are one
/// row, or if both are free, are in one section and have equal types.
///
/// The number of a pinned row is its own position, that of a free row the position of the first
/// free row of its kind. Each pinned name is looked up once. Kinds are hashed by `keys`.
pub fn kinds<'a>(
    alloc: Global,
    keys: RandomState,
    input: &Plain<'a>,
    pinned: &BTreeSet<u64>,
) -> Result<Vec<u32>, AllocError>
    ensures length { IfOk result (λ v. length v.items ≡ length input.now) }
    ensures kinds { IfOk result (λ v. (i j : ℕ) → i < length input.now → j < length input.now
        → (slice_index v.items i ≡ slice_index v.items j)
        ↔ AreAlike input.now (is_pinned pinned.now) (slice_index (names input.now) i)
        (slice_index (names input.now) j)) }
    // Each number is the position of a row that has this number.
    ensures places { IfOk result (λ v. ArePlaces v.items) }
{
    let mut firsts = IndexMap::with_hasher(alloc, keys);
    let mut recent = vec![in alloc; None; REMEMBERED]?;
    let marks = marks(alloc, input, pinned)?;
    let mut numbers = Vec::with_capacity(alloc, input.len())?;
    for place in 0..input.len() {
        let number = number_of(&mut firsts, &mut recent, input, marks[place], place as u32)?;
        numbers.push(number)?;
    }
    Ok(numbers)
}

/// Returns the number of the row at a position, which is pinned or not.
fn number_of<'p, 'a>(
    firsts: &mut Firsts<'p, 'a>,
    recent: &mut Recent,
    input: &'p Plain<'a>,
    is_pinned: bool,
    place: u32,
) -> Result<u32, AllocError>
    requires { place < length input.now }
    ensures number { (pinned : ℕ → Bool) (r : Row) → slice_get input.now place ≡ Some r
        → pinned r.name ≡ is_pinned
        → AreRecent input.now (first_in firsts.old.entries) recent.old.items
        → IfOk result (λ number. IsNumber pinned r place number
        (first_in firsts.old.entries) (first_in firsts.new.entries)) }
    ensures recent { AreRecent input.now (first_in firsts.old.entries) recent.old.items
        → HaveRows input.now (first_in firsts.old.entries)
        → OnOk result (AreRecent input.now (first_in firsts.new.entries) recent.new.items) }
{
    if is_pinned {
        return Ok(place);
    }
    if let Some(first) = remembered(recent, input, place) {
        return Ok(first);
    }
    let row = input.row(place as usize);
    let kind = RowKind {
        section: row.section,
        types: row.types,
    };
    let first = first_of(firsts, kind, place)?;
    remember(recent, input.type_list(place as usize), first);
    Ok(first)
}

/// Returns the position that is cached for a list of types, if any.
fn remembered_at(recent: &Recent, list: u32) -> Option<u32>
    ensures { (rows : List Row) (first : Kind → Option ℕ) → AreRecent rows first recent.now.items
        → IfSome result (IsFirst rows first) }
{
    recent.get(list as usize % REMEMBERED).copied().flatten()
}

/// Returns the position of the first free row that has the kind of the row at `place`, if it is
/// cached.
fn remembered<'a>(recent: &Recent, input: &Plain<'a>, place: u32) -> Option<u32>
    requires { place < length input.now }
    ensures { (first : Kind → Option ℕ) (r : Row) → AreRecent input.now first recent.now.items
        → slice_get input.now place ≡ Some r → IfSome result (λ m. first (row_kind r) ≡ Some m) }
{
    let first = remembered_at(recent, input.type_list(place as usize))?;
    if first as usize >= input.len() {
        return None;
    }
    if !input.share_kind(first as usize, place as usize) {
        return None;
    }
    Some(first)
}

/// Caches the first free row of a kind, in place of any other.
fn remember(recent: &mut Recent, list: u32, first: u32)
    ensures { (i m : ℕ) → slice_get recent.new.items i ≡ Some (Some m)
        → (m ≡ first) ⊎ (slice_get recent.old.items i ≡ Some (Some m)) }
{
    let at = list as usize % REMEMBERED;
    if at < recent.len() {
        recent[at] = Some(first);
    }
}

/// Returns the position of the first row of a kind, and adds `place` if there is none.
fn first_of<'p, 'a>(
    firsts: &mut Firsts<'p, 'a>,
    kind: RowKind<'p, 'a>,
    place: u32,
) -> Result<u32, AllocError>
    ensures first { IfOk result (λ number. number
        ≡ earlier (first_in firsts.old.entries (kind_seen kind.entry)) place) }
    ensures noted { IfOk result (λ number. (k : Kind) → first_in firsts.new.entries k
        ≡ cond (kind_test k (kind_seen kind.entry)) (Some number) (first_in firsts.old.entries k)) }
{
    if let Some(first) = firsts.get(&kind).copied() {
        return Ok(first);
    }
    firsts.insert(kind, place)?;
    Ok(place)
}
