//! Numbers for the shapes of rows, by position.

ghost use Rattle.std.specs.Prelude.{
  ◌≡◌,
  ◌<◌,
  cond,
  length,
  slice_get,
  unwrap_or,
  IfOk,
  Some,
};
ghost use Rattle.indexmap.specs.IndexMap.{get};
ghost use Rattle.value_equality.specs.Maps.{is_pinned};
ghost use Rattle.value_equality.specs.Rows.{Row};
ghost use Rattle.row_signatures.specs.steps.ComputedLabelling.{of_one_class};
ghost use Rattle.row_signatures.specs.steps.ComputedShapes.{IsShapeNumber, IsShapeOf};
ghost use Rattle.row_signatures.specs.steps.Signatures.{AreShapes};

use crate::flat_values::FlatValues;
use crate::marks::marks;
use crate::value_hashes::{hash_of, hash_of_all, start_of};
use indexmap::IndexMap;
use std::alloc::{AllocError, Global};
use std::collections::BTreeSet;
use std::hash::{FoldHasher, Hash, Hasher, RandomState};
use step_values::labels::{Label, Labels};
use step_values::normal::{Normal, normal_forms};
use step_values::slot::Slots;
use value_equality::plain::Plain;

/// A labelling in which all references outside SETs and BAGs of more than one value have one label,
/// and references inside them keep their names.
#[derive(Clone, Copy)]
struct OneClass;

impl Labels for OneClass {
    ghost labelling = { λ _. of_one_class };

    fn outside(&self, _: u64) -> Label {
        Label::Class(0)
    }

    fn inside(&self, name: u64) -> u64 {
        name
    }
}

/// Normal forms, with their hash.
#[derive(PartialEq, Eq, Drop)]
pub(crate) struct HashedForms<'a> {
    pub(crate) hash: u64,
    pub(crate) forms: Vec<Normal<'a>>,
}

impl<'a> Hash for HashedForms<'a> {
    ghost use Rattle.std.specs.Cmp.Rules.{hashing};
    ghost use Rattle.std.specs.Hash as fed;
    ghost use borrow.Author.Rules.{rules};

    ghost hash_input = { λ f. fed.u64 f.hash };

    ghost respects_eq = { Prim.search (hashing, rules) };

    fn hash<H: Hasher>(&self, state: &mut H) {
        state.write_u64(self.hash);
    }
}

/// The shape of values, with a hash that the author of a text can't predict.
#[derive(PartialEq, Eq, Hash, Drop)]
pub(crate) enum Shape<'p, 'a> {
    /// The shape of values without SETs and BAGs: a view of the values.
    Flat(FlatValues<'p, 'a>),
    /// The shape of other values: their normal forms, with one label for all references outside
    /// SETs and BAGs of more than one value.
    Forms(HashedForms<'a>),
}

/// Shapes, each with the position of its first row. The hash in a shape was computed with keys that
/// the author of a text doesn't know, so that no text can be crafted to make hashes collide,
/// whatever hasher the map has.
type FirstPlaces<'p, 'a> = IndexMap<Shape<'p, 'a>, u32>;

/// Returns a number for each row, by position. Two free rows have equal numbers exactly if their
/// values have one shape: they agree apart from the targets of references outside SETs and BAGs of
/// more than one value. Names, types and sections of rows are ignored. A pinned row has a number
/// that no other row has, and its values aren't read.
///
/// The running time is proportional to the size of all values of free rows, unless some bag is
/// large, since its members are sorted. Besides the numbers, the memory is proportional to the
/// number of shapes and the sizes of those with SETs or BAGs. Shapes are hashed by `keys`.
pub fn shapes<'a>(
    alloc: Global,
    keys: RandomState,
    input: &Plain<'a>,
    pinned: &BTreeSet<u64>,
) -> Result<Vec<u32>, AllocError>
    ensures { IfOk result (λ v. AreShapes input.now (is_pinned pinned.now) v.items) }
{
    let start = start_of(keys);
    let marks = marks(alloc, input, pinned)?;
    let mut firsts: FirstPlaces<'_, 'a> = IndexMap::new(alloc);
    let mut numbers = Vec::with_capacity(alloc, input.len())?;
    for place in 0..input.len() {
        let number = number_of(alloc, start, &mut firsts, input, marks[place], place as u32)?;
        numbers.push(number)?;
    }
    Ok(numbers)
}

/// Returns the number of the row at a position, which is pinned or not.
fn number_of<'p, 'a>(
    alloc: Global,
    start: FoldHasher,
    firsts: &mut FirstPlaces<'p, 'a>,
    input: &'p Plain<'a>,
    is_pinned: bool,
    place: u32,
) -> Result<u32, AllocError>
    requires { place < length input.now }
    ensures { (r : Row) → slice_get input.now place ≡ Some r → IfOk result (λ number.
        IsShapeNumber start is_pinned r place number firsts.old.entries firsts.new.entries) }
{
    if is_pinned {
        return Ok(place);
    }
    let shape = shape_of(alloc, start, input.row(place as usize).values)?;
    first_of(firsts, shape, place)
}

/// Returns the shape of values. It allocates only if they contain a SET or BAG.
fn shape_of<'p, 'a>(
    alloc: Global,
    start: FoldHasher,
    values: Slots<'p, 'a>,
) -> Result<Shape<'p, 'a>, AllocError>
    ensures { IfOk result (λ shape. IsShapeOf start values.entry shape) }
{
    match hash_of(start, &values) {
        Some(hash) => Ok(Shape::Flat(FlatValues { hash, values })),
        None => {
            let forms = normal_forms(alloc, &OneClass, &values)?;
            let hash = hash_of_all(start, &forms);
            Ok(Shape::Forms(HashedForms { hash, forms }))
        }
    }
}

/// Returns the position of the first row of a shape, and adds `place` if there is none.
fn first_of<K: Eq + Hash + Drop>(
    firsts: &mut IndexMap<K, u32>,
    shape: K,
    place: u32,
) -> Result<u32, AllocError>
    ensures first { IfOk result (λ number. number ≡ unwrap_or (get K.eq firsts.old shape) place) }
    ensures noted { IfOk result (λ number. (s : K) → get K.eq firsts.new s
        ≡ cond (K.eq shape s) (Some number) (get K.eq firsts.old s)) }
{
    Ok(*firsts.entry(shape)?.or_insert(place))
}
