//! Typed values and aggregates of a population, whole or with the elements that a QUERY keeps.
#![tactic(auto, unfolding(crate::specs::Parts::element_datum, crate::specs::Parts::holding, crate::specs::Parts::whole_elements))]

ghost use Rattle.std.specs.Prelude.{◌≡◌, ◌<◌, [], length, slice_index, IfOk};
ghost use Rattle.std.specs.Option.{option_map};
ghost use Rattle.step_values.specs.Values.{typed, sequence, bag};
ghost use Rattle.step_values.specs.Views.{word_of};
ghost use Rattle.express_logic.specs.Data;
ghost use Rattle.express_logic.specs.Comparison.{scalar};
ghost use Rattle.express_logic.specs.Holdings.{Holding, element_at, size_of};
ghost use Rattle.express_logic.specs.Views.{datum_of, scalar_of};
ghost use Rattle.conformance.specs.Meanings.{instance_data};
ghost use Rattle.conformance.specs.Operations.{bare};
ghost use Rattle.rule_values.specs.TableValues.{coded_datum, coded_each, shape_seen};
ghost use Rattle.rule_values.specs.Parts.{
  holding,
  picked,
  kept_of,
  whole_elements,
  content_inner,
  content_elements,
  content_shape,
  content_in,
  kept_elements,
  values_shape,
  capitals_of,
  element_datum,
  or_indeterminate,
};

use crate::element::Element;
use crate::scalars::value_scalar;
use crate::shape::{Shape, shape_of};
use crate::types::ValueTypes;
use crate::values::bare_value;
use express_logic::datum::{Datum, Held};
use express_logic::scalar::Scalar;
use schema_underlying_types::base::Base;
use std::alloc::{AllocError, Global};
use std::rc::Rc;
use step_literals::literal::Word;
use step_values::slot::{Slot, Slots};

/// A value that is stored in the population.
#[derive(Drop)]
enum Content<'p, 'r> {
    /// A value with the name of its type.
    Typed {
        types: &'p ValueTypes<'r>,
        word: Word<'r>,
        inner: Slot<'p, 'r>,
    },
    /// The values of an aggregate of the type `base`.
    Values {
        is_ordered: bool,
        types: &'p ValueTypes<'r>,
        base: &'p Base,
        values: Slots<'p, 'r>,
    },
    /// Instances, by their names.
    Instances(&'p [u64]),
}

/// The elements of an aggregate that a QUERY keeps.
#[derive(Drop)]
struct Kept<'p, 'r> {
    /// The whole aggregate.
    content: Content<'p, 'r>,
    /// The indices of the kept elements in `content`. Copies share them.
    indices: Rc<Vec<usize>>,
}

/// A whole value, or some of its elements. The latter are boxed because they are rare and values
/// are moved.
#[derive(Drop)]
enum Extent<'p, 'r> {
    Whole(Content<'p, 'r>),
    Kept(Box<Kept<'p, 'r>>),
}

/// A typed value or an aggregate.
#[derive(Drop)]
pub struct Part<'p, 'r> {
    extent: Extent<'p, 'r>,
}

/// Returns the value at `index` as an element, if there is one.
fn value_at<'p, 'r>(
    types: &'p ValueTypes<'r>,
    base: &'p Base,
    values: &Slots<'p, 'r>,
    index: usize,
) -> Element<'p, 'r>
    ensures { element_datum result
        ≡ or_indeterminate (element_at index (coded_each types.entry.now base.now values.now)) }
{
    match values.item(index) {
        Some(value) => Element::Value { types, base, value },
        None => Element::Nothing,
    }
}

/// Returns the shape of an aggregate of the type `base`.
fn values_shape(is_ordered: bool, base: &Base) -> Shape<'_>
    ensures { shape_seen result ≡ values_shape is_ordered base.now }
{
    if is_ordered {
        shape_of(base)
    } else {
        Shape::Bag
    }
}

/// Returns the number of instances.
fn count_of(names: &[u64]) -> usize
    ensures { result ≡ size_of (instance_data names.now) }
{
    names.len()
}

/// Returns the name at `index`, if any.
fn name_at(names: &[u64], index: usize) -> Option<u64>
    ensures { option_map Data.instance result ≡ element_at index (instance_data names.now) }
{
    match names.get(index) {
        Some(name) => Some(*name),
        None => None,
    }
}

impl<'p, 'r> Content<'p, 'r> {
    /// Returns a copy.
    fn again(&self) -> Content<'p, 'r>
        ensures { result ≡ self.now }
    {
        match self {
            Content::Typed { types, word, inner } => Content::Typed {
                types: *types,
                word: *word,
                inner: inner.again(),
            },
            Content::Values {
                is_ordered,
                types,
                base,
                values,
            } => Content::Values {
                is_ordered: *is_ordered,
                types: *types,
                base: *base,
                values: values.again(),
            },
            Content::Instances(names) => Content::Instances(*names),
        }
    }

    /// Returns the number of elements.
    fn len(&self) -> usize
        ensures { result ≡ size_of (content_elements self.now) }
    {
        match self {
            Content::Typed { .. } => 0,
            Content::Values { values, .. } => values.len(),
            Content::Instances(names) => count_of(*names),
        }
    }

    /// Returns the element at `index`; `Nothing` if there is no such element.
    fn element(&self, index: usize) -> Element<'p, 'r>
        ensures { element_datum result
            ≡ or_indeterminate (element_at index (content_elements self.now)) }
    {
        match self {
            Content::Typed { .. } => Element::Nothing,
            Content::Values {
                types,
                base,
                values,
                ..
            } => value_at(*types, types.of_elements(*base), values, index),
            Content::Instances(names) => match name_at(*names, index) {
                Some(name) => Element::Instance(name),
                None => Element::Nothing,
            },
        }
    }

    /// Returns the shape of an aggregate; that of a LIST for a typed value.
    fn shape(&self) -> Shape<'p>
        ensures { shape_seen result ≡ content_shape self.now }
    {
        match self {
            Content::Typed { .. } => Shape::List,
            Content::Values {
                is_ordered,
                base,
                ..
            } => values_shape(*is_ordered, *base),
            Content::Instances(_) => Shape::Bag,
        }
    }

    /// Returns what a typed value is compared by; `Nothing` for an aggregate.
    fn bare(&self) -> Scalar<'r>
        ensures { scalar_of result ≡ scalar (content_inner self.now) }
    {
        match self {
            Content::Typed { types, word, inner } => {
                value_scalar(*types, types.of_name(*word), inner)
            }
            Content::Values { .. } => Scalar::Nothing,
            Content::Instances(_) => Scalar::Nothing,
        }
    }

    /// Returns the content of a typed value, at any depth; indeterminate for an aggregate.
    fn inside(&self) -> Datum<'r, Part<'p, 'r>>
        ensures { datum_of holding result ≡ bare (content_inner self.now) }
    {
        match self {
            Content::Typed { types, word, inner } => {
                bare_value(*types, types.of_name(*word), inner)
            }
            Content::Values { .. } => Datum::Indeterminate,
            Content::Instances(_) => Datum::Indeterminate,
        }
    }
}

impl<'p, 'r> Kept<'p, 'r> {
    /// Returns a copy that shares the indices.
    fn again(&self) -> Result<Kept<'p, 'r>, AllocError>
        ensures { IfOk result (λ k. (k.content ≡ self.now.content)
            × (k.indices.value ≡ self.now.indices.value)) }
    {
        let indices = self.indices.clone()?;
        Ok(Kept {
            content: self.content.again(),
            indices,
        })
    }

    /// Returns the kept element at `index`; `Nothing` if there is no such element.
    fn element(&self, index: usize) -> Element<'p, 'r>
        ensures { element_datum result
            ≡ or_indeterminate (element_at index (kept_elements self.now)) }
    {
        match self.indices.get(index) {
            Some(place) => self.content.element(*place),
            None => Element::Nothing,
        }
    }
}

impl<'r, 'p> Held<'r> for Part<'p, 'r> {
    ghost held = { holding };

    fn bare(&self) -> Scalar<'r> {
        self.content().bare()
    }

    fn len(&self) -> usize {
        match &self.extent {
            Extent::Whole(content) => content.len(),
            Extent::Kept(kept) => kept.indices.len(),
        }
    }

    fn element(&self, index: usize) -> Option<Datum<'r, Part<'p, 'r>>> {
        if index < self.len() {
            Some(self.element_value(index).datum())
        } else {
            None
        }
    }
}

/// Returns the element of `kept` at `index`.
fn place_at(kept: &[usize], index: usize) -> usize
    requires { index < length kept.now }
    ensures { result ≡ slice_index kept.now index }
{
    kept[index]
}

impl<'p, 'r> Part<'p, 'r> {
    /// Returns a value with the name of its type.
    pub(crate) fn typed(
        types: &'p ValueTypes<'r>,
        word: Word<'r>,
        inner: Slot<'p, 'r>,
    ) -> Part<'p, 'r>
        ensures { (b : Base) → Data.typed (holding result).name (holding result).inner
            ≡ coded_datum types.entry.now b (typed (word_of word.entry) inner.entry) }
    {
        Part {
            extent: Extent::Whole(Content::Typed { types, word, inner }),
        }
    }

    /// Returns an aggregate whose values have an order.
    pub(crate) fn in_order(
        types: &'p ValueTypes<'r>,
        base: &'p Base,
        values: Slots<'p, 'r>,
    ) -> Part<'p, 'r>
        ensures { Data.aggregate (holding result).shape (holding result).elements
            ≡ coded_datum types.entry.now base.now (sequence values.entry) }
    {
        Part {
            extent: Extent::Whole(Content::Values {
                is_ordered: true,
                types,
                base,
                values,
            }),
        }
    }

    /// Returns an aggregate whose values have no order: a SET or a BAG.
    pub(crate) fn in_no_order(
        types: &'p ValueTypes<'r>,
        base: &'p Base,
        values: Slots<'p, 'r>,
    ) -> Part<'p, 'r>
        ensures { Data.aggregate (holding result).shape (holding result).elements
            ≡ coded_datum types.entry.now base.now (bag values.entry) }
    {
        Part {
            extent: Extent::Whole(Content::Values {
                is_ordered: false,
                types,
                base,
                values,
            }),
        }
    }

    /// Returns an aggregate of instances without an order, such as those of an inverse attribute.
    pub fn instances(names: &'p [u64]) -> Part<'p, 'r>
        ensures shape { (holding result).shape ≡ Data.bag }
        ensures elements { (holding result).elements ≡ instance_data names.entry.now }
    {
        Part {
            extent: Extent::Whole(Content::Instances(names)),
        }
    }

    /// Returns the whole value.
    fn content(&self) -> &Content<'p, 'r>
        ensures { result.now ≡ content_in self.now.extent }
    {
        match &self.extent {
            Extent::Whole(content) => content,
            Extent::Kept(kept) => &kept.content,
        }
    }

    /// Returns the whole value, and drops the indices of kept elements.
    fn into_content(self) -> Content<'p, 'r>
        ensures { result ≡ content_in self.entry.extent }
    {
        let Part { extent } = self;
        match extent {
            Extent::Whole(content) => content,
            Extent::Kept(kept) => {
                let Kept { content, .. } = Box::into_inner(kept);
                content
            }
        }
    }

    /// Returns the name of the type of a typed value; `None` for an aggregate.
    pub fn type_name(&self) -> Option<Word<'r>>
        ensures { capitals_of result ≡ (holding self.now).name }
    {
        match self.content() {
            Content::Typed { word, .. } => Some(*word),
            Content::Values { .. } => None,
            Content::Instances(_) => None,
        }
    }

    /// Returns the content of a typed value, at any depth; indeterminate for an aggregate.
    pub(crate) fn inside(&self) -> Datum<'r, Part<'p, 'r>>
        ensures { datum_of holding result ≡ bare (holding self.now).inner }
    {
        self.content().inside()
    }

    /// Returns the shape of an aggregate; that of a LIST for a typed value.
    pub fn shape(&self) -> Shape<'p>
        ensures { shape_seen result ≡ (holding self.now).shape }
    {
        match &self.extent {
            Extent::Whole(content) => content.shape(),
            Extent::Kept(kept) => kept.content.shape().kept(),
        }
    }

    /// Returns the element at `index`, counted from 0; `Nothing` if there is no such element.
    pub fn element_value(&self, index: usize) -> Element<'p, 'r>
        ensures { element_datum result
            ≡ or_indeterminate (element_at index (holding self.now).elements) }
    {
        match &self.extent {
            Extent::Whole(content) => content.element(index),
            Extent::Kept(kept) => kept.element(index),
        }
    }

    /// Returns the index, in the whole aggregate, of the element at `index`.
    pub fn whole_index(&self, index: usize) -> usize
        requires { index < size_of (holding self.now).elements }
        ensures { or_indeterminate (element_at result (whole_elements self.now))
            ≡ or_indeterminate (element_at index (holding self.now).elements) }
    {
        match &self.extent {
            Extent::Whole(_) => index,
            Extent::Kept(kept) => place_at(&kept.indices, index),
        }
    }

    /// Returns the elements of the whole aggregate at the indices `kept`: the result of a QUERY
    /// (ISO 10303-11, 12.6.7).
    pub fn keep(self, alloc: Global, kept: Vec<usize>) -> Result<Part<'p, 'r>, AllocError>
        ensures { IfOk result (λ p. holding p
            ≡ kept_of (holding self.entry) (picked kept.items (whole_elements self.entry))) }
    {
        let kept = Kept {
            content: self.into_content(),
            indices: Rc::new(alloc, kept)?,
        };
        Ok(Part {
            extent: Extent::Kept(Box::new(alloc, kept)?),
        })
    }

    /// Returns a copy. If the value is the result of a QUERY, the copy shares the indices of the
    /// kept elements.
    pub fn again(&self, alloc: Global) -> Result<Part<'p, 'r>, AllocError>
        ensures { IfOk result (λ p. holding p ≡ holding self.now) }
    {
        match &self.extent {
            Extent::Whole(content) => Ok(Part {
                extent: Extent::Whole(content.again()),
            }),
            Extent::Kept(kept) => {
                let kept = kept.again()?;
                Ok(Part {
                    extent: Extent::Kept(Box::new(alloc, kept)?),
                })
            }
        }
    }
}
