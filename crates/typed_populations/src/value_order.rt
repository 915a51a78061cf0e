//! The order of the values of a form's instances in plain rows.

ghost use Rattle.std.specs.Prelude.{
  ◌≡◌,
  ◌++◌,
  ◌∷◌,
  [],
  map,
  flat_map,
  length,
  IfOk,
  IfSome,
  IsPermutation,
  OnOk,
  Some,
};
ghost use Rattle.std.specs.Bool.{OnTrue};
ghost use Rattle.std.specs.List.{range_with_len};
ghost use Rattle.graphs.specs.Graphs.{graph_of};
ghost use Rattle.express_syntax.specs.ExpressionViews.{capitals};
ghost use Rattle.express_syntax.specs.Profile.{Every};
ghost use Rattle.schema_names.specs.Numbers.{HasNumber, AreAt};
ghost use Rattle.schema_names.specs.Schemas.{the_schema};
ghost use Rattle.schema_explicit_attributes.specs.Places.{all_places, ArePlaceRows};
ghost use Rattle.schema_underlying_types.specs.BaseViews.{name_at};
ghost use Rattle.conformance.specs.Entities.{own_places_of};
ghost use Rattle.step_values.specs.Views.{word_of};
ghost use Rattle.value_equality.specs.SortedTypes.{AreInOrder};
ghost use Rattle.typed_populations.specs.PopulationTables.{AreNumbered};
ghost use Rattle.typed_populations.specs.ValueOrder.{
  position_among,
  AreMoves,
  StandAt,
  IsOrder,
  AreOrders,
};

use crate::accessors::position_of;
use population_rows::form::{Form, SlotForm};
use schema_names::names::Names;
use std::alloc::{AllocError, Global};
use step_literals::literal::Word;

/// How the values of an instance are put into an order.
#[derive(Drop)]
pub enum Moves {
    /// This number of values is in the order already.
    Kept(usize),
    /// The value at index i is the one that was at the i-th of these positions. Each position
    /// occurs once.
    Moved(Vec<usize>),
    /// The values are copied, because a position is missing, occurs twice or is out of range.
    Copied,
}

/// Types sorted by name, and the attributes that they declare, type by type.
#[derive(Drop)]
pub struct Order<'a> {
    pub types: Vec<Word<'a>>,
    /// The position of each of these attributes among those of the form, if any.
    pub positions: Vec<Option<usize>>,
    /// How values are moved to these positions.
    pub moves: Moves,
}

/// Adds the name of the type numbered `number`.
fn push_type<'a>(
    names: &Names<'a, '_>,
    types: &mut Vec<Word<'a>>,
    number: u32,
) -> Result<(), AllocError>
    requires { HasNumber (the_schema names.now) (name_at (the_schema names.now) number) number }
    ensures { OnOk result (map word_of types.new.items ≡ map word_of types.old.items
        ++ name_at (the_schema names.now) number ∷ []) }
{
    if let Some(name) = names.name(number) {
        types.push(name)?;
    }
    Ok(())
}

/// Returns the names of the types with these numbers, in order.
fn type_words<'a>(
    alloc: Global,
    names: &Names<'a, '_>,
    types: &[u32],
) -> Result<Vec<Word<'a>>, AllocError>
    requires { Every (λ i. HasNumber (the_schema names.now)
        (name_at (the_schema names.now) i) i) types.now }
    ensures { IfOk result (λ ws. map word_of ws.items
        ≡ map (name_at (the_schema names.now)) types.now) }
{
    let mut words = Vec::with_capacity(alloc, types.len())?;
    for number in types {
        push_type(names, &mut words, *number)?;
    }
    Ok(words)
}

/// Returns the names of the types with these numbers, sorted and each once.
fn ordered_types<'a>(
    alloc: Global,
    names: &Names<'a, '_>,
    types: &[u32],
) -> Result<Vec<Word<'a>>, AllocError>
    requires { Every (λ i. HasNumber (the_schema names.now)
        (name_at (the_schema names.now) i) i) types.now }
    ensures { IfOk result (λ ws. AreInOrder
        (map (name_at (the_schema names.now)) types.now) (map word_of ws.items)) }
{
    let mut words = type_words(alloc, names, types)?;
    words.sort()?;
    words.dedup();
    Ok(words)
}

/// Returns the numbers of the explicit attributes that the entity called `name` declares itself.
/// `own` has those of all entities.
fn own_row<'o>(names: &Names<'_, '_>, own: &'o [Vec<u32>], name: Word<'_>) -> &'o [u32]
    requires { ArePlaceRows (all_places (the_schema names.now))
        (the_schema names.now).declarations (graph_of own.now) }
    ensures { AreAt (all_places (the_schema names.now)) result.now
        (own_places_of (the_schema names.now) (capitals name.entry)) }
{
    let Some(number) = names.find(name) else {
        return &[];
    };
    match own.get(number as usize) {
        Some(row) => row,
        None => &[],
    }
}

/// Adds the positions of the explicit attributes `numbers` among `slots`.
fn push_positions(
    positions: &mut Vec<Option<usize>>,
    slots: &[SlotForm],
    numbers: &[u32],
) -> Result<(), AllocError>
    ensures { OnOk result (positions.new.items
        ≡ positions.old.items ++ map (position_among slots.now) numbers.now) }
{
    for number in numbers {
        positions.push(position_of(slots, *number))?;
    }
    Ok(())
}

/// Returns the positions among `slots` of the attributes that `types` declare, type by type.
fn positions_of(
    alloc: Global,
    names: &Names<'_, '_>,
    own: &[Vec<u32>],
    slots: &[SlotForm],
    types: &[Word<'_>],
) -> Result<Vec<Option<usize>>, AllocError>
    requires { ArePlaceRows (all_places (the_schema names.now))
        (the_schema names.now).declarations (graph_of own.now) }
    ensures { IfOk result (λ v. StandAt (the_schema names.now) slots.now
        (flat_map (own_places_of (the_schema names.now)) (map word_of types.now)) v.items) }
{
    let mut positions = Vec::with_capacity(alloc, slots.len())?;
    for name in types {
        push_positions(&mut positions, slots, own_row(names, own, *name))?;
    }
    Ok(positions)
}

/// Returns the positions if none is missing, otherwise `None`.
fn told(alloc: Global, positions: &[Option<usize>]) -> Result<Option<Vec<usize>>, AllocError>
    ensures { IfOk result (λ o. IfSome o (λ v. map Some v.items ≡ positions.now)) }
{
    let mut told = Vec::with_capacity(alloc, positions.len())?;
    for position in positions {
        let Some(place) = *position else {
            return Ok(None);
        };
        told.push(place)?;
    }
    Ok(Some(told))
}

/// Whether `numbers` are 0, 1, 2 and so on, in this order.
fn rise_from_0(numbers: &[usize]) -> bool
    ensures { OnTrue result (numbers.now ≡ range_with_len 0 (length numbers.now)) }
{
    for i in 0..numbers.len() {
        if numbers[i] != i {
            return false;
        }
    }
    true
}

/// Whether `numbers` are 0, 1, 2 and so on, in any order.
fn stand_once(alloc: Global, numbers: &[usize]) -> Result<bool, AllocError>
    ensures { IfOk result (λ b. OnTrue b
        (IsPermutation (range_with_len 0 (length numbers.now)) numbers.now)) }
{
    let mut sorted = numbers.to_vec(alloc)?;
    sorted.sort_unstable();
    Ok(rise_from_0(&sorted))
}

/// Returns how values are moved to `positions`.
fn moves_of(alloc: Global, positions: &[Option<usize>]) -> Result<Moves, AllocError>
    ensures { IfOk result (AreMoves positions.now) }
{
    let Some(places) = told(alloc, positions)? else {
        return Ok(Moves::Copied);
    };
    if rise_from_0(&places) {
        return Ok(Moves::Kept(places.len()));
    }
    if !stand_once(alloc, &places)? {
        return Ok(Moves::Copied);
    }
    Ok(Moves::Moved(places))
}

/// Returns the order of the values of instances of `form`.
fn order_of<'a>(
    alloc: Global,
    names: &Names<'a, '_>,
    own: &[Vec<u32>],
    form: &Form,
) -> Result<Order<'a>, AllocError>
    requires own { ArePlaceRows (all_places (the_schema names.now))
        (the_schema names.now).declarations (graph_of own.now) }
    requires numbered { AreNumbered (the_schema names.now) form.now }
    ensures { IfOk result (IsOrder (the_schema names.now) form.now) }
{
    let types = ordered_types(alloc, names, &form.types)?;
    let positions = positions_of(alloc, names, own, &form.slots, &types)?;
    let moves = moves_of(alloc, &positions)?;
    Ok(Order {
        types,
        positions,
        moves,
    })
}

/// Returns the order of the values of each of `forms`.
pub(crate) fn orders<'a>(
    alloc: Global,
    names: &Names<'a, '_>,
    own: &[Vec<u32>],
    forms: &[Form],
) -> Result<Vec<Order<'a>>, AllocError>
    requires own { ArePlaceRows (all_places (the_schema names.now))
        (the_schema names.now).declarations (graph_of own.now) }
    requires numbered { Every (AreNumbered (the_schema names.now)) forms.now }
    ensures { IfOk result (λ v. AreOrders (the_schema names.now) forms.now v.items) }
{
    let mut orders = Vec::with_capacity(alloc, forms.len())?;
    for form in forms {
        orders.push(order_of(alloc, names, own, form)?)?;
    }
    Ok(orders)
}
