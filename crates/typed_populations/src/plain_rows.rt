//! A typed population as plain rows, which can be processed without the schema.

ghost use Rattle.std.specs.Prelude.{
  ◌≡◌,
  ℕ,
  [],
  ◌∷◌,
  ◌++◌,
  length,
  map,
  IfOk,
  MatchResult,
  OnOk,
  List,
  ◌<◌,
  ◌^◌,
  set,
  option_copied,
};
ghost use Rattle.std.specs.Bool.{OnTrue};
ghost use Rattle.std.specs.List.{All, AllZip};
ghost use Rattle.std.specs.Option.{IfSome};
ghost use Rattle.express_syntax.specs.Profile.{Every};
ghost use Rattle.step_exchange.specs.Sections.{CountsTo};
ghost use Rattle.step_values.specs.steps.Ordering.{row_at};
ghost use Rattle.step_values.specs.References.{EachReferenceOf};
ghost use Rattle.step_values.specs.steps.Targets.{LeadTo, ReferTo};
ghost use Rattle.step_values.specs.Views.{word_of};
ghost use Rattle.value_equality.specs.SortedTypes.{IsSettled};
ghost use Rattle.value_equality.specs.Views.{head_names, rows_from, type_lists_of};
ghost use Rattle.population_rows.specs.Index.{found, place_of};
ghost use Rattle.schema_names.specs.Schemas.{the_schema};
ghost use Rattle.parameter_fits.specs.steps.References.{IsFound, AreFound};
ghost use Rattle.typed_populations.specs.Rows.{section_numbers};
ghost use Rattle.typed_populations.specs.PopulationViews.{population_seen};
ghost use Rattle.conformance.specs.PlainRows.{AreRowsOf};
ghost use Rattle.typed_populations.specs.ValueOrder.{
  AreOrders,
  HasMoves,
  CanMove,
  AllCanMove,
  order_among,
  row_picked,
  rows_picked,
  types_each,
  heads_made,
  sorted_heads,
};

use crate::copies::push_all_picked;
use crate::population::Population;
use crate::value_order::{Moves, Order, orders};
use population_rows::index::RowIndex;
use population_rows::rows::Rows;
use schema_explicit_attributes::attributes::explicit_attributes;
use std::alloc::{AllocError, Global};
use std::hash::RandomState;
use step_exchange::laws::exchanges_are_named;
use step_exchange::section::Section;
use step_exchange::structure::Exchange;
use step_literals::literal::Word;
use step_values::cell::Cell;
use step_values::row_builder::RowBuilder;
use step_values::rows::ValueRows;
use step_values::slot::Slots;
use value_equality::plain::Plain;
use value_equality::row::RowHead;

/// Returns the order of the values of an instance whose form has this number, if it has a form.
fn order_at<'o, 's>(orders: &'o [Order<'s>], number: Option<u32>) -> Option<&'o Order<'s>>
    ensures { option_copied result ≡ order_among orders.now number }
{
    match number {
        Some(number) => orders.get(number as usize),
        None => None,
    }
}

/// Builds the row of an instance, with `values` in `order`; an instance without an order has no
/// values.
fn push_row<'p, 'v>(
    builder: &mut RowBuilder<'_, 'v>,
    index: &RowIndex,
    values: &Slots<'p, 'v>,
    order: Option<&Order<'_>>,
) -> Result<(), AllocError>
    requires indexed { AreFound builder.old.names (found index.now) }
    requires within { EachReferenceOf (IsFound (found index.now)) values.now }
    requires whole { builder.old.pending ≡ [] }
    ensures { OnOk result (builder.new ≡ record builder.old {
      rows = builder.old.rows ++ row_picked (option_copied order.entry) values.now ∷ [];
    }) }
{
    if let Some(order) = order {
        push_all_picked(builder, index, values, &order.positions)?;
    }
    builder.close_row()
}

/// Returns copies of the values of the instances called `names`, each row in the order of its form.
fn ordered_values<'v>(
    alloc: Global,
    names: &[u64],
    rows: &Rows,
    values: &ValueRows<'v>,
    orders: &[Order<'_>],
) -> Result<ValueRows<'v>, AllocError>
    requires indexed { (y : ℕ) → found rows.now.index y ≡ place_of names.now y }
    requires all { ReferTo names.now values.now.rows }
    requires forms { length rows.now.form_of.items ≡ length names.now }
    requires each { length values.now.rows ≡ length names.now }
    ensures rows { IfOk result (λ v. v.rows
        ≡ rows_picked orders.now rows.now.form_of.items values.now.rows) }
    ensures leads { IfOk result (λ v. LeadTo names.now v.targets) }
    ensures refers { IfOk result (λ v. ReferTo names.now v.rows) }
{
    let mut builder = RowBuilder::new(alloc, names);
    builder.reserve(values.cells().len(), names.len())?;
    for i in 0..names.len() {
        let order = order_at(orders, rows.form_of[i]);
        push_row(&mut builder, &rows.index, &values.row(i), order)?;
    }
    Ok(builder.finish())
}

/// Whether `values` can be moved into `order`. Without an order this requires that there are no
/// values.
fn can_move(order: Option<&Order<'_>>, values: &Slots<'_, '_>) -> bool
    ensures { OnTrue result (CanMove (option_copied order.entry) values.now) }
{
    let Some(order) = order else {
        return values.len() == 0;
    };
    match &order.moves {
        Moves::Kept(count) => values.len() == *count,
        Moves::Moved(places) => values.len() == places.len(),
        Moves::Copied => false,
    }
}

/// Whether the values of each row can be moved into the order of its form.
fn all_can_move(orders: &[Order<'_>], rows: &Rows, values: &ValueRows<'_>) -> bool
    requires { length rows.now.form_of.items ≡ length values.now.rows }
    ensures { OnTrue result
        (AllCanMove orders.now rows.now.form_of.items values.now.rows) }
{
    for i in 0..rows.form_of.len() {
        if !can_move(order_at(orders, rows.form_of[i]), &values.row(i)) {
            return false;
        }
    }
    true
}

/// Moves the values of `row` into `order`. The content of `spare` is overwritten.
fn reorder_row<'v>(
    values: &mut ValueRows<'v>,
    row: usize,
    order: Option<&Order<'_>>,
    spare: &mut Vec<Cell<'v>>,
) -> Result<(), AllocError>
    requires row { row < length values.old.rows }
    requires known { IfSome (option_copied order) HasMoves }
    requires fits { CanMove (option_copied order) (row_at values.old.rows row) }
    ensures rows { OnOk result (values.new.rows ≡ set values.old.rows row
        (row_picked (option_copied order.entry) (row_at values.old.rows row))) }
    ensures targets { (names : List ℕ) → LeadTo names values.old.targets
        → LeadTo names values.new.targets }
{
    let Some(order) = order else {
        return Ok(());
    };
    let Moves::Moved(places) = &order.moves else {
        return Ok(());
    };
    values.reorder(row, places, spare)
}

/// Moves the values of each row into the order of its form.
fn reorder_rows<'v>(
    alloc: Global,
    orders: &[Order<'_>],
    rows: &Rows,
    values: &mut ValueRows<'v>,
) -> Result<(), AllocError>
    requires known { Every HasMoves orders.now }
    requires each { length rows.now.form_of.items ≡ length values.old.rows }
    requires fits { AllCanMove orders.now rows.now.form_of.items values.old.rows }
    ensures rows { OnOk result (values.new.rows
        ≡ rows_picked orders.now rows.now.form_of.items values.old.rows) }
    ensures targets { (names : List ℕ) → LeadTo names values.old.targets
        → LeadTo names values.new.targets }
{
    let mut spare: Vec<Cell<'v>> = Vec::new(alloc);
    for i in 0..rows.form_of.len() {
        let order = order_at(orders, rows.form_of[i]);
        reorder_row(values, i, order, &mut spare)?;
    }
    Ok(())
}

/// Returns the values of the instances called `names`, each row in the order of its form. The
/// values are moved in place if possible, otherwise copied.
fn reordered<'v>(
    alloc: Global,
    names: &[u64],
    rows: &Rows,
    values: ValueRows<'v>,
    orders: &[Order<'_>],
) -> Result<ValueRows<'v>, AllocError>
    requires indexed { (y : ℕ) → found rows.now.index y ≡ place_of names.now y }
    requires known { Every HasMoves orders.now }
    requires leads { LeadTo names.now values.targets }
    requires all { ReferTo names.now values.rows }
    requires forms { length rows.now.form_of.items ≡ length names.now }
    requires each { length values.rows ≡ length names.now }
    ensures rows { IfOk result (λ v. v.rows
        ≡ rows_picked orders.now rows.now.form_of.items values.entry.rows) }
    ensures leads { IfOk result (λ v. LeadTo names.now v.targets) }
    ensures refers { IfOk result (λ v. ReferTo names.now v.rows) }
{
    if !all_can_move(orders, rows, &values) {
        return ordered_values(alloc, names, rows, &values, orders);
    }
    let mut values = values;
    reorder_rows(alloc, orders, rows, &mut values)?;
    Ok(values)
}

/// Returns the index of the data section of each instance, in order. Fails if there are more than
/// 2^32 sections.
fn row_sections(alloc: Global, sections: &[Section<'_>]) -> Result<Vec<u32>, AllocError>
    requires { (n : ℕ) × CountsTo 0 sections.now n }
    ensures { IfOk result (λ v. v.items ≡ section_numbers 0 0 sections.now) }
{
    let mut numbers = Vec::new(alloc);
    for k in 0..sections.len() {
        let Ok(number) = u32::try_from(k) else {
            return Err(AllocError);
        };
        numbers.resize(sections[k].past as usize, number)?;
    }
    Ok(numbers)
}

/// Returns the heads of the rows of instances, in order. The type list of an instance is numbered
/// like its form; instances without a form have the number `formless`.
fn heads(
    alloc: Global,
    sections: &[u32],
    names: &[u64],
    form_of: &[Option<u32>],
    formless: u32,
) -> Result<Vec<RowHead>, AllocError>
    requires sections { length sections.now ≡ length names.now }
    requires forms { length form_of.now ≡ length names.now }
    ensures made { IfOk result
        (λ v. v.items ≡ heads_made formless sections.now names.now form_of.now) }
    ensures range { IfOk result (λ v. All (λ y. y < 2 ^ 64) (head_names v.items)) }
{
    let mut heads = Vec::with_capacity(alloc, names.len())?;
    for i in 0..names.len() {
        heads.push(RowHead {
            name: names[i],
            section: sections[i],
            type_list: form_of[i].unwrap_or(formless),
        })?;
    }
    Ok(heads)
}

/// Returns the number of orders, which is no index of an order. Fails if there are 2^32 orders or
/// more.
fn beyond(orders: &[Order<'_>]) -> Result<u32, AllocError>
    ensures { IfOk result (λ n. n ≡ length orders.now) }
{
    match u32::try_from(orders.len()) {
        Ok(number) => Ok(number),
        Err(_) => Err(AllocError),
    }
}

/// Returns a copy of `words`.
fn copied<'s: 'c, 'c>(alloc: Global, words: &[Word<'s>]) -> Result<Vec<Word<'c>>, AllocError>
    ensures { IfOk result (λ v. map word_of v.items ≡ map word_of words.now) }
{
    let mut copied: Vec<Word<'c>> = Vec::with_capacity(alloc, words.len())?;
    for word in words {
        copied.push(*word)?;
    }
    Ok(copied)
}

/// Returns the types of each order.
fn type_lists<'s: 'c, 'c>(
    alloc: Global,
    orders: &[Order<'s>],
) -> Result<Vec<Vec<Word<'c>>>, AllocError>
    ensures { IfOk result (λ v. type_lists_of v.items ≡ types_each orders.now) }
{
    let mut type_lists = Vec::with_capacity(alloc, orders.len())?;
    for order in orders {
        type_lists.push(copied(alloc, &order.types)?)?;
    }
    Ok(type_lists)
}

/// Returns the heads of the rows of the instances of `exchange`. The type list of an instance is
/// numbered like its form; instances without a form have the number `formless`.
fn heads_of(
    alloc: Global,
    exchange: &Exchange<'_>,
    form_of: &[Option<u32>],
    formless: u32,
) -> Result<Vec<RowHead>, AllocError>
    requires sections { length (section_numbers 0 0 exchange.now.sections.items)
        ≡ length exchange.now.names }
    requires forms { length form_of.now ≡ length exchange.now.names }
    ensures made { IfOk result (λ v. v.items ≡ heads_made formless
        (section_numbers 0 0 exchange.now.sections.items) exchange.now.names form_of.now) }
    ensures range { IfOk result (λ v. All (λ y. y < 2 ^ 64) (head_names v.items)) }
{
    let sections = row_sections(alloc, &exchange.sections)?;
    heads(
        alloc,
        &sections,
        exchange.names.as_slice(),
        form_of,
        formless,
    )
}

/// Builds the rows of the instances of `exchange`, whose values are `values`, and whose types are
/// those of the orders of their forms. `index` finds the row of each name.
fn rows_with<'s: 'v, 'v>(
    alloc: Global,
    exchange: &Exchange<'_>,
    form_of: &[Option<u32>],
    orders: &[Order<'s>],
    values: ValueRows<'v>,
    index: RowIndex,
) -> Result<Plain<'v>, AllocError>
    requires sections { length (section_numbers 0 0 exchange.now.sections.items)
        ≡ length exchange.now.names }
    requires forms { length form_of.now ≡ length exchange.now.names }
    requires each { length values.rows ≡ length exchange.now.names }
    requires leads { LeadTo exchange.now.names values.targets }
    requires refers { ReferTo exchange.now.names values.rows }
    requires indexed { (y : ℕ) → found index y ≡ place_of exchange.now.names y }
    ensures { IfOk result (λ p. AllZip IsSettled
        (rows_from (sorted_heads orders.now exchange.now form_of.now) values.entry.rows) p) }
{
    exchanges_are_named();
    let formless = beyond(orders)?;
    let heads = heads_of(alloc, exchange, form_of, formless)?;
    let type_lists = type_lists(alloc, orders)?;
    Plain::from_parts(heads, type_lists, values, index)
}

impl<'s: 'a, 't, 'r, 'a> Population<'s, 't, 'r, 'a> {
    /// Returns the order of the values of each form.
    fn orders(&self, alloc: Global) -> Result<Vec<Order<'s>>, AllocError>
        ensures { IfOk result (λ v. AreOrders (the_schema self.now.types.now.names)
            self.now.rows.forms.items v.items) }
    {
        let types = &self.types.names;
        let explicit = explicit_attributes(alloc, types.schema)?;
        orders(alloc, types, &explicit.own, &self.rows.forms)
    }

    /// Returns copies of the values of all instances, each row in the order of its form.
    fn in_order(&self, alloc: Global, orders: &[Order<'_>]) -> Result<ValueRows<'a>, AllocError>
        ensures rows { IfOk result (λ v. v.rows ≡ rows_picked orders.now
            self.now.rows.form_of.items self.now.values.rows) }
        ensures each { IfOk result (λ v. length v.rows ≡ length self.now.exchange.now.names) }
        ensures leads { IfOk result (λ v. LeadTo self.now.exchange.now.names v.targets) }
        ensures refers { IfOk result (λ v. ReferTo self.now.exchange.now.names v.rows) }
    {
        let names = self.exchange.names.as_slice();
        ordered_values(alloc, names, &self.rows, &self.values, orders)
    }

    /// Returns the population as plain rows, in the order of the file. Each row has:
    ///
    /// - the name and the data section of the instance,
    /// - its types, sorted by name,
    /// - the values of the attributes that these types declare: type by type, and for each type in
    ///   the order of its declarations.
    ///
    /// Names are hashed by `keys`.
    pub fn plain(&self, alloc: Global, keys: RandomState) -> Result<Plain<'a>, AllocError>
        ensures { IfOk result (λ p. AreRowsOf (the_schema self.now.types.now.names)
            (population_seen self.now) p) }
    {
        exchanges_are_named();
        let orders = self.orders(alloc)?;
        let values = self.in_order(alloc, &orders)?;
        let index = RowIndex::of(alloc, keys, self.exchange.names.as_slice())?;
        rows_with(
            alloc,
            self.exchange,
            &self.rows.form_of,
            &orders,
            values,
            index,
        )
    }

    /// Returns the population as the plain rows that `plain` returns, and consumes it. The values
    /// are moved in place if possible, and the index of the population is used again.
    pub fn into_plain(self, alloc: Global) -> Result<Plain<'a>, AllocError>
        ensures { IfOk result (λ p. AreRowsOf
            (the_schema self.entry.types.now.names) (population_seen self.entry) p) }
    {
        let orders = self.orders(alloc)?;
        let Population {
            exchange,
            rows,
            values,
            ..
        } = self;
        let names = exchange.names.as_slice();
        let values = reordered(alloc, names, &rows, values, &orders)?;
        let Rows { index, form_of, .. } = rows;
        rows_with(alloc, exchange, &form_of, &orders, values, index)
    }
}
