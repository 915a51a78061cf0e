//! Access to the instances of a typed population.

ghost use Rattle.std.specs.Prelude.{◌≡◌, ◌<◌, ◌≤◌, ℕ, None, Some, length, map, IfSome};
ghost use Rattle.parsing.specs.Nodes.{IsColumn};
ghost use Rattle.step_exchange.specs.Exchanges.{structure};
ghost use Rattle.step_values.specs.steps.Building.{AreRunsOf};
ghost use Rattle.step_values.specs.Cells.{value_nodes};
ghost use Rattle.step_values.specs.steps.Targets.{LeadTo, targets_of};
ghost use Rattle.express_syntax.specs.Profile.{Every};
ghost use Rattle.schema_names.specs.Numbers.{HasNumber};
ghost use Rattle.schema_names.specs.Schemas.{the_schema};
ghost use Rattle.schema_explicit_attributes.specs.Places.{all_places};
ghost use Rattle.population_rows.specs.declared.form.SlotForm.{SlotForm};
ghost use Rattle.population_rows.specs.steps.Rows.{form_at as form_in_rows};
ghost use Rattle.population_rows.specs.Index.{found, place_of};
ghost use Rattle.schema_underlying_types.specs.BaseViews.{name_at};
ghost use Rattle.conformance.specs.OtherNames.{other_names};
ghost use Rattle.conformance.specs.Populations.{value_of, types_at};
ghost use Rattle.typed_populations.specs.Rows.{place_at};
ghost use Rattle.typed_populations.specs.PopulationViews.{population_seen, nodes_seen};
ghost use Rattle.typed_populations.specs.TypedPopulations.{IsTyped};
ghost use Rattle.typed_populations.specs.ValueOrder.{position_among};
ghost use Rattle.typed_populations.specs.PopulationTables.{form_among, slots_by_form, types_by_form};

use crate::population::Population;
use population_rows::form::SlotForm;
use population_rows::rows::form_at;
use step_values::cell::Cell;
use step_values::slot::Slot;

/// Returns the index of the explicit attribute numbered `place` among `slots`, if any.
pub fn position_of(slots: &[SlotForm], place: u32) -> Option<usize>
    ensures { result ≡ place_of (map (λ (x : SlotForm). x.place) slots.now) place }
{
    for i in 0..slots.len() {
        if slots[i].place == place {
            return Some(i);
        }
    }
    None
}

impl<'s, 't, 'r, 'a> Population<'s, 't, 'r, 'a> {
    /// A lemma: the instances are those of the exchange structure by its types, and the structure
    /// has no findings, rules aside (ISO 10303-21, 11).
    pub fn is_of_its_exchange(&self)
        ensures { ∥ IsTyped (the_schema self.now.types.now.names)
            (other_names self.now.types.now.names.schema.now) (structure self.now.exchange.now)
            (population_seen self.now) ∥₁ }
    {}

    /// Returns the number of instances.
    pub fn len(&self) -> usize
        ensures { result ≡ length (population_seen self.now) }
    {
        self.exchange.names.len()
    }

    /// Returns the row of the instance called `name`, if any. Rows are counted from 0 in the order
    /// of the file. Allocates no memory.
    pub fn row_of(&self, name: u64) -> Option<u32>
        ensures found { result ≡ found self.now.rows.index name }
        ensures within { IfSome result (λ row. row < length (population_seen self.now)) }
    {
        self.rows.index.find(name)
    }

    /// Returns the number of the form of the instance of `row`, as an index into `forms`. Allocates
    /// no memory.
    pub fn form_of_row(&self, row: u32) -> Option<u32>
        requires { row < length (population_seen self.now) }
        ensures form { form_among self.now.rows.forms.items result
            ≡ form_in_rows self.now.rows row }
        ensures types { (name : ℕ) → found self.now.rows.index name ≡ Some row
            → types_at (population_seen self.now) name
            ≡ map (name_at (the_schema self.now.types.now.names))
            (types_by_form (form_among self.now.rows.forms.items result)) }
    {
        self.rows.form_of[row as usize]
    }

    /// Returns the value of the instance of `row` for the attribute at `position` in its form, if
    /// it has one. Allocates no memory.
    pub fn value_at(&self, row: u32, position: usize) -> Option<Slot<'_, 'a>>
        requires { row < length (population_seen self.now) }
        ensures { (name place : ℕ) → found self.now.rows.index name ≡ Some row
            → place < length (all_places (the_schema self.now.types.now.names))
            → position_among (slots_by_form (form_in_rows self.now.rows row)) place ≡ Some position
            → result ≡ value_of (population_seen self.now) name
            (place_at (the_schema self.now.types.now.names) place) }
    {
        self.values.row(row as usize).item(position)
    }

    /// Returns the value of the instance called `name` for the explicit attribute numbered `place`.
    /// Returns `None` if there is no such instance or attribute, or if the instance has no value
    /// for it. Allocates no memory.
    pub fn value(&self, name: u64, place: u32) -> Option<Slot<'_, 'a>>
        ensures there { place < length (all_places (the_schema self.now.types.now.names))
            → result ≡ value_of (population_seen self.now) name
            (place_at (the_schema self.now.types.now.names) place) }
        ensures beyond { length (all_places (the_schema self.now.types.now.names)) ≤ place
            → result ≡ None }
    {
        let Some(row) = self.row_of(name) else {
            return None;
        };
        let Some(form) = form_at(&self.rows, row as usize) else {
            return None;
        };
        let Some(position) = position_of(&form.slots, place) else {
            return None;
        };
        self.value_at(row, position)
    }

    /// Returns the numbers of the types of the instance called `name`, in the order of the schema;
    /// empty if there is no such instance. Allocates no memory.
    pub fn types_of(&self, name: u64) -> &[u32]
        ensures types { map (name_at (the_schema self.now.types.now.names)) result.now
            ≡ types_at (population_seen self.now) name }
        ensures numbered { Every (λ i. HasNumber (the_schema self.now.types.now.names)
            (name_at (the_schema self.now.types.now.names) i) i) result.now }
    {
        let Some(row) = self.row_of(name) else {
            return &[];
        };
        match form_at(&self.rows, row as usize) {
            Some(form) => &form.types,
            None => &[],
        }
    }

    /// Returns the column of cells with the values of all instances, one after the other. It has a
    /// cell for each node of a value, after the cells of what is inside the node. The cell of a
    /// reference has the row of the instance that it refers to. Allocates no memory.
    pub fn cells(&self) -> &[Cell<'a>]
        ensures column { IsColumn value_nodes result.now }
        ensures count { length result.now ≡ nodes_seen (population_seen self.now) }
        ensures rows { AreRunsOf result.now self.now.values.rows }
        ensures references { ∥ LeadTo self.now.exchange.now.names (targets_of result.now) ∥₁ }
    {
        self.values.cells()
    }
}
