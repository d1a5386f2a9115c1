//! Elements that aren't found by their keys.
ghost use Rattle.std.specs.Prelude.{◌≡◌, ◌<◌, ℕ, List, Some, length, slice_get};
ghost use Rattle.std.specs.List.{flat_map};
ghost use Rattle.std.specs.Option.{option_map};
ghost use Rattle.element_store.specs.Columns.{Cell};
ghost use Rattle.element_store.specs.Elements.{HaveRows, joined};
ghost use Rattle.element_store.specs.Tables.{labelled};

use crate::elements::row_of;
use crate::row::Row;
use crate::table::Table;
use std::marker::Model;

/// The vertices of a graph, or what its edges have besides their ends, by their numbers. A contract sees the list of
/// them.
#[derive(Drop)]
pub struct ElementList {
    keys: Vec<i64>,
    tables: Vec<Table>,
}

impl Model for ElementList {
    ghost use Rattle.std.specs.Prelude.{List};
    ghost use Rattle.std.specs.List.{flat_map};
    ghost use Rattle.element_store.specs.Elements.{Element, HaveRows, joined};
    ghost use Rattle.element_store.specs.Tables.{labelled};

    ghost Value = { List Element };

    ghost view = { λ a. joined a.keys.items (flat_map labelled a.tables.items) };

    ghost invariant = { λ a. HaveRows a.keys.items a.tables.items };
}

impl ElementList {
    /// The elements with these keys and rows.
    pub(crate) fn new(keys: Vec<i64>, tables: Vec<Table>) -> ElementList
        requires { HaveRows keys.items tables.items }
        ensures { result ≡ joined keys.items (flat_map labelled tables.items) }
    {
        ElementList { keys, tables }
    }

    /// How many elements there are.
    pub fn len(&self) -> usize
        ensures { result ≡ length self.now }
    {
        self.keys.len()
    }

    /// The key of an element.
    pub fn key(&self, number: u32) -> i64
        requires { number < length self.now }
        ensures { option_map (λ e. e.key) (slice_get self.now number) ≡ Some result }
    {
        self.keys[number as usize]
    }

    /// What an element has besides its key.
    pub fn row(&self, number: u32) -> Row<'_>
        requires { number < length self.now }
        ensures { option_map {U = ℕ × List (ℕ × Cell)} (λ e. (e.label, e.values)) (slice_get self.now number) ≡ Some result }
    {
        row_of(&self.tables, number)
    }

    /// The label of an element.
    pub fn label(&self, number: u32) -> u32
        requires { number < length self.now }
        ensures { option_map (λ e. e.label) (slice_get self.now number) ≡ Some result }
    {
        self.row(number).label()
    }
}
