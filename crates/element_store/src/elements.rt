//! The elements of one kind, over all their tables.
ghost use Rattle.std.specs.Prelude.{◌≡◌, ◌<◌, ◌≤◌, ◌+◌, ◌-◌, ◌^◌, ◌++◌, ◌∷◌, [], IfOk, OnOk, OnErr, None, Some, length, slice_get};
ghost use Rattle.std.specs.Option.{option_map};
ghost use Rattle.element_store.specs.Columns.{HaveKinds, named, value_of};
ghost use Rattle.element_store.specs.Elements.{AreStacked, HasElement, cells_in, number_of};
ghost use Rattle.element_store.specs.Tables.{labelled};
ghost use Rattle.std.specs.List.{flat_map};

use crate::columns::Columns;
use crate::list::ElementList;
use crate::row::Row;
use crate::table::Table;
use adfs_base::Value;
use indexmap::IndexSet;
use std::alloc::{AllocError, Global};
use std::marker::Model;

/// The vertices of a graph, or what its edges have besides their ends.
///
/// A contract sees the elements in the order of their numbers, and beside them how many tables there are
/// and the label and the columns of the last one, which is the one that grows.
#[derive(Drop)]
pub struct Elements {
    keys: IndexSet<i64>,
    tables: Vec<Table>,
    cells: u64,
}

impl Model for Elements {
    ghost use Rattle.element_store.specs.Elements.{AreFilled, Filled, filled};

    ghost Value = { Filled };

    ghost view = { λ a. filled a.keys.keys a.tables.items };

    ghost invariant = { λ a. AreFilled a.keys.keys a.tables.items a.cells };
}

// The table of an element.
fn table_of(tables: &[Table], number: u32) -> &Table
    requires stacked { AreStacked 0 tables.now }
    requires within { number < length (flat_map labelled tables.now) }
    ensures { HasElement tables.now number result.now }
{
    if tables.len() == 1 {
        return &tables[0];
    }
    let later = tables.partition_point(|table| table.first() <= number);
    &tables[later - 1]
}

/// What an element has besides its key.
pub(crate) fn row_of(tables: &[Table], number: u32) -> Row<'_>
    requires stacked { AreStacked 0 tables.now }
    requires within { number < length (flat_map labelled tables.now) }
    ensures { slice_get (flat_map labelled tables.now) number ≡ Some result }
{
    let table = table_of(tables, number);
    Row::new(table, number - table.first())
}

impl Elements {
    /// No elements and no tables.
    pub fn new(alloc: Global) -> Elements
        ensures { result ≡ record { elements = []; tables = 0; label = 0; columns = [] } }
    {
        Elements {
            keys: IndexSet::new(alloc),
            tables: Vec::new(alloc),
            cells: 0,
        }
    }

    /// How many elements there are.
    pub fn len(&self) -> u32
        requires { length self.now.elements < 2 ^ 32 }
        ensures { result ≡ length self.now.elements }
    {
        self.keys.len() as u32
    }

    /// How many cells all tables have, those that say null among them.
    pub fn cells(&self) -> u64
        ensures { result ≡ cells_in self.now.elements }
    {
        self.cells
    }

    /// The columns of the last table.
    pub fn columns(&self) -> &Columns
        requires { 0 < self.now.tables }
        ensures { result.now ≡ self.now.columns }
    {
        self.tables[self.tables.len() - 1].columns()
    }

    /// The number of the element with this key.
    pub fn number_of(&self, key: i64) -> Option<u32>
        requires { length self.now.elements < 2 ^ 32 }
        ensures { result ≡ number_of self.now.elements key }
    {
        match self.keys.get_index_of(&key) {
            Some(number) => Some(number as u32),
            None => None,
        }
    }

    /// The key and the label of an element.
    pub fn get(&self, number: u32) -> (i64, u32)
        requires { number < length self.now.elements }
        ensures { option_map (λ e. (e.key, e.label)) (slice_get self.now.elements number) ≡ Some result }
    {
        let key = self.keys.as_slice()[number as usize];
        (key, row_of(&self.tables, number).label())
    }

    /// The value that an element has of a property; null where its table has no such column.
    pub fn value(&self, number: u32, property: u32) -> Value
        requires { number < length self.now.elements }
        ensures { option_map (λ e. value_of e.values property) (slice_get self.now.elements number) ≡ Some result }
    {
        row_of(&self.tables, number).value(property)
    }

    /// Begins the next table. After running out of memory nothing has changed.
    pub fn begin_table(
        &mut self,
        alloc: Global,
        label: u32,
        columns: Columns,
    ) -> Result<(), AllocError>
        requires { length self.old.elements < 2 ^ 32 }
        ensures ok { OnOk result (self.new ≡ record { elements = self.old.elements; tables = self.old.tables + 1; label = label; columns = columns }) }
        ensures err { OnErr result (self.new ≡ self.old) }
    {
        let first = self.keys.len() as u32;
        let table = Table::new(alloc, first, label, columns)?;
        self.tables.push(table)?;
        Ok(())
    }

    /// Makes room among the keys for so many more elements.
    pub fn reserve(&mut self, elements: usize) -> Result<(), AllocError>
        ensures { self.new ≡ self.old }
    {
        self.keys.reserve(elements)
    }

    /// Adds an element to the last table. After running out of memory nothing has changed.
    pub fn add(&mut self, key: i64, values: &[Value]) -> Result<(), AllocError>
        requires table { 0 < self.old.tables }
        requires fresh { number_of self.old.elements key ≡ None }
        requires kinds { HaveKinds self.old.columns values.now }
        requires few { length self.old.elements < 2 ^ 32 - 1 }
        requires room { cells_in self.old.elements + length values.now < 2 ^ 64 }
        ensures ok { OnOk result (self.new ≡ record {
          elements = self.old.elements ++ record { key = key; label = self.old.label; values = named self.old.columns values.now } ∷ [];
          tables = self.old.tables;
          label = self.old.label;
          columns = self.old.columns;
        }) }
        ensures err { OnErr result (self.new ≡ self.old) }
    {
        self.keys.reserve(1)?;
        let last = self.tables.len() - 1;
        self.tables[last].push(values)?;
        self.keys.insert_full(key)?;
        self.cells += values.len() as u64;
        Ok(())
    }

    /// The elements alone, which are no longer found by their keys. The memory of that is given back.
    pub fn into_list(self, alloc: Global) -> Result<ElementList, AllocError>
        ensures { IfOk result (λ list. list ≡ self.elements) }
    {
        let keys = Vec::from_slice(alloc, self.keys.as_slice())?;
        Ok(ElementList::new(keys, self.tables))
    }
}
