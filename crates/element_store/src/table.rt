//! One table of elements.
ghost use Rattle.std.specs.Prelude.{◌≡◌, ◌<◌, ◌+◌, ◌-◌, ◌^◌, ◌++◌, ◌∷◌, [], IfOk, OnOk, OnErr, length};
ghost use Rattle.element_store.specs.Columns.{HaveKinds, value_of};
ghost use Rattle.element_store.specs.Slots.{AreNear};
ghost use Rattle.element_store.specs.Tables.{AddsRow, AreWordsOf, IsRow, row_at};
ghost use Rattle.element_store.specs.Words as words;

use crate::cells::Cells;
use crate::columns::Columns;
use crate::near::{Slot, held_of, near_columns, near_slot};
use crate::words::{value_from, word_from};
use adfs_base::{Kind, Value};
use std::alloc::{AllocError, Global};
use std::marker::Model;

/// The rows of one table, whose elements have numbers from `first` on. Where a property's column stands is told by
/// `near`, if its number is small.
#[derive(Drop)]
pub(crate) struct Table {
    first: u32,
    label: u32,
    rows: u32,
    columns: Columns,
    near: Vec<Slot>,
    cells: Cells,
}

impl Model for Table {
    ghost use Rattle.element_store.specs.Tables.{IsTable, Rows, rows_of};

    ghost Value = { Rows };

    ghost view = { λ a. record { first = a.first; label = a.label; columns = a.columns; rows = rows_of a.columns a.rows a.cells } };

    ghost invariant = { λ a. IsTable a.columns a.near.items a.rows a.cells };
}

impl Table {
    /// A table without rows.
    pub(crate) fn new(
        alloc: Global,
        first: u32,
        label: u32,
        columns: Columns,
    ) -> Result<Table, AllocError>
        ensures { IfOk result (λ table. table ≡ record { first = first; label = label; columns = columns; rows = [] }) }
    {
        let near = near_columns(alloc, &columns)?;
        Ok(Table {
            first,
            label,
            rows: 0,
            columns,
            near,
            cells: Cells::new(alloc),
        })
    }

    /// The number of its first element.
    pub(crate) fn first(&self) -> u32
        ensures { result ≡ self.now.first }
    {
        self.first
    }

    /// The number of its elements' label.
    pub(crate) fn label(&self) -> u32
        ensures { result ≡ self.now.label }
    {
        self.label
    }

    /// Its columns.
    pub(crate) fn columns(&self) -> &Columns
        ensures { result.now ≡ self.now.columns }
    {
        &self.columns
    }

    /// Adds a row of values, one for each column. After running out of memory nothing has changed.
    pub(crate) fn push(&mut self, values: &[Value]) -> Result<(), AllocError>
        requires kinds { HaveKinds self.old.columns values.now }
        requires few { length self.old.rows < 2 ^ 32 - 1 }
        ensures ok { OnOk result (self.new ≡ record { first = self.old.first; label = self.old.label; columns = self.old.columns; rows = self.old.rows ++ values.now ∷ [] }) }
        ensures err { OnErr result (self.new ≡ self.old) }
    {
        push_words(&self.columns, values, &mut self.cells)?;
        self.rows += 1;
        Ok(())
    }

    /// The place of the first cell of a row.
    pub(crate) fn start(&self, row: u32) -> usize
        requires { row < length self.now.rows }
        ensures { IsRow self.now row result }
    {
        // What `len` promises keeps the product in range.
        let _cells = self.cells.len();
        row as usize * self.columns.len()
    }

    /// What it has of properties with small numbers, by these numbers.
    pub(crate) fn near(&self) -> &[Slot]
        ensures { AreNear result.now self.now.columns }
    {
        &self.near
    }

    /// The words of a row whose cells begin at a place. One that may stand for a missing word tells nothing.
    pub(crate) fn words(&self, row: u32, start: usize) -> &[u64]
        requires { IsRow self.now row start }
        ensures { AreWordsOf self.now row result.now }
    {
        self.cells.words(start, self.columns.len())
    }

    /// The value that a row whose cells begin at a place has of a property; null where the table has no such column.
    pub(crate) fn value(&self, row: u32, start: usize, property: u32) -> Value
        requires { IsRow self.now row start }
        ensures { result ≡ value_of (row_at self.now row).1 property }
    {
        match near_slot(&self.columns, &self.near, property).column() {
            Some((place, kind)) => {
                // What `len` promises keeps the sum in range.
                let _cells = self.cells.len();
                value_from(kind, self.cells.get(start + place))
            }
            None => Value::Null,
        }
    }

    /// The word of that value among those of a kind; none where it is null or of another kind.
    pub(crate) fn word(&self, row: u32, start: usize, property: u32, kind: Kind) -> Option<u64>
        requires { IsRow self.now row start }
        ensures { result ≡ words.word_from kind (value_of (row_at self.now row).1 property) }
    {
        let slot = near_slot(&self.columns, &self.near, property);
        if slot.held != held_of(kind) {
            return None;
        }
        // What `len` promises keeps the sum in range.
        let _cells = self.cells.len();
        self.cells.get(start + slot.place)
    }
}

// Adds the words of a row's values, or none.
fn push_words(columns: &Columns, values: &[Value], cells: &mut Cells) -> Result<(), AllocError>
    requires { HaveKinds columns.now values.now }
    ensures ok { OnOk result (AddsRow columns.now values.now cells.old cells.new) }
    ensures err { OnErr result (cells.new ≡ cells.old) }
{
    let start = cells.len();
    for i in 0..values.len() {
        let (_, kind) = columns.get(i);
        if cells.push(word_from(kind, values[i])).is_err() {
            cells.truncate(start);
            return Err(AllocError);
        }
    }
    Ok(())
}
