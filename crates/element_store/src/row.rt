//! What an element has besides its key.
ghost use Rattle.std.specs.Prelude.{◌≡◌, ◌<◌, length};
ghost use Rattle.element_store.specs.Columns.{value_of};
ghost use Rattle.element_store.specs.Tables.{row_at};
ghost use Rattle.element_store.specs.Words as words;

use crate::cells::MISSING;
use crate::near::{Slot, held_of};
use crate::table::Table;
use adfs_base::{Kind, Value};
use std::marker::Model;

/// The label and the values of an element, where its table keeps them. Whoever reads several of them finds the element
/// once. A contract sees the label's number and the values, each with its property's number.
#[derive(Drop)]
pub struct Row<'a> {
    table: &'a Table,
    row: u32,
    start: usize,
    near: &'a [Slot],
    words: &'a [u64],
}

impl<'a> Model for Row<'a> {
    ghost use Rattle.std.specs.Prelude.{ℕ, List};
    ghost use Rattle.element_store.specs.Columns.{Cell};
    ghost use Rattle.element_store.specs.Rows.{IsRowOf};
    ghost use Rattle.element_store.specs.Tables.{row_at};

    ghost Value = { ℕ × List (ℕ × Cell) };

    ghost view = { λ a. row_at a.table.now a.row };

    ghost invariant = { λ a. IsRowOf a.table.now a.row a.start a.near.now a.words.now };
}

impl<'a> Row<'a> {
    /// A row of a table.
    pub(crate) fn new(table: &'a Table, row: u32) -> Row<'a>
        requires { row < length table.now.rows }
        ensures { result ≡ row_at table.now row }
    {
        let start = table.start(row);
        Row {
            table,
            row,
            start,
            near: table.near(),
            words: table.words(row, start),
        }
    }

    /// The number of its label.
    pub fn label(&self) -> u32
        ensures { result ≡ self.now.0 }
    {
        self.table.label()
    }

    /// The value of a property; null where the table has no such column.
    pub fn value(&self, property: u32) -> Value
        ensures { result ≡ value_of self.now.1 property }
    {
        self.table.value(self.row, self.start, property)
    }

    /// The word of that value among those of a kind; none where it is null or of another kind.
    pub fn word(&self, property: u32, kind: Kind) -> Option<u64>
        ensures { result ≡ words.word_from kind (value_of self.now.1 property) }
    {
        if (property as usize) < self.near.len() {
            let slot = self.near[property as usize];
            if slot.held == held_of(kind) {
                let word = self.words[slot.place];
                if word != MISSING {
                    return Some(word);
                }
            }
        }
        self.table.word(self.row, self.start, property, kind)
    }
}
