//! A match of a pattern, by what it shows.
ghost use Rattle.std.specs.Prelude.{◌≡◌};

use crate::Row;
use adfs_base::Value;
use std::marker::Model;

/// A match of a pattern, by what it shows. A contract sees it as `Shown`.
#[derive(Drop)]
pub struct Match {
    keys: Vec<Value>,
    row: Row,
    numbers: Vec<u32>,
}

impl Model for Match {
    ghost use Rattle.answer_rows.specs.Arranged.{Shown};

    ghost Value = { Shown };

    ghost view = { λ m. record { keys = m.keys.items; row = m.row; numbers = m.numbers.items } };
}

impl Match {
    /// A match with these values of the order keys, this row and these numbers of its elements.
    pub fn new(keys: Vec<Value>, row: Row, numbers: Vec<u32>) -> Match
        ensures { result ≡ record { keys = keys.items; row = row; numbers = numbers.items } }
    {
        Match { keys, row, numbers }
    }

    /// The values of the order keys.
    pub fn keys(&self) -> &[Value]
        ensures { result.now ≡ self.now.keys }
    {
        &self.keys
    }

    /// The values of the columns.
    pub fn row(&self) -> &[Value]
        ensures { result.now ≡ self.now.row }
    {
        self.row.values()
    }

    /// The numbers of the elements, in the order of their variables.
    pub fn numbers(&self) -> &[u32]
        ensures { result.now ≡ self.now.numbers }
    {
        &self.numbers
    }

    /// The row alone.
    pub fn into_row(self) -> Row
        ensures { result ≡ self.row }
    {
        let Match { row, .. } = self;
        row
    }
}
