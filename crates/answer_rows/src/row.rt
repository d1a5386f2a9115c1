//! A row of an answer.
ghost use Rattle.std.specs.Prelude.{◌≡◌};

use adfs_base::Value;
use std::marker::Model;

/// A row of an answer: a value for each column. A contract sees the list of them.
#[derive(Drop)]
pub struct Row {
    values: Vec<Value>,
}

impl Model for Row {
    ghost use Rattle.std.specs.Prelude.{List};
    ghost use Rattle.answer_rows.specs.Arranged.{Cell};

    ghost Value = { List Cell };

    ghost view = { λ r. r.values.items };
}

impl Row {
    /// The row of these values.
    pub fn new(values: Vec<Value>) -> Row
        ensures { result ≡ values.items }
    {
        Row { values }
    }

    /// Its values, in the order of the columns.
    pub fn values(&self) -> &[Value]
        ensures { result.now ≡ self.now }
    {
        &self.values
    }
}
