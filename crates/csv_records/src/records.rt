//! The records that are left of a table.
ghost use Rattle.std.specs.Prelude.{◌≡◌, ◌≤◌, ◌+◌, length, ◌∷◌, [], IfOk, OnOk, OnErr, MatchBool, drop};
ghost use Rattle.std.specs.List.{AllByRecursion};
ghost use Rattle.csv_records.specs.Table.{records_of};

use crate::fields::take_fields;
use crate::lines::{past_line_ends, without_mark};
use crate::row::Row;
use std::alloc::{AllocError, Global};
use std::marker::Model;

/// Reads a table record by record.
///
/// A contract sees the list of the records that are left.
#[derive(Drop)]
pub struct Records<'a> {
    // The bytes that are left, from the end of a record on.
    rest: &'a [u8],
    // Where the bytes of a field are put together that don't stand side by side in the table.
    field: Vec<u8>,
}

impl<'a> Model for Records<'a> {
    ghost use Rattle.std.specs.Prelude.{List, ℕ};
    ghost use Rattle.csv_records.specs.Table.{records_left};

    ghost Value = { List (List (List ℕ)) };

    ghost view = { λ a. records_left a.rest };
}

impl<'a> Records<'a> {
    /// At the start of a table's bytes. A header is a record as any other, and records may differ in their
    /// number of fields.
    #[tactic(auto, using(crate::proofs::TableFacts::few_records))]
    pub fn new(alloc: Global, bytes: &'a [u8]) -> Records<'a>
        ensures records { result ≡ records_of bytes.now }
        ensures few { length result ≤ length bytes.now + 1 }
        ensures narrow { AllByRecursion (λ r. length r ≤ length bytes.now + 1) result }
    {
        Records {
            rest: without_mark(bytes),
            field: Vec::new(alloc),
        }
    }

    /// Reads the next record into `row`, in place of what it holds, and answers false where none is left.
    ///
    /// `AllocError` says that memory ran out: `row`, or the field that is put together, couldn't grow. Then no
    /// record is left.
    pub fn next(&mut self, row: &mut Row<'a>) -> Result<bool, AllocError>
        ensures record_read { IfOk result (λ found. MatchBool found (self.old ≡ row.new ∷ self.new) (self.old ≡ [])) }
        ensures rest { OnOk result (self.new ≡ drop 1 self.old) }
        ensures err { OnErr result (self.new ≡ []) }
    {
        let text = past_line_ends(self.rest);
        // Where memory runs out no record is left.
        self.rest = &[];
        if text.is_empty() {
            return Ok(false);
        }
        row.clear();
        self.rest = take_fields(text, row, &mut self.field)?;
        Ok(true)
    }
}
