//! The records of a table's bytes, one at a time.
//!
//! What the records of a text are is said by the kit's `csv` (`records_of`): RFC 4180 with a comma and
//! double quotes, no trimming, and three things that it leaves open. A byte order mark at the front is
//! dropped, a lone carriage return ends a record too, and blank lines are no records. A quote that is never
//! closed goes on to the end, and bytes after a closing quote join the cell.
//!
//! They are read by loops of this crate, which pass over a cell as one run of bytes, where the kit's own reader
//! looks bytes up one by one in the tables of its state machine. That both read the same is what the clause of
//! `Records::next` says.
//!
//! A record is read into a `Row`, in which a cell lies where the table has it. Only a cell whose bytes don't stand side
//! by side there is put together and copied: one in which a quote is doubled, or in which bytes follow the closing one.
//!
//! A contract sees `Records` as the list of the records that are left, so reading a record is taking the
//! head of that list. No text has more records than bytes and one, and no record more fields.
#![tactic(auto)]

mod fields;
mod lines;
mod records;
mod row;

pub use records::Records;
pub use row::Row;
