//! Where a graph keeps the keys and the property values of its elements.
//!
//! The elements of a kind, the vertices or the edges, come from tables. All rows of a table have the same
//! columns, so a table keeps its rows in one flat array, row after row: a cell is a word of 8 bytes with a
//! bit beside it that says whether the cell has a value, and which is looked at only where the word is the one that
//! null cells have. No row and no cell has memory of its own.
//!
//! A contract sees `Elements` as `Filled`: the list of the elements, each with its key, its label and the
//! values of its columns, and beside it what the table that is being filled says of its rows.
//!
//! `Elements::into_list` drops the index of keys and keeps the rest, an `ElementList`: elements that are read by their
//! numbers alone. A `Row` is where an element's label and values stand: who reads several of them finds it once.
//!
//! The invariants are these. Each table has a row of cells for each of its elements. The tables stand in
//! the order of their elements, and each knows the number of its first one. The index of keys has the key
//! of each element at the element's number. Each table tells by a property's number where its column stands, if that
//! number is small (`near`).
#![tactic(auto)]

mod bits;
mod cells;
mod columns;
mod elements;
mod list;
mod near;
mod row;
mod table;
mod words;

pub use columns::Columns;
pub use elements::Elements;
pub use list::ElementList;
pub use row::Row;
pub use words::{value_from, word_from};
