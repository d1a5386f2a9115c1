//! What the cells of a table say, how values are written, and which of two comes first.
//!
//! A text is kept once, in `Texts`, and a value has its number there. So a contract sees `Texts` as the
//! list of the texts, in order of first appearance; they always differ, and there are fewer than 2^32
//! (`Texts::len` promises both). A text keeps its number for good: `Texts::add` leaves those before it.
//!
//! `read_value` says exactly what a cell of a kind says (`cell_value`, specs/Cells.antt), `put_value`
//! writes exactly what a value shows (`shown`, specs/Shown.antt), and `compare` answers the order of
//! values (`value_order`, specs/Order.antt). A value is valid under texts (`IsValid`) where its text is
//! one of them and its date is of the years 0000 to 9999; `read_value` gives only such values. The text
//! of a date, and of a whole number, reads as that date and number again (`laws`).
//!
//! Only `Texts::add`, `read_value` of a new text, `put_text` and `put_value` take memory.
#![tactic(auto)]

mod cells;
mod dates;
pub mod laws;
mod order;
mod shown;
mod texts;

pub use cells::{CellFault, read_key, read_value};
pub use dates::read_date;
pub use order::compare;
pub use shown::{put_text, put_value};
pub use texts::Texts;
