//! The rows of an answer, in their order.
//!
//! A match of a pattern is seen by what it shows (`Shown`): the values of the order keys, the row, and the
//! numbers of its elements. `rows_in_order` gives the rows of a list of matches in the order of an answer,
//! exactly as `rows_of` (specs/Arranged.antt) says: by the keys, each in its direction, and where they tie by
//! the numbers; with DISTINCT each row stands once, and ties go by the row; then the limit cuts.
#![tactic(auto)]

mod arrange;
mod compare;
mod row;
mod shown;

pub use arrange::{Arrangement, rows_in_order};
pub use row::Row;
pub use shown::Match;
