//! What queries answer, as definitions and as a plain program.
//!
//! An assignment gives each variable of a query the number of an element. It fits where it passes each of the
//! query's tests (specs/Fits.antt): labels, ends of edges, and the parts of the condition. The answer
//! (`answer_of`, specs/Answer.antt) is a row for each assignment that fits, in the order of the keys. In these
//! definitions there are lists, a test of whole assignments and a sort, and no loop.
//!
//! `answer_plain` gives exactly that answer, by nested loops over the variables, of which it leaves those
//! branches out in which an edge or a label can't fit any more.
#![tactic(auto)]

mod captured;
mod fits;
pub mod laws;
mod plain;
mod search;

pub use answer_rows::Row;
pub use plain::{answer_plain, arrangement_of};
pub use search::shown;
