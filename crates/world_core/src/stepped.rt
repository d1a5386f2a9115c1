//! What a step answers.
use dfs_worker::Guard;

/// What a step answers.
#[derive(Clone, Copy, Debug, PartialEq, Eq)]
pub enum Stepped {
    /// The event's change was made.
    Done,
    /// The first of the event's guards that fails. Nothing was changed.
    NotEnabled(Guard),
    /// Memory ran out for the row that the event adds. Nothing was changed.
    NoMemory,
}
