//! Traces: a run that was written down, taken again.
//!
//! `replay` makes the events of a text in turn, from the start of a run to its end, and tells how many there were and
//! the most that ever stood outside the pools. It answers `Ok` exactly where the text is the lines of a legal run from the
//! start to a finished world, closed by a line `finished` (`laws::replays_are_runs`); else it tells the first line that
//! is no event's, the first event that isn't enabled with the guard that fails first, or that the run isn't finished.
//! What follows `finished` isn't read.
//!
//! What stands outside the pools is counted once, at the start; then each event adds what it puts out and takes off what goes
//! back, which the top of its worker's stack tells (`specs/Gauging.antt`).
//!
//! The rows of a run are never kept: those of an event's worker go as soon as the event is made, so before each event no
//! worker has a row. No event asks what rows there are, and nothing that is told does, so the answer is that of the run
//! with all its rows.
//!
//! The lines themselves are those of `trace_text`.
#![tactic(auto)]

mod gauging;
pub mod laws;
mod replaying;

pub use replaying::{Replayed, replay};
pub use trace_text::{
    Header, PartWord, ReplayFault, put_event, put_header, read_event, read_header,
};
pub use world_core::Gauge;
