//! The trace of a query: its run over the parts of a graph, written down, and taken again.
//!
//! `trace_text` writes what the run is on, a line for each event, `finished`, and then the reply: the run is a legal one of
//! the core on the query's tree, to its end, and the reply is that of the answer's definition, whatever the run
//! (`IsTraceText`, specs/Traces.antt). `replay_text` takes the events of such a text again and tells how many there were, and
//! the most that stood outside the pools beside the bound that the shape sets; or why the text isn't that of a run.
#![tactic(auto)]

mod again;
pub mod laws;
mod trace;

pub use again::replay_text;
pub use trace::trace_text;
