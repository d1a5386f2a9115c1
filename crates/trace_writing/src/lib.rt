//! A run from the start to its end, written down as it is made.
//!
//! `write_run` makes the events of a run in turn and writes a line for each, then the line `finished`. What it writes is the
//! text of a legal run to a finished world (`IsRunText`, specs/Written.antt), and the rows that it hands out are that
//! world's, which are the leaves of the tree, as a bag. Such a text is taken again: `run_trace` answers it well
//! (`laws::written_runs_are_taken_again`).
//!
//! Which run it is follows from the policy: at which attempt a worker begins, and which worker is looked at next. No clause
//! says which, and two policies may write one run. A line takes no memory but the text's own.
#![tactic(auto)]

pub mod laws;
mod turns;
mod writing;

pub use writing::write_run;
