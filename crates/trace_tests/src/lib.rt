//! Tests of the lines of traces, over the public calls of `trace_text` alone, which is proved without them.
//!
//! Whole traces, and what a trace that is broken is told, are cases for the built program.
#![tactic(auto)]

#[cfg(test)]
mod lines;
