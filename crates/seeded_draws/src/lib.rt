//! Numbers that follow from one number, the seed.
//!
//! Equal seeds give equal numbers on every machine: schedules and made graphs are named by them. The numbers are
//! those of SplitMix64, a counter whose bits are spread: `Draws::next` gives exactly `draw` of the next state
//! (specs/Draws.antt), and the nth of them is `nth_draw`. Nothing is said of how evenly they fall.
#![tactic(auto)]

mod draws;

pub use draws::Draws;

#[cfg(test)]
mod tests;
