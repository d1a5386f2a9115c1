//! Tests of the crates that hold values, graphs and machines' parts of them, over their public calls.
#![tactic(auto)]

#[cfg(test)]
mod graphs;
#[cfg(test)]
mod parts;
#[cfg(test)]
mod values;
