//! Graphs of random edges, as the tables of a manifest.
//!
//! A large job that anyone can make again from three numbers: the seed, and how many vertices and edges there are.
//! `generate` gives exactly the three texts of `specs/Generated.antt`: each vertex has a weight below 1,000, and each
//! edge goes from one vertex to another, all drawn in turn from the numbers of the seed (`seeded_draws`).
//!
//! `Tables` is a store of these three files, in memory, which never fails.
#![tactic(auto)]

mod files;
mod tables;

pub use files::MANIFEST;
pub use tables::{Tables, generate};

#[cfg(test)]
mod tests;
