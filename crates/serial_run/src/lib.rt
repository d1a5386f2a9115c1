//! One query at a time, by the core on one thread.
//!
//! An `Engine` is the parts of a graph, one for each machine, with the numbers of a run. Its `reply` makes the tree of a
//! query's plan over the parts, runs a world over it to the end, depth first, and makes the text of the reply of the
//! rows. That text is the one that the answer's definition asks for, whoever owns the vertices and whatever the numbers
//! are: where the parts are those of a graph (`IsOver`, specs/Engines.antt), its rows are `answer_of` that graph.
//!
//! The pieces stand by themselves for those who run a world in a way of their own: `tree_over` makes the tree of a query's
//! plan over the parts of a graph, `with_stages` the shape of its run, `rows_of_leaves` the answer of a tree's leaves in
//! whatever order they come, `rows_by_core` the answer by a run of the core, and `reply_of_rows` its text.
#![tactic(auto)]

mod answer;
mod engine;
mod tree;

pub use answer::{reply_of_rows, rows_by_core, rows_of_leaves, with_stages};
pub use engine::Engine;
pub use tree::tree_over;
