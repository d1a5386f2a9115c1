//! The texts of a tree's text literals.
//!
//! `literal_count` counts the text literals of a query, and `add_all_literals` gives their texts numbers among those of
//! a graph: what it adds is exactly what `query_literals` of `pgql_tree` lists, in the order of the text, each once.
//! Texts that were there keep their numbers.
#![tactic(auto)]

mod count;
mod literals;

pub use count::literal_count;
pub use literals::add_all_literals;
