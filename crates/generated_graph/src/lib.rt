//! The graph of a seed.
//!
//! `generated_graph` makes the tables of a seed (`graph_gen`) and loads them as any tables are loaded. What it gives is
//! `graph_due` (specs/Loading.antt), the graph that those tables say. Every seed has one: the tables always load
//! (`laws::tables_load`), so that only memory can run out.
#![tactic(auto)]

pub mod laws;
mod making;

pub use making::generated_graph;
