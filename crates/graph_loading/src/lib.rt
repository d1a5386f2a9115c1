//! Loading the files of a graph.
//!
//! A manifest names tables of vertices and of edges, which are read with their types into one graph
//! (`load_graph`), or the first fault in order of manifest line, record and column is told. What the graph
//! or the fault is stands in `specs/Loaded.antt`, as a fold over the lists of tables, records and cells;
//! nothing there knows how the bytes are read.
//!
//! Right after `load_graph` each label and each value means something under the texts (`IsWhole`). A store's
//! own faults come only where its counts rose in this call, and of a file that the definition would load.
//! Out of memory is an answer of its own.
#![tactic(auto)]

mod load;
mod rows;

pub use load::load_graph;
