//! Property graphs, and what the front of their files says: the manifest and the headers of tables.
//!
//! A contract sees a `Graph` as a `PropertyGraph` (`specs/Graph.antt`): the vertices and the edges in the
//! order of their numbers, the texts, and the properties of either kind. Each edge ends at vertices. A graph
//! that was loaded (`graph_loading`) also has a meaning for each label and each value under its texts, and its
//! values have the kinds of their properties (`IsWhole`). The first stays so as long as the texts that
//! `Graph::detach` gives away are kept beside it.
//!
//! `manifest` and `heading` say exactly which tables a manifest names and which columns a header has
//! (`specs/Manifest.antt`, `specs/Headers.antt`), or the first fault. `Loading` is a graph that is being
//! loaded, as plain data; what it keeps from record to record is `IsSound` (`specs/Loading.antt`).
//!
//! Out of memory is an answer of its own. Of `Graph`'s calls only `into_bare` takes memory.
#![tactic(auto)]

mod bare;
mod element_kind;
mod faults;
mod graph;
mod header;
mod loading;
mod manifest;
mod names;
mod properties;
mod record_cells;

pub use bare::BareGraph;
pub use element_kind::{ElementKind, key_count};
pub use faults::{Place, Quantity, TableFault, TableKind, file_fault};
pub use graph::Graph;
pub use header::heading;
pub use loading::{Ends, Loading};
pub use manifest::{TableLine, read_manifest};
pub use properties::{Properties, Schema};
pub use record_cells::cell;
