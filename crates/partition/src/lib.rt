//! Machines' parts of a graph.
//!
//! An `Owner` gives each vertex of a graph to a machine, and `split` makes the part of each: its vertices
//! with their keys, labels and values, and for each of them the list of the edges that begin at it and the
//! list of those that end at it. So an edge stands in the lists of both of its ends, which may be of
//! different parts.
//!
//! A contract sees a `Part` as a `MachinePart` (specs/Parts.antt). `split` gives exactly the parts that the
//! definition filters out of the graph's lists (`PartsMeet`), and each reader tells exactly what it names. That these
//! parts together are the graph is a law (`laws::parts_are_the_graph`).
//!
//! The edges are dealt out once for all machines: one pass in each direction leaves at each vertex its first edge
//! and at each edge the next of the same vertex (`Chains`), and the lists are filled along these. A list keeps 16
//! bytes for each of its edges, side by side (`Link`). Who has which vertex, and keys, labels and values of all
//! elements, are held once, for all parts (`Shared`). The index of keys is given back before the lists are made, the
//! chains and the edges' ends right after them. A part's invariant (`IsPart`) says that its spans lie in its array of
//! links, and that these and its vertices lead to elements.
//!
//! `read_owners` reads an owner from a file, and says exactly what the file says or its first fault
//! (`owners_of`, specs/OwnerFile.antt). Only `read_owners` and `split` take memory.
#![tactic(auto)]

mod adjacency;
mod adjacent;
mod chains;
mod dealing;
mod fault;
pub mod laws;
mod link;
mod lists;
mod owner;
mod owner_file;
mod owner_line;
mod part;
mod shared;
mod splitting;

pub use adjacent::Adjacent;
pub use fault::PartFault;
pub use link::Link;
pub use owner::{MachineList, Owner};
pub use owner_file::read_owners;
pub use part::Part;
pub use splitting::split;
