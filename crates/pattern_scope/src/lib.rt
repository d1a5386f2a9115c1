//! What the patterns of MATCH declare.
//!
//! `scope_of` reads the patterns in their order and gives exactly what they declare (`scope_of`, specs/Scope.antt):
//! the variables, with the label lists of each, the joins of edges, and the faults that the patterns have. What a
//! name stands for is looked up at once, however many there are (`Declarations`, which contracts see as the list
//! of what was declared).
//!
//! `add_disconnected` tells each vertex that edge patterns don't join with the first one. What that means needs no
//! groups: a set of variables has the first one, of each edge both ends or neither, and lacks the vertex
//! (`laws::not_joined_is_apart`). It is found in time that hardly outgrows the number of edges.
#![tactic(auto)]

pub mod declarations;
pub mod fault;
pub mod joined;
pub mod laws;
pub mod scope;
