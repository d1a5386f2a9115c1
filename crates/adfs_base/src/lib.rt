//! What every crate of adfs shares: names, values, limits, and the outside as the program is handed it.
//!
//! The outside is two traits. A `Store` gives files by their names, and a `Sink` takes bytes. Neither is
//! trusted: a store may lack a name, and either may fail. What a contract says of them goes by three
//! things that each of them has, which are seen by contracts alone: what it holds (the files, or the bytes
//! that it took), where it tells that; how often it failed; and for a store, how often it lacked a name.
//! The counts never fall, so that a caller's contract can say 'only where the count rose in this call'.
//!
//! `MemStore` and `MemSink` tell all: their contracts say exactly what each call answers and leaves.
//! Those over real files and streams tell nothing but their counts, and stand in the program's own crate.
#![tactic(auto)]

mod gate;
mod hold_gate;
mod limits;
mod mem_sink;
mod mem_store;
mod name;
mod no_memory;
mod part_word;
mod shape;
mod short_text;
mod sink;
mod step_answers;
mod store;
mod value;

pub use gate::{Gate, OpenGate};
pub use hold_gate::HoldGate;
pub use limits::{
    BROAD_BUDGET, BUFFER_CONTEXTS, CONTEXT_WORDS, CREDITS, EDGE_VARIABLES, EDGES,
    EXPRESSION_HEIGHT, FILE_BYTES, MACHINES, MOST_STAGES, PROPERTY_CELLS, QUERIES, ROOT_CHUNK,
    TABLE_BYTES, TABLES, VERTEX_VARIABLES, VERTICES, WORKERS,
};
pub use mem_sink::MemSink;
pub use mem_store::MemStore;
pub use name::Name;
pub use no_memory::NoMemory;
pub use part_word::PartWord;
pub use shape::Shape;
pub use sink::{Put, Sink};
pub use step_answers::{Charge, Claimed, Closing, Marked, Pick, Word};
pub use store::{Loaded, Store};
pub use value::{Kind, Value};

#[cfg(test)]
mod tests;
