//! How the command line says which machine owns which vertex.
use crate::Name;

/// How the vertices are dealt out to the machines, as the command line says it.
#[derive(Drop, Debug)]
pub enum PartWord {
    /// Vertex number i goes to machine i modulo the number of machines.
    Modulo,
    /// Each machine has a run of vertex numbers, all of one length but the last.
    Block,
    /// The file of this name says each vertex's machine.
    Listed(Name),
}
