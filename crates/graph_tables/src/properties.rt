//! The properties of a graph.
ghost use Rattle.std.specs.Prelude.{◌≡◌, ◌<◌, ◌≤◌, ◌+◌, ◌-◌, ◌^◌, ◌++◌, ◌∷◌, [], IfOk, OnErr, length, None};
ghost use Rattle.graph_tables.specs.Faults.{Gives};
ghost use Rattle.graph_tables.specs.Properties.{property_of};

use adfs_base::{Kind, NoMemory};
use indexmap::IndexMap;
use std::alloc::Global;
use std::marker::Model;

/// Properties by their numbers, seen as the list of their names and kinds.
#[derive(Drop)]
pub struct Properties {
    kinds: IndexMap<Vec<u8>, Kind>,
}

impl Model for Properties {
    ghost use Rattle.std.specs.Prelude.{List, ◌<◌, ◌^◌, length, map};
    ghost use Rattle.graph_tables.specs.Properties.{Property};

    ghost Value = { List Property };

    ghost view = { λ a. map (λ p. record { name = p.0.items; type = p.1 }) a.kinds.entries };

    ghost invariant = { λ a. length a.kinds.entries < 2 ^ 32 };
}

fn copied(alloc: Global, text: &[u8]) -> Result<Vec<u8>, NoMemory>
    ensures { IfOk result (λ v. v.items ≡ text.now) }
{
    let mut v = Vec::new(alloc);
    v.extend_from_slice(text)?;
    Ok(v)
}

impl Properties {
    /// No properties.
    pub fn new(alloc: Global) -> Properties
        ensures { result ≡ [] }
    {
        Properties {
            kinds: IndexMap::new(alloc),
        }
    }

    /// How many there are.
    pub(crate) fn len(&self) -> u32
        ensures { result ≡ length self.now }
    {
        self.kinds.len() as u32
    }

    /// The number and the kind of the property with this name.
    pub(crate) fn find(&self, name: &[u8]) -> Option<(u32, Kind)>
        ensures { result ≡ property_of self.now name.now }
    {
        match self.kinds.get_full(name) {
            Some((number, _, kind)) => Some((number as u32, *kind)),
            None => None,
        }
    }

    /// Adds a property whose name is new. Where memory runs out nothing has changed.
    pub(crate) fn push(&mut self, alloc: Global, name: &[u8], kind: Kind) -> Result<(), NoMemory>
        requires new { property_of self.old name.now ≡ None }
        requires few { length self.old < 2 ^ 32 - 1 }
        ensures ok { IfOk result (λ _. self.new ≡ self.old ++ record { name = name.now; type = kind } ∷ []) }
        ensures err { OnErr result (self.new ≡ self.old) }
    {
        let owned = copied(alloc, name)?;
        self.kinds.insert(owned, kind)?;
        Ok(())
    }
}

/// The properties of a graph, those of vertices and those of edges: two spaces of names.
///
/// A contract sees the lists of both.
#[derive(Drop)]
pub struct Schema {
    vertex: Properties,
    edge: Properties,
}

impl Model for Schema {
    ghost use Rattle.graph_tables.specs.Properties.{SchemaLists};

    ghost Value = { SchemaLists };

    ghost view = { λ a. record { vertex = a.vertex; edge = a.edge } };
}

impl Schema {
    /// The schema of these properties.
    pub(crate) fn new(vertex: Properties, edge: Properties) -> Schema
        ensures { result ≡ record { vertex = vertex; edge = edge } }
    {
        Schema { vertex, edge }
    }

    /// The number and the kind of the vertex property with this name; `None` exactly where no vertex table
    /// has it.
    pub fn vertex_property(&self, name: &[u8]) -> Option<(u32, Kind)>
        ensures { result ≡ property_of self.now.vertex name.now }
    {
        self.vertex.find(name)
    }

    /// The number and the kind of the edge property with this name; `None` exactly where no edge table
    /// has it.
    pub fn edge_property(&self, name: &[u8]) -> Option<(u32, Kind)>
        ensures { result ≡ property_of self.now.edge name.now }
    {
        self.edge.find(name)
    }
}
