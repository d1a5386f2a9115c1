//! A graph that is being loaded.
ghost use Rattle.std.specs.Prelude.{◌≡◌, IfOk};
ghost use Rattle.graph_tables.specs.Graph.{empty_graph};
ghost use Rattle.graph_tables.specs.Loading.{IsBare, IsReadable, IsSound, edges_with, graph_of, properties_in, tables_in};

use crate::bare::BareGraph;
use crate::properties::Properties;
use adfs_base::NoMemory;
use element_store::{ElementList, Elements};
use std::alloc::Global;
use value_text::Texts;

/// The numbers of the vertices at the ends of an edge.
#[derive(Clone, Copy)]
pub struct Ends {
    pub source: u32,
    pub target: u32,
}

/// What the tables so far gave. The ends stand beside the edges, in the order of their numbers.
#[derive(Drop)]
pub struct Loading {
    pub vertices: Elements,
    pub edges: Elements,
    pub ends: Vec<Ends>,
    pub texts: Texts,
    pub vertex_properties: Properties,
    pub edge_properties: Properties,
}

impl Loading {
    /// Before the first table.
    pub fn new(alloc: Global) -> Loading
        ensures graph { graph_of result ≡ empty_graph }
        ensures sound { IsSound result }
        ensures tables { tables_in result ≡ 0 }
        ensures properties { properties_in result ≡ 0 }
    {
        Loading {
            vertices: Elements::new(alloc),
            edges: Elements::new(alloc),
            ends: Vec::new(alloc),
            texts: Texts::new(alloc),
            vertex_properties: Properties::new(alloc),
            edge_properties: Properties::new(alloc),
        }
    }

    /// The vertices and edges by their numbers. The memory of all else is given back.
    pub(crate) fn into_bare(self, alloc: Global) -> Result<BareGraph, NoMemory>
        requires { IsReadable self }
        ensures vertices { IfOk result (λ bare. bare.vertices ≡ (graph_of self).vertices) }
        ensures edges { IfOk result (λ bare. bare.edges ≡ (graph_of self).edges) }
    {
        let Loading {
            vertices,
            edges,
            ends,
            ..
        } = self;
        bare_of(alloc, vertices, edges, ends)
    }
}

// The elements of both kinds by their numbers.
fn lists_of(
    alloc: Global,
    vertices: Elements,
    edges: Elements,
) -> Result<(ElementList, ElementList), NoMemory>
    ensures vertices { IfOk result (λ lists. lists.0 ≡ vertices.elements) }
    ensures edges { IfOk result (λ lists. lists.1 ≡ edges.elements) }
{
    let vertices = vertices.into_list(alloc)?;
    let edges = edges.into_list(alloc)?;
    Ok((vertices, edges))
}

// The same, with the ends of the edges.
fn bare_of(
    alloc: Global,
    vertices: Elements,
    edges: Elements,
    ends: Vec<Ends>,
) -> Result<BareGraph, NoMemory>
    requires { IsBare vertices.elements edges.elements ends.items }
    ensures { IfOk result (λ bare. bare ≡ record { vertices = vertices.elements; edges = edges_with edges.elements ends.items }) }
{
    let (vertices, edges) = lists_of(alloc, vertices, edges)?;
    Ok(BareGraph::new(vertices, edges, ends))
}
