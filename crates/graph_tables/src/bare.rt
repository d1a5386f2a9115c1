//! A graph that is read by numbers alone.
ghost use Rattle.std.specs.Prelude.{◌≡◌, ◌<◌, ◌^◌, Some, length, slice_get};
ghost use Rattle.std.specs.Option.{option_map};
ghost use Rattle.graph_tables.specs.Graph.{without_ends};
ghost use Rattle.graph_tables.specs.Loading.{IsBare, edges_with};

use crate::loading::Ends;
use element_store::ElementList;
use std::marker::Model;

/// A graph without its texts, its properties and the index of its keys. A contract sees the lists of its vertices and
/// edges.
#[derive(Drop)]
pub struct BareGraph {
    vertices: ElementList,
    edges: ElementList,
    ends: Vec<Ends>,
}

impl Model for BareGraph {
    ghost use Rattle.graph_tables.specs.Graph.{BareLists};
    ghost use Rattle.graph_tables.specs.Loading.{IsBare, edges_with};

    ghost Value = { BareLists };

    ghost view = { λ g. record { vertices = g.vertices; edges = edges_with g.edges g.ends.items } };

    ghost invariant = { λ g. IsBare g.vertices g.edges g.ends.items };
}

impl BareGraph {
    pub(crate) fn new(vertices: ElementList, edges: ElementList, ends: Vec<Ends>) -> BareGraph
        requires { IsBare vertices edges ends.items }
        ensures { result ≡ record { vertices = vertices; edges = edges_with edges ends.items } }
    {
        BareGraph {
            vertices,
            edges,
            ends,
        }
    }

    /// How many vertices there are.
    pub fn vertices(&self) -> u32
        ensures { result ≡ length self.now.vertices }
    {
        self.vertices.len() as u32
    }

    /// How many edges there are.
    pub fn edges(&self) -> u32
        ensures { result ≡ length self.now.edges }
    {
        self.edges.len() as u32
    }

    /// The source and the target of an edge.
    pub fn ends(&self, number: u32) -> (u32, u32)
        requires { number < length self.now.edges }
        ensures fields { option_map (λ e. (e.source, e.target)) (slice_get self.now.edges number) ≡ Some result }
        ensures source { result.0 < length self.now.vertices }
        ensures target { result.1 < length self.now.vertices }
    {
        let ends = self.ends[number as usize];
        (ends.source, ends.target)
    }

    /// The label of an edge.
    pub fn label(&self, number: u32) -> u32
        requires { number < length self.now.edges }
        ensures { option_map (λ e. e.label) (slice_get self.now.edges number) ≡ Some result }
    {
        self.edges.label(number)
    }

    /// The vertices, and what edges have besides their ends. The ends are given back.
    pub fn into_lists(self) -> (ElementList, ElementList)
        ensures vertices { result.0 ≡ self.vertices }
        ensures edges { result.1 ≡ without_ends self.edges }
    {
        (self.vertices, self.edges)
    }
}
