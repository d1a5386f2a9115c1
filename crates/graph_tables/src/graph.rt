//! The graph that was loaded, and its readers.
ghost use Rattle.std.specs.Prelude.{◌≡◌, ◌<◌, ◌^◌, [], IfOk, length, slice_get, Some};
ghost use Rattle.std.specs.List.{AllByRecursion};
ghost use Rattle.std.specs.Option.{option_map};
ghost use Rattle.element_store.specs.Columns.{value_of};
ghost use Rattle.graph_tables.specs.Graph.{EndsIn, vertex_of};
ghost use Rattle.graph_tables.specs.Loading.{IsSound, graph_of};

use crate::bare::BareGraph;
use crate::loading::Loading;
use crate::properties::{Properties, Schema};
use adfs_base::{NoMemory, Value};
use std::alloc::Global;
use std::marker::Model;
use std::mem::replace;
use value_text::Texts;

/// A property graph.
///
/// A contract sees it as a `PropertyGraph`: the list of its vertices and that of its edges, in the order
/// of their numbers, the texts that labels and values name, and the properties of either kind.
#[derive(Drop)]
pub struct Graph {
    alloc: Global,
    loaded: Loading,
}

impl Model for Graph {
    ghost use Rattle.graph_tables.specs.Graph.{PropertyGraph};
    ghost use Rattle.graph_tables.specs.Loading.{IsReadable, graph_of};

    ghost Value = { PropertyGraph };

    ghost view = { λ g. graph_of g.loaded };

    ghost invariant = { λ g. IsReadable g.loaded };
}

impl Graph {
    /// The graph of what was loaded.
    pub fn new(alloc: Global, loaded: Loading) -> Graph
        requires { IsSound loaded }
        ensures { result ≡ graph_of loaded }
    {
        Graph { alloc, loaded }
    }

    /// How many vertices there are.
    pub fn vertices(&self) -> u32
        ensures number { result ≡ length self.now.vertices }
        ensures ends { AllByRecursion (EndsIn self.now.vertices) self.now.edges }
    {
        self.loaded.vertices.len()
    }

    /// How many edges there are.
    pub fn edges(&self) -> u32
        ensures { result ≡ length self.now.edges }
    {
        self.loaded.edges.len()
    }

    /// The key and the label's number of a vertex.
    pub fn vertex(&self, number: u32) -> (i64, u32)
        requires { number < length self.now.vertices }
        ensures { option_map (λ v. (v.key, v.label)) (slice_get self.now.vertices number) ≡ Some result }
    {
        self.loaded.vertices.get(number)
    }

    /// The key, the label's number, the source and the target of an edge.
    pub fn edge(&self, number: u32) -> (i64, u32, u32, u32)
        requires { number < length self.now.edges }
        ensures fields { option_map (λ e. (e.key, e.label, e.source, e.target)) (slice_get self.now.edges number) ≡ Some result }
        ensures source { result.2 < length self.now.vertices }
        ensures target { result.3 < length self.now.vertices }
    {
        let (key, label) = self.loaded.edges.get(number);
        let ends = self.loaded.ends[number as usize];
        (key, label, ends.source, ends.target)
    }

    /// The value that a vertex has of a property; null where its table has no such property.
    pub fn vertex_value(&self, number: u32, property: u32) -> Value
        requires { number < length self.now.vertices }
        ensures { option_map (λ v. value_of v.values property) (slice_get self.now.vertices number) ≡ Some result }
    {
        self.loaded.vertices.value(number, property)
    }

    /// The value that an edge has of a property; null where its table has no such property.
    pub fn edge_value(&self, number: u32, property: u32) -> Value
        requires { number < length self.now.edges }
        ensures { option_map (λ e. value_of e.values property) (slice_get self.now.edges number) ≡ Some result }
    {
        self.loaded.edges.value(number, property)
    }

    /// The number of the vertex with this key; `None` exactly where no vertex has it.
    pub fn vertex_of(&self, key: i64) -> Option<u32>
        ensures { result ≡ vertex_of self.now.vertices key }
    {
        self.loaded.vertices.number_of(key)
    }

    /// Gives the schema and the texts away, and leaves empty ones. The vertices and edges stay, and their
    /// labels and values go on to name those texts.
    pub fn detach(&mut self) -> (Schema, Texts)
        ensures schema { result.0 ≡ record { vertex = self.old.vertex_properties; edge = self.old.edge_properties } }
        ensures texts { result.1 ≡ self.old.texts }
        ensures rest { self.new ≡ record { vertices = self.old.vertices; edges = self.old.edges; texts = []; vertex_properties = []; edge_properties = [] } }
    {
        let vertex = replace(
            &mut self.loaded.vertex_properties,
            Properties::new(self.alloc),
        );
        let edge = replace(
            &mut self.loaded.edge_properties,
            Properties::new(self.alloc),
        );
        let texts = replace(&mut self.loaded.texts, Texts::new(self.alloc));
        (Schema::new(vertex, edge), texts)
    }

    /// The graph's vertices and edges by their numbers. The memory of all else is given back.
    pub fn into_bare(self) -> Result<BareGraph, NoMemory>
        ensures vertices { IfOk result (λ bare. bare.vertices ≡ self.vertices) }
        ensures edges { IfOk result (λ bare. bare.edges ≡ self.edges) }
    {
        let alloc = self.alloc;
        self.loaded.into_bare(alloc)
    }
}
