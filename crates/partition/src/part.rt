//! A machine's part of a graph, and its readers.
ghost use Rattle.std.specs.Prelude.{◌≡◌, ◌<◌, ◌^◌, ℤ, ℕ, List, IfSome, IsSome, Some, if◌then◌else◌, length, map, option_and_then, nat_eq, position, slice_get, slice_index};
ghost use Rattle.std.specs.List.{AllByRecursion};
ghost use Rattle.std.specs.Option.{option_map};
ghost use Rattle.element_store.specs.Columns.{Cell, value_of};
ghost use Rattle.partition.specs.Kept.{IsPart, IsSpan, link_lists, part_in};
ghost use Rattle.partition.specs.Parts.{adjacent_of, entry_at, link_of_entry, lists_of};

use crate::adjacency::Lists;
use crate::adjacent::Adjacent;
use crate::link::Link;
use crate::lists::Own;
use crate::shared::Shared;
use adfs_base::Value;
use element_store::Row;
use std::alloc::Global;
use std::marker::Model;
use std::sync::Arc;

/// What one machine has of a graph: its vertices in the order of their numbers, and for each of them the list
/// of the edges that begin at it and the list of those that end at it. A list is ordered by the other end and
/// then by the edge; an edge from a vertex to itself stands in both of its lists.
///
/// A contract sees it as a `MachinePart`. A vertex of the part is named by its place among those of the part,
/// from 0; a vertex of the graph by its number. No call takes memory.
#[derive(Drop)]
pub struct Part {
    machines: u32,
    shared: Arc<Shared, Global>,
    own: Own,
}

impl Model for Part {
    ghost use Rattle.partition.specs.Parts.{MachinePart};

    ghost Value = { MachinePart };

    ghost use Rattle.partition.specs.Kept.{IsPart, part_in};

    ghost view = { λ a. part_in a.machines a.shared.value a.own };

    ghost invariant = { λ a. IsPart a.shared.value a.own };
}

impl Part {
    pub(crate) fn new(machines: u32, shared: Arc<Shared, Global>, own: Own) -> Part
        requires { IsPart shared.value own }
        ensures { result ≡ part_in machines shared.value own }
    {
        Part {
            machines,
            shared,
            own,
        }
    }

    /// How many vertices the part has.
    pub fn vertices(&self) -> u32
        ensures { result ≡ length self.now.vertices }
    {
        self.own.numbers.len() as u32
    }

    /// How many vertices the whole graph has.
    pub fn graph_vertices(&self) -> u32
        ensures { result ≡ length self.now.owners }
    {
        self.shared.dealing.owners.len() as u32
    }

    /// How many machines there are.
    pub fn machines(&self) -> u32
        ensures { result ≡ self.now.machines }
    {
        self.machines
    }

    /// The number, the key and the label's number of the vertex at a place.
    pub fn vertex(&self, place: u32) -> (u32, i64, u32)
        requires { place < length self.now.vertices }
        ensures number { slice_get self.now.numbers place ≡ Some result.0 }
        ensures element { option_map {U = ℤ × ℕ} (λ v. (v.key, v.label)) (slice_get self.now.vertices place) ≡ Some (result.1, result.2) }
    {
        let number = self.own.numbers[place as usize];
        (
            number,
            self.shared.vertices.key(number),
            self.shared.vertices.label(number),
        )
    }

    /// The key of the vertex at a place.
    pub fn vertex_key(&self, place: u32) -> i64
        requires { place < length self.now.vertices }
        ensures { option_map (λ v. v.key) (slice_get self.now.vertices place) ≡ Some result }
    {
        let number = self.own.numbers[place as usize];
        self.shared.vertices.key(number)
    }

    /// The number of the label of the vertex at a place.
    pub fn vertex_label(&self, place: u32) -> u32
        requires { place < length self.now.vertices }
        ensures { option_map (λ v. v.label) (slice_get self.now.vertices place) ≡ Some result }
    {
        let number = self.own.numbers[place as usize];
        self.shared.vertices.label(number)
    }

    /// The place of a vertex of the graph; `None` exactly where the part lacks it.
    pub fn place_of(&self, vertex: u32) -> Option<u32>
        requires { vertex < length self.now.owners }
        ensures place { result ≡ position (nat_eq vertex) self.now.numbers }
        ensures within { IfSome result (λ place. place < length self.now.vertices) }
    {
        if self.shared.dealing.owners[vertex as usize] == self.own.machine {
            Some(self.shared.dealing.places[vertex as usize])
        } else {
            None
        }
    }

    /// The machine that has a vertex of the graph.
    pub fn machine_of(&self, vertex: u32) -> u32
        requires { vertex < length self.now.owners }
        ensures { result ≡ slice_index self.now.owners vertex }
    {
        self.shared.dealing.owners[vertex as usize]
    }

    /// The label and the values of the vertex at a place: who reads several of them finds them once.
    pub fn vertex_row(&self, place: u32) -> Row<'_>
        requires { place < length self.now.vertices }
        ensures { option_map {U = ℕ × List (ℕ × Cell)} (λ v. (v.label, v.values)) (slice_get self.now.vertices place) ≡ Some result }
    {
        let number = self.own.numbers[place as usize];
        self.shared.vertices.row(number)
    }

    /// The value that the vertex at a place has of a property; null where its table has no such property.
    pub fn vertex_value(&self, place: u32, property: u32) -> Value
        requires { place < length self.now.vertices }
        ensures { option_map (λ v. value_of v.values property) (slice_get self.now.vertices place) ≡ Some result }
    {
        self.vertex_row(place).value(property)
    }

    /// How many entries the outgoing list of the vertex at a place has, or the incoming one.
    pub fn degree(&self, place: u32, out: bool) -> u32
        requires { place < length self.now.vertices }
        ensures length { option_map length (slice_get (lists_of out self.now) place) ≡ Some result }
        ensures there { (n : ℕ) → n < result → IsSome (entry_at out self.now place n) }
    {
        degree_at(in_direction(out, &self.own), place)
    }

    /// An entry of a list of the vertex at a place, but for its edge's key and values.
    pub fn link(&self, place: u32, out: bool, no: u32) -> Link
        requires { IsSome (entry_at out self.now place no) }
        ensures { option_map link_of_entry (entry_at out self.now place no) ≡ Some result }
    {
        link_at(in_direction(out, &self.own), place, no)
    }

    /// The outgoing list of the vertex at a place, or the incoming one, but for its edges' keys and values.
    pub fn links(&self, place: u32, out: bool) -> &[Link]
        requires { place < length self.now.vertices }
        ensures links { option_map (map link_of_entry) (slice_get (lists_of out self.now) place) ≡ Some result.now }
        ensures few { length result.now < 2 ^ 32 }
    {
        links_at(in_direction(out, &self.own), place)
    }

    /// An entry of a list of the vertex at a place, but for its edge's values.
    pub fn entry(&self, place: u32, out: bool, no: u32) -> Adjacent
        requires { IsSome (entry_at out self.now place no) }
        ensures { option_map adjacent_of (entry_at out self.now place no) ≡ Some result }
    {
        let link = link_at(in_direction(out, &self.own), place, no);
        Adjacent {
            edge: link.edge,
            key: self.shared.edges.key(link.edge),
            other: link.other,
            machine: link.machine,
            label: link.label,
        }
    }

    /// The values of the edge of an entry: who reads several of them finds them once. The entry's own label is told by
    /// `link`.
    pub fn entry_row(&self, place: u32, out: bool, no: u32) -> Row<'_>
        requires { IsSome (entry_at out self.now place no) }
        ensures { option_map {U = List (ℕ × Cell)} (λ e. e.values) (entry_at out self.now place no) ≡ Some result.1 }
    {
        let link = link_at(in_direction(out, &self.own), place, no);
        self.shared.edges.row(link.edge)
    }

    /// The value that the edge of an entry has of a property; null where its table has no such property.
    pub fn entry_value(&self, place: u32, out: bool, no: u32, property: u32) -> Value
        requires { IsSome (entry_at out self.now place no) }
        ensures { option_map (λ e. value_of e.values property) (entry_at out self.now place no) ≡ Some result }
    {
        self.entry_row(place, out, no).value(property)
    }
}

// The lists in one direction.
fn in_direction(out: bool, own: &Own) -> &Lists
    ensures { result.now ≡ (if out then own.now.outgoing else own.now.incoming) }
{
    if out { &own.outgoing } else { &own.incoming }
}

// How many links the list at a place has.
fn degree_at(lists: &Lists, place: u32) -> u32
    requires place { place < length lists.now.spans.items }
    requires spans { AllByRecursion (IsSpan (length lists.now.links.items)) lists.now.spans.items }
    ensures { option_map length (slice_get (link_lists lists.now) place) ≡ Some result }
{
    lists.spans[place as usize].degree
}

// The list at a place.
fn links_at(lists: &Lists, place: u32) -> &[Link]
    requires place { place < length lists.now.spans.items }
    requires spans { AllByRecursion (IsSpan (length lists.now.links.items)) lists.now.spans.items }
    ensures links { slice_get (link_lists lists.now) place ≡ Some result.now }
    ensures few { length result.now < 2 ^ 32 }
{
    let span = lists.spans[place as usize];
    &lists.links[span.start..span.start + span.degree as usize]
}

// A link of the list at a place.
fn link_at(lists: &Lists, place: u32, no: u32) -> Link
    requires there { IsSome (option_and_then (λ links. slice_get links no) (slice_get (link_lists lists.now) place)) }
    requires spans { AllByRecursion (IsSpan (length lists.now.links.items)) lists.now.spans.items }
    ensures { option_and_then (λ links. slice_get links no) (slice_get (link_lists lists.now) place) ≡ Some result }
{
    let span = lists.spans[place as usize];
    lists.links[span.start + no as usize]
}
