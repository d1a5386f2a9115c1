//! What a machine has of its own: its vertices, and the lists of the edges at them.
ghost use Rattle.std.specs.Prelude.{◌≡◌, ◌<◌, ◌^◌, ◌++◌, ◌∷◌, [], IfOk, OnOk, length, map, slice_index_or, true, false};
ghost use Rattle.std.specs.List.{AllByRecursion, range_with_len};
ghost use Rattle.partition.specs.Kept.{AreChains, HoldsLists, IsOwn, link_of, links_at};
ghost use Rattle.partition.specs.Parts.{no_edge};

use crate::adjacency::{Lists, add_list};
use crate::chains::{Both, Chains, NO_NUMBER};
use crate::dealing::number_list;
use crate::link::Link;
use adfs_base::NoMemory;
use graph_tables::BareGraph;
use std::alloc::Global;

/// The numbers of a machine's vertices, and for each of them the edges that begin at it and those that end at it.
#[derive(Drop)]
pub(crate) struct Own {
    pub(crate) machine: u32,
    pub(crate) numbers: Vec<u32>,
    pub(crate) outgoing: Lists,
    pub(crate) incoming: Lists,
}

// The link of an edge.
fn link(graph: &BareGraph, owners: &[u32], out: bool, number: u32) -> Link
    requires number { number < length graph.now.edges }
    requires owners { length owners.now ≡ length graph.now.vertices }
    ensures { result ≡ link_of owners.now out (number, slice_index_or graph.now.edges number no_edge) }
{
    let (source, target) = graph.ends(number);
    let other = if out { target } else { source };
    Link {
        other,
        edge: number,
        machine: owners[other as usize],
        label: graph.label(number),
    }
}

// The links of a vertex, in place of what the list holds.
fn fill_list(
    graph: &BareGraph,
    owners: &[u32],
    chains: &Chains,
    out: bool,
    vertex: u32,
    list: &mut Vec<Link>,
) -> Result<(), NoMemory>
    requires owners { length owners.now ≡ length graph.now.vertices }
    requires chains { AreChains (length graph.now.vertices) out graph.now.edges chains.now }
    requires vertex { vertex < length graph.now.vertices }
    ensures { OnOk result (list.new.items ≡ links_at owners.now out graph.now.edges vertex) }
{
    list.clear();
    // What this call promises keeps numbers of edges apart from `NO_NUMBER`.
    let _edges = graph.edges();
    let mut number = chains.first[vertex as usize];
    'edges: while number != NO_NUMBER {
        list.push(link(graph, owners, out, number))?;
        number = chains.next[number as usize];
    }
    Ok(())
}

// About as many links as lists of so many vertices have: their share of the edges, and a little more, but no more than
// there are edges.
fn links_about(graph: &BareGraph, vertices: usize) -> usize {
    let all = u64::from(graph.vertices().max(1));
    let edges = u64::from(graph.edges());
    let share = edges.saturating_mul(vertices as u64) / all;
    share.saturating_add(share / 16).min(edges) as usize
}

// No lists yet, with room for those of so many vertices.
fn no_lists(alloc: Global, graph: &BareGraph, vertices: usize) -> Result<Lists, NoMemory>
    ensures spans { IfOk result (λ lists. lists.spans.items ≡ []) }
    ensures links { IfOk result (λ lists. lists.links.items ≡ []) }
{
    let spans = Vec::with_capacity(alloc, vertices)?;
    let links = Vec::with_capacity(alloc, links_about(graph, vertices))?;
    Ok(Lists { spans, links })
}

// The lists of vertices in one direction, each in order.
fn link_all(
    alloc: Global,
    graph: &BareGraph,
    owners: &[u32],
    numbers: &[u32],
    chains: &Chains,
    out: bool,
) -> Result<Lists, NoMemory>
    requires owners { length owners.now ≡ length graph.now.vertices }
    requires numbers { AllByRecursion (λ v. v < length graph.now.vertices) numbers.now }
    requires chains { AreChains (length graph.now.vertices) out graph.now.edges chains.now }
    ensures { IfOk result (HoldsLists owners.now out graph.now.edges numbers.now) }
{
    let mut lists = no_lists(alloc, graph, numbers.len())?;
    let mut list = Vec::new(alloc);
    // What this call promises bounds how many links there can be.
    let _edges = graph.edges();
    for vertex in numbers {
        fill_list(graph, owners, chains, out, *vertex, &mut list)?;
        add_list(&mut list, &mut lists)?;
    }
    Ok(lists)
}

// What a machine has, where this one has each vertex.
fn own_of(
    alloc: Global,
    graph: &BareGraph,
    owners: &[u32],
    both: &Both,
    machine: u32,
) -> Result<Own, NoMemory>
    requires owners { length owners.now ≡ length graph.now.vertices }
    requires outgoing { AreChains (length graph.now.vertices) true graph.now.edges both.now.outgoing }
    requires incoming { AreChains (length graph.now.vertices) false graph.now.edges both.now.incoming }
    ensures machine { IfOk result (λ own. own.machine ≡ machine) }
    ensures own { IfOk result (IsOwn owners.now graph.now.edges) }
{
    // What this call promises bounds the vertices, as `number_list` asks.
    let _vertices = graph.vertices();
    let numbers = number_list(alloc, owners, machine)?;
    let outgoing = link_all(alloc, graph, owners, &numbers, &both.outgoing, true)?;
    let incoming = link_all(alloc, graph, owners, &numbers, &both.incoming, false)?;
    Ok(Own {
        machine,
        numbers,
        outgoing,
        incoming,
    })
}

/// What each machine has, where this one has each vertex.
pub(crate) fn own_each(
    alloc: Global,
    graph: &BareGraph,
    owners: &[u32],
    both: &Both,
    machines: u32,
) -> Result<Vec<Own>, NoMemory>
    requires owners { length owners.now ≡ length graph.now.vertices }
    requires outgoing { AreChains (length graph.now.vertices) true graph.now.edges both.now.outgoing }
    requires incoming { AreChains (length graph.now.vertices) false graph.now.edges both.now.incoming }
    ensures machines { IfOk result (λ all. map (λ own. own.machine) all.items ≡ range_with_len 0 machines) }
    ensures own { IfOk result (λ all. AllByRecursion (IsOwn owners.now graph.now.edges) all.items) }
{
    let mut all = Vec::with_capacity(alloc, machines as usize)?;
    for machine in 0..machines {
        all.push(own_of(alloc, graph, owners, both, machine)?)?;
    }
    Ok(all)
}
