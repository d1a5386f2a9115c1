//! The edges of each vertex of a graph, as chains from number to number.
ghost use Rattle.std.specs.Prelude.{◌≡◌, ◌<◌, IfOk, length, true, false, slice_index, slice_index_or, slice_set};
ghost use Rattle.partition.specs.Kept.{AreChains};
ghost use Rattle.partition.specs.Parts as parts;
ghost use Rattle.partition.specs.Parts.{no_edge};

use adfs_base::NoMemory;
use graph_tables::BareGraph;
use std::alloc::Global;

/// The first edge of each vertex in one direction, and after each edge the next of the same vertex.
#[derive(Drop)]
pub(crate) struct Chains {
    pub(crate) first: Vec<u32>,
    pub(crate) next: Vec<u32>,
}

/// Stands after the last edge of a vertex.
pub(crate) const NO_NUMBER: u32 = u32::MAX;

// The end in whose list an edge stands.
fn near_end(graph: &BareGraph, out: bool, number: u32) -> u32
    requires { number < length graph.now.edges }
    ensures end { result ≡ parts.near_end out (slice_index_or graph.now.edges number no_edge) }
    ensures within { result < length graph.now.vertices }
{
    let (source, target) = graph.ends(number);
    if out { source } else { target }
}

// Puts an edge at the front of its vertex's chain.
fn put_first(chains: &mut Chains, vertex: u32, number: u32)
    requires vertex { vertex < length chains.old.first.items }
    requires number { number < length chains.old.next.items }
    ensures first { chains.new.first.items ≡ slice_set chains.old.first.items vertex number }
    ensures next { chains.new.next.items ≡ slice_set chains.old.next.items number (slice_index chains.old.first.items vertex) }
{
    chains.next[number as usize] = chains.first[vertex as usize];
    chains.first[vertex as usize] = number;
}

// The chains of a graph's edges by their sources, or by their targets. One pass over the edges, the last first.
fn make_chains(alloc: Global, graph: &BareGraph, out: bool) -> Result<Chains, NoMemory>
    ensures { IfOk result (λ chains. AreChains (length graph.now.vertices) out graph.now.edges chains) }
{
    let mut chains = Chains {
        first: vec![in alloc; NO_NUMBER; graph.vertices() as usize]?,
        next: vec![in alloc; NO_NUMBER; graph.edges() as usize]?,
    };
    let mut left = graph.edges();
    'edges: while left > 0 {
        left -= 1;
        let vertex = near_end(graph, out, left);
        put_first(&mut chains, vertex, left);
    }
    Ok(chains)
}

/// The chains of a graph's edges by their sources, and by their targets.
#[derive(Drop)]
pub(crate) struct Both {
    pub(crate) outgoing: Chains,
    pub(crate) incoming: Chains,
}

/// Deals the edges of a graph out to their ends.
pub(crate) fn deal_edges(alloc: Global, graph: &BareGraph) -> Result<Both, NoMemory>
    ensures outgoing { IfOk result (λ both. AreChains (length graph.now.vertices) true graph.now.edges both.outgoing) }
    ensures incoming { IfOk result (λ both. AreChains (length graph.now.vertices) false graph.now.edges both.incoming) }
{
    let outgoing = make_chains(alloc, graph, true)?;
    let incoming = make_chains(alloc, graph, false)?;
    Ok(Both { outgoing, incoming })
}
