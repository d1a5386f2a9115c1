//! How a graph is split.
ghost use Rattle.std.specs.Prelude.{◌≡◌, ◌<◌, ◌^◌, ◌++◌, ◌∷◌, [], IfOk, OnOk, length, map};
ghost use Rattle.std.specs.List.{AllByRecursion, range_with_len};
ghost use Rattle.graph_tables.specs.Graph.{PropertyGraph};
ghost use Rattle.partition.specs.Kept.{AreDealt, IsOwn, IsPart, part_in};
ghost use Rattle.partition.specs.Owners.{IsOwner};
ghost use Rattle.partition.specs.Parts.{PartsMeet, owners_in, part_with};

use crate::chains::deal_edges;
use crate::dealing::{Dealing, deal};
use crate::lists::{Own, own_each};
use crate::owner::Owner;
use crate::part::Part;
use crate::shared::Shared;
use adfs_base::NoMemory;
use graph_tables::{BareGraph, Graph};
use std::alloc::Global;
use std::sync::Arc;

// What each machine has, where this one has each vertex. The chains are given back.
fn deal_out(
    alloc: Global,
    graph: &BareGraph,
    owners: &[u32],
    machines: u32,
) -> Result<Vec<Own>, NoMemory>
    requires { length owners.now ≡ length graph.now.vertices }
    ensures machines { IfOk result (λ all. map (λ own. own.machine) all.items ≡ range_with_len 0 machines) }
    ensures own { IfOk result (λ all. AllByRecursion (IsOwn owners.now graph.now.edges) all.items) }
{
    let both = deal_edges(alloc, graph)?;
    own_each(alloc, graph, owners, &both, machines)
}

// Who has which vertex, and what each machine has.
fn dealt(
    alloc: Global,
    graph: &BareGraph,
    owner: &Owner,
    machines: u32,
) -> Result<(Dealing, Vec<Own>), NoMemory>
    requires some { 0 < machines }
    requires owner { IsOwner owner.now (length graph.now.vertices) machines }
    ensures owners { IfOk result (λ d. d.0.owners.items ≡ owners_in owner.now (length graph.now.vertices) machines) }
    ensures dealt { IfOk result (λ d. AreDealt (length graph.now.vertices) d.0) }
    ensures machines { IfOk result (λ d. map (λ own. own.machine) d.1.items ≡ range_with_len 0 machines) }
    ensures own { IfOk result (λ d. AllByRecursion (IsOwn d.0.owners.items graph.now.edges) d.1.items) }
{
    let dealing = deal(alloc, owner, graph.vertices(), machines)?;
    let all = deal_out(alloc, graph, &dealing.owners, machines)?;
    Ok((dealing, all))
}

// Adds the part of a machine.
fn add_part(
    machines: u32,
    shared: &Arc<Shared, Global>,
    own: Own,
    parts: &mut Vec<Part>,
) -> Result<(), NoMemory>
    requires { IsPart shared.now.value own }
    ensures { OnOk result (parts.new.items ≡ parts.old.items ++ part_in machines shared.now.value own ∷ []) }
{
    let shared = Arc::try_clone(shared)?;
    parts.push(Part::new(machines, shared, own))?;
    Ok(())
}

// Adds the part of each machine.
fn add_parts(
    machines: u32,
    shared: &Arc<Shared, Global>,
    all: Vec<Own>,
    parts: &mut Vec<Part>,
) -> Result<(), NoMemory>
    requires parts { AllByRecursion (IsPart shared.now.value) all.items }
    requires empty { parts.old.items ≡ [] }
    ensures { OnOk result (parts.new.items ≡ map (part_in machines shared.now.value) all.items) }
{
    for own in all {
        add_part(machines, shared, own, parts)?;
    }
    Ok(())
}

// The parts, of what each machine has and of what all share.
fn parts(
    alloc: Global,
    machines: u32,
    shared: &Arc<Shared, Global>,
    all: Vec<Own>,
) -> Result<Vec<Part>, NoMemory>
    requires { AllByRecursion (IsPart shared.now.value) all.items }
    ensures { IfOk result (λ parts. parts.items ≡ map (part_in machines shared.now.value) all.items) }
{
    let mut parts = Vec::new(alloc);
    add_parts(machines, shared, all, &mut parts)?;
    Ok(parts)
}

// The same, with what they share.
fn joined(
    alloc: Global,
    machines: u32,
    shared: Shared,
    all: Vec<Own>,
) -> Result<Vec<Part>, NoMemory>
    requires { AllByRecursion (IsPart shared) all.items }
    ensures { IfOk result (λ parts. parts.items ≡ map (part_in machines shared) all.items) }
{
    let shared = Arc::new(alloc, shared)?;
    parts(alloc, machines, &shared, all)
}

// The parts of a graph, of its lists and of what each machine has.
fn put_together(
    alloc: Global,
    machines: u32,
    bare: BareGraph,
    dealing: Dealing,
    all: Vec<Own>,
) -> Result<Vec<Part>, NoMemory>
    requires few { length bare.vertices < 2 ^ 32 }
    requires dealt { AreDealt (length bare.vertices) dealing }
    requires machines { map (λ own. own.machine) all.items ≡ range_with_len 0 machines }
    requires own { AllByRecursion (IsOwn dealing.owners.items bare.edges) all.items }
    ensures { (graph : PropertyGraph) → graph.vertices ≡ bare.vertices → graph.edges ≡ bare.edges → IfOk result (λ parts. parts.items ≡ map (λ machine. part_with dealing.owners.items machines graph machine) (range_with_len 0 machines)) }
{
    let (vertices, edges) = bare.into_lists();
    let shared = Shared {
        dealing,
        vertices,
        edges,
    };
    joined(alloc, machines, shared, all)
}

// Splits a graph that is read by numbers alone.
fn split_bare(
    alloc: Global,
    bare: BareGraph,
    owner: &Owner,
    machines: u32,
) -> Result<Vec<Part>, NoMemory>
    requires some { 0 < machines }
    requires owner { IsOwner owner.now (length bare.vertices) machines }
    ensures { (graph : PropertyGraph) → graph.vertices ≡ bare.vertices → graph.edges ≡ bare.edges → IfOk result (λ parts. PartsMeet graph owner.now machines parts.items) }
{
    // What this call promises bounds the vertices.
    let _vertices = bare.vertices();
    let (dealing, all) = dealt(alloc, &bare, owner, machines)?;
    put_together(alloc, machines, bare, dealing, all)
}

/// Splits a graph into the parts of machines, of which there is one at least. An owner that lists the
/// machines has one below `machines` for each vertex.
///
/// The parts stand in the order of their machines. Together they are the graph: each vertex stands in the
/// part of its machine, and each edge in the lists of its two ends.
pub fn split(
    alloc: Global,
    graph: Graph,
    owner: &Owner,
    machines: u32,
) -> Result<Vec<Part>, NoMemory>
    requires some { 0 < machines }
    requires owner { IsOwner owner.now (length graph.vertices) machines }
    ensures parts { IfOk result (λ parts. PartsMeet graph owner.now machines parts.items) }
{
    let bare = graph.into_bare()?;
    split_bare(alloc, bare, owner, machines)
}
