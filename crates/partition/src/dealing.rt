//! Which machine has which vertex, and where.
ghost use Rattle.std.specs.Prelude.{◌≡◌, ◌<◌, ◌+◌, ◌-◌, ◌^◌, ℕ, IfOk, length, slice_index, slice_set};
ghost use Rattle.std.specs.List.{AllByRecursion};
ghost use Rattle.partition.specs.Kept.{AreDealt, numbers_of, rank};
ghost use Rattle.partition.specs.Owners.{IsOwner};
ghost use Rattle.partition.specs.Parts.{owners_in};

use crate::owner::Owner;
use adfs_base::NoMemory;
use std::alloc::Global;

/// The machine of each vertex of a graph, and its place among those of that machine.
#[derive(Drop)]
pub(crate) struct Dealing {
    pub(crate) owners: Vec<u32>,
    pub(crate) places: Vec<u32>,
}

// The machine of each vertex of a graph of so many.
fn owner_list(
    alloc: Global,
    owner: &Owner,
    vertices: u32,
    machines: u32,
) -> Result<Vec<u32>, NoMemory>
    requires some { 0 < machines }
    requires owner { IsOwner owner.now vertices machines }
    ensures owners { IfOk result (λ owners. owners.items ≡ owners_in owner.now vertices machines) }
    ensures within { IfOk result (λ owners. AllByRecursion (λ o. o < machines) owners.items) }
{
    let mut owners = Vec::with_capacity(alloc, vertices as usize)?;
    for vertex in 0..vertices {
        owners.push(owner.machine_of(vertices, machines, vertex))?;
    }
    Ok(owners)
}

// Counts one more vertex of a machine, and returns how many there were.
fn count(counts: &mut [u32], machine: u32) -> u32
    requires machine { machine < length counts.old }
    requires few { slice_index counts.old machine < 2 ^ 32 - 1 }
    ensures before { result ≡ slice_index counts.old machine }
    ensures after { counts.new ≡ slice_set counts.old machine (slice_index counts.old machine + 1) }
{
    let before = counts[machine as usize];
    counts[machine as usize] = before + 1;
    before
}

// The place of each vertex among those of its machine.
fn place_list(alloc: Global, owners: &[u32], machines: u32) -> Result<Vec<u32>, NoMemory>
    requires within { AllByRecursion (λ o. o < machines) owners.now }
    requires few { length owners.now < 2 ^ 32 }
    ensures length { IfOk result (λ places. length places.items ≡ length owners.now) }
    ensures placed { IfOk result (λ places. (v : ℕ) → v < length owners.now → slice_index places.items v ≡ rank owners.now v) }
{
    let mut counts = vec![in alloc; 0; machines as usize]?;
    let mut places = Vec::with_capacity(alloc, owners.len())?;
    for owner in owners {
        places.push(count(&mut counts, *owner))?;
    }
    Ok(places)
}

/// The dealing of an owner among the vertices of a graph.
pub(crate) fn deal(
    alloc: Global,
    owner: &Owner,
    vertices: u32,
    machines: u32,
) -> Result<Dealing, NoMemory>
    requires some { 0 < machines }
    requires owner { IsOwner owner.now vertices machines }
    ensures owners { IfOk result (λ dealing. dealing.owners.items ≡ owners_in owner.now vertices machines) }
    ensures dealt { IfOk result (AreDealt vertices) }
{
    let owners = owner_list(alloc, owner, vertices, machines)?;
    let places = place_list(alloc, &owners, machines)?;
    Ok(Dealing { owners, places })
}

/// The numbers of a machine's vertices, which rise.
pub(crate) fn number_list(alloc: Global, owners: &[u32], machine: u32) -> Result<Vec<u32>, NoMemory>
    requires { length owners.now < 2 ^ 32 }
    ensures { IfOk result (λ numbers. numbers.items ≡ numbers_of owners.now machine) }
{
    let mut numbers = Vec::new(alloc);
    for vertex in 0..owners.len() {
        if owners[vertex] == machine {
            numbers.push(vertex as u32)?;
        }
    }
    Ok(numbers)
}
