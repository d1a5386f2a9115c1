//! The owner file.
ghost use Rattle.std.specs.Prelude.{◌≡◌, ◌<◌, ◌≤◌, ◌+◌, ◌^◌, [], IfOk, OnOk, Some, None, length, replicate};
ghost use Rattle.std.specs.Str.Lines.{lines};
ghost use Rattle.partition.specs.Faults.{Gives};
ghost use Rattle.partition.specs.OwnerFile.{each_owned, machines_of, owners_of, with_line, with_lines, with_owner};
ghost use Rattle.partition.specs.Owners.{IsOwner};
ghost use Rattle.partition.specs.declared.owner.Owner.TheVariants as owner;

use crate::fault::PartFault;
use crate::owner::{MachineList, Owner};
use crate::owner_line::{Named, named_by};
use adfs_base::FILE_BYTES;
use graph_tables::Graph;
use std::alloc::Global;
use text_lines::Lines;

// Notes the machine of a line's vertex.
fn take_owner(
    number: u32,
    machines: u32,
    named: Named,
    owners: &mut [Option<u32>],
) -> Result<(), PartFault>
    requires { named.vertex < length owners.old }
    ensures gives { Gives (λ _. owners.new) result (with_owner number machines owners.old (Some (named.vertex, named.machine))) }
    ensures length { length owners.new ≡ length owners.old }
{
    let vertex = named.vertex as usize;
    if owners[vertex].is_some() {
        return Err(PartFault::BadOwnerLine(number));
    }
    if named.machine >= machines {
        return Err(PartFault::OwnerOutOfRange(number));
    }
    owners[vertex] = Some(named.machine);
    Ok(())
}

// Notes what a line says, which may be empty.
fn take_line(
    number: u32,
    machines: u32,
    line: &[u8],
    graph: &Graph,
    owners: &mut [Option<u32>],
) -> Result<(), PartFault>
    requires { length owners.old ≡ length graph.now.vertices }
    ensures gives { Gives (λ _. owners.new) result (with_line number machines graph.now.vertices owners.old line.now) }
    ensures length { length owners.new ≡ length owners.old }
{
    if line.is_empty() {
        return Ok(());
    }
    match named_by(line, graph) {
        Some(named) => take_owner(number, machines, named, owners),
        None => Err(PartFault::BadOwnerLine(number)),
    }
}

// Notes what all lines say.
fn take_lines(
    bytes: &[u8],
    machines: u32,
    graph: &Graph,
    owners: &mut [Option<u32>],
) -> Result<(), PartFault>
    requires short { length bytes.now ≤ FILE_BYTES }
    requires length { length owners.old ≡ length graph.now.vertices }
    ensures gives { Gives (λ _. owners.new) result (with_lines 1 machines graph.now.vertices (lines bytes.now) owners.old) }
    ensures length { length owners.new ≡ length owners.old }
{
    let mut lines = Lines::new(bytes);
    let mut number: u32 = 1;
    'lines: while let Some(line) = lines.next() {
        take_line(number, machines, line, graph, owners)?;
        number += 1;
    }
    Ok(())
}

// The machines, where each vertex has one.
fn each_owned(alloc: Global, graph: &Graph, owners: &[Option<u32>]) -> Result<Vec<u32>, PartFault>
    requires { length owners.now ≡ length graph.now.vertices }
    ensures { Gives (λ machines. machines.items) result (each_owned graph.now.vertices owners.now) }
{
    let mut machines = Vec::with_capacity(alloc, owners.len())?;
    for vertex in 0..graph.vertices() {
        match owners[vertex as usize] {
            Some(machine) => machines.push(machine)?,
            None => return Err(PartFault::OwnerMissing(graph.vertex(vertex).0)),
        }
    }
    Ok(machines)
}

// The machines that the file lists.
fn listed(alloc: Global, bytes: &[u8], graph: &Graph, machines: u32) -> Result<Vec<u32>, PartFault>
    requires { length bytes.now ≤ FILE_BYTES }
    ensures { Gives (λ list. list.items) result (machines_of bytes.now graph.now.vertices machines) }
{
    let mut owners = vec![in alloc; None; graph.vertices() as usize]?;
    take_lines(bytes, machines, graph, &mut owners)?;
    each_owned(alloc, graph, &owners)
}

/// Reads which machine has each vertex.
///
/// Each line that isn't empty is a vertex's key, a space and a machine's number, in decimal digits without a
/// leading zero; a key that is negative begins with `-`. A line ends with a line feed, a carriage return
/// before it is dropped, and the last line may lack its end. Lines are counted from 1, and all are counted.
///
/// The first line that is at fault decides. `BadOwnerLine` comes where its form is wrong, no vertex has its
/// key or an earlier line has it, and else `OwnerOutOfRange` where the machine isn't below `machines`. Where
/// no line is at fault, `OwnerMissing` has the key of the first vertex, by number, without a line. Each
/// comes exactly there. The answer is always `Listed`.
pub fn read_owners(
    alloc: Global,
    bytes: &[u8],
    graph: &Graph,
    machines: u32,
) -> Result<Owner, PartFault>
    requires { length bytes.now ≤ FILE_BYTES }
    ensures exact { Gives (λ owner. owner) result (owners_of bytes.now graph.now.vertices machines) }
    ensures fits { IfOk result (λ owner. IsOwner owner (length graph.now.vertices) machines) }
{
    let list = listed(alloc, bytes, graph, machines)?;
    Ok(Owner::Listed(MachineList::new(list)))
}
