//! Which machine has a vertex.
ghost use Rattle.std.specs.Prelude.{◌≡◌, ◌<◌, ◌≤◌};
ghost use Rattle.partition.specs.Owners.{IsOwner, block_size, machine_of};

use std::marker::Model;

/// A machine number for each vertex of a graph, in the order of the vertices' numbers. A contract sees the
/// list of them.
#[derive(Drop)]
pub struct MachineList {
    machines: Vec<u32>,
}

impl Model for MachineList {
    ghost use Rattle.std.specs.Prelude.{List, ℕ};

    ghost Value = { List ℕ };

    ghost view = { λ l. l.machines.items };
}

impl MachineList {
    /// The list of these numbers. It takes no memory.
    pub fn new(machines: Vec<u32>) -> MachineList
        ensures { result ≡ machines.items }
    {
        MachineList { machines }
    }

    /// The numbers.
    pub fn machines(&self) -> &[u32]
        ensures { result.now ≡ self.now }
    {
        &self.machines
    }

    /// Gives the numbers back. It takes no memory.
    pub fn into_machines(self) -> Vec<u32>
        ensures { result.items ≡ self }
    {
        self.machines
    }
}

/// How the vertices of a graph are dealt out to machines.
#[derive(Drop)]
pub enum Owner {
    /// Vertex number `i` goes to machine `i` modulo the number of machines.
    Modulo,
    /// Each machine has a run of vertex numbers: as many as the vertices divided by the machines, rounded up,
    /// and at least one.
    Block,
    /// The list has the machine of each vertex.
    Listed(MachineList),
}

impl Owner {
    /// The machine of a vertex of a graph of so many vertices.
    pub(crate) fn machine_of(&self, vertices: u32, machines: u32, vertex: u32) -> u32
        requires some { 0 < machines }
        requires owner { IsOwner self.now vertices machines }
        requires vertex { vertex < vertices }
        ensures machine { result ≡ machine_of self.now vertices machines vertex }
        ensures within { result < machines }
    {
        match self {
            Owner::Modulo => vertex % machines,
            Owner::Block => vertex / block(vertices, machines),
            Owner::Listed(list) => list.machines()[vertex as usize],
        }
    }
}

// How many vertices a block has.
fn block(vertices: u32, machines: u32) -> u32
    requires { 0 < machines }
    ensures { result ≡ block_size vertices machines }
{
    vertices.div_ceil(machines).max(1)
}
