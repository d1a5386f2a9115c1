//! The parts of a small graph by each owner, as a text of all their lists.
ghost use Rattle.std.specs.Prelude.{ℕ, ◌<◌, ◌≤◌, length};
ghost use Rattle.partition.specs.Owners.{IsOwner};

use adfs_base::{FILE_BYTES, MemStore, Name, NoMemory, Value};
use graph_loading::load_graph;
use graph_tables::Graph;
use partition::{Owner, Part, read_owners, split};
use std::alloc::Global;
use std::test::Fail;

// Two edges from 1 to 2, and one from 4 to itself.
const FILES: [(&str, &str); 3] = [
    (
        "graph.txt",
        "adfs 1\nvertices person people.csv\nedges knows knows.csv\n",
    ),
    ("people.csv", "id:int,age:int\n1,30\n2,25\n3,\n4,41\n"),
    (
        "knows.csv",
        "id:int,source:int,target:int,since:int\n10,1,2,2020\n11,1,2,2021\n12,2,3,\n13,3,1,2019\n14,4,4,2018\n",
    ),
];

fn named(alloc: Global, file: (&str, &str)) -> Result<(Name, Vec<u8>), NoMemory> {
    let name = Name::new(alloc, file.0)?;
    let bytes = file.1.as_bytes().to_vec(alloc)?;
    Ok((name, bytes))
}

fn graph(alloc: Global) -> Result<Option<Graph>, NoMemory> {
    let mut files = Vec::new(alloc);
    for file in FILES {
        files.push(named(alloc, file)?)?;
    }
    let mut store = MemStore::new(files, Vec::new(alloc));
    Ok(load_graph(alloc, &mut store, "graph.txt").ok())
}

// The number of whole years that a value says, or 0 where it says none.
fn years(value: Value) -> i64 {
    match value {
        Value::Int(years) => years,
        _ => 0,
    }
}

// What a list of a part says: each edge's key, its other end, the machine that has that, and the edge's value.
fn tell_list(part: &Part, place: u32, out: bool, told: &mut Vec<i64>) -> Result<(), NoMemory>
    requires { place < length part.now.vertices }
{
    for no in 0..part.degree(place, out) {
        let entry = part.entry(place, out, no);
        let since = years(part.entry_value(place, out, no, 0));
        let words = [
            entry.key,
            i64::from(entry.other),
            i64::from(entry.machine),
            since,
        ];
        told.extend_from_slice(&words)?;
    }
    Ok(())
}

// What a part says of each vertex: its number, its key and its age, and its lists.
fn tell_part(part: &Part, told: &mut Vec<i64>) -> Result<(), NoMemory> {
    for place in 0..part.vertices() {
        let (number, key, _) = part.vertex(place);
        let words = [i64::from(number), key, years(part.vertex_value(place, 0))];
        told.extend_from_slice(&words)?;
        tell_list(part, place, true, told)?;
        tell_list(part, place, false, told)?;
    }
    Ok(())
}

// What the parts of a graph say, one after the other; nothing where they aren't as many as the machines.
fn tell_parts(
    alloc: Global,
    graph: Graph,
    owner: &Owner,
    machines: u32,
    told: &mut Vec<i64>,
) -> Result<(), NoMemory>
    requires some { 0 < machines }
    requires owner { IsOwner owner.now (length graph.vertices) machines }
{
    let parts = split(alloc, graph, owner, machines)?;
    if parts.len() != machines as usize {
        return Ok(());
    }
    for part in &parts {
        tell_part(part, told)?;
    }
    Ok(())
}

// What the parts by an owner say that fits any graph.
fn told(alloc: Global, owner: &Owner, machines: u32) -> Result<Vec<i64>, NoMemory>
    requires some { 0 < machines }
    requires owner { (vertices : ℕ) → IsOwner owner.now vertices machines }
{
    let mut told = Vec::new(alloc);
    if let Some(graph) = graph(alloc)? {
        tell_parts(alloc, graph, owner, machines, &mut told)?;
    }
    Ok(told)
}

// What the parts by an owner file say.
fn told_as_listed(alloc: Global, text: &str, machines: u32) -> Result<Vec<i64>, NoMemory>
    requires some { 0 < machines }
    requires short { length text.now ≤ FILE_BYTES }
{
    let mut told = Vec::new(alloc);
    if let Some(graph) = graph(alloc)? {
        if let Ok(owner) = read_owners(alloc, text.as_bytes(), &graph, machines) {
            tell_parts(alloc, graph, &owner, machines, &mut told)?;
        }
    }
    Ok(told)
}

#[test]
fn parts_by_number(rt: HostRuntime) -> Result<(), Fail> {
    let due: [i64; 52] = [
        0, 1, 30, 10, 1, 1, 2020, 11, 1, 1, 2021, 13, 2, 0, 2019, // the first, in machine 0
        2, 3, 0, 13, 0, 0, 2019, 12, 1, 1, 0, // the third
        1, 2, 25, 12, 2, 0, 0, 10, 0, 0, 2020, 11, 0, 0, 2021, // the second, in machine 1
        3, 4, 41, 14, 3, 1, 2018, 14, 3, 1, 2018, // the fourth, with its loop in both lists
    ];
    assert_eq!(rt;
        told(rt.alloc(), &Owner::Modulo, 2)?.as_slice(),
        due.as_slice()
    );
    assert_eq!(rt;
        told_as_listed(rt.alloc(), "1 0\n2 1\n3 0\n4 1\n", 2)?.as_slice(),
        due.as_slice()
    );
    Ok(())
}

#[test]
fn parts_in_blocks(rt: HostRuntime) -> Result<(), Fail> {
    let due: [i64; 52] = [
        0, 1, 30, 10, 1, 0, 2020, 11, 1, 0, 2021, 13, 2, 1, 2019, // the first, in machine 0
        1, 2, 25, 12, 2, 1, 0, 10, 0, 0, 2020, 11, 0, 0, 2021, // the second
        2, 3, 0, 13, 0, 0, 2019, 12, 1, 0, 0, // the third, in machine 1
        3, 4, 41, 14, 3, 1, 2018, 14, 3, 1, 2018, // the fourth
    ];
    assert_eq!(rt;
        told(rt.alloc(), &Owner::Block, 2)?.as_slice(),
        due.as_slice()
    );
    Ok(())
}

#[test]
fn each_edge_is_told_twice_by_any_machines(rt: HostRuntime) -> Result<(), Fail> {
    for machines in [1, 3, 8] {
        assert_eq!(rt; told(rt.alloc(), &Owner::Modulo, machines)?.len(), 52);
        assert_eq!(rt; told(rt.alloc(), &Owner::Block, machines)?.len(), 52);
    }
    let listed = told_as_listed(rt.alloc(), "1 0\n2 0\n3 0\n4 0\n", 1)?;
    assert_eq!(rt; listed.len(), 52);
    let listed = told_as_listed(rt.alloc(), "1 2\n2 1\n3 0\n4 1\n", 3)?;
    assert_eq!(rt; listed.len(), 52);
    let listed = told_as_listed(rt.alloc(), "4 3\n3 7\n2 0\n1 7\n", 8)?;
    assert_eq!(rt; listed.len(), 52);
    Ok(())
}
