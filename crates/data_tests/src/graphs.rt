//! A graph of three files reads back, and a load that fails is told of its file.
use adfs_base::{Kind, MemStore, Name, NoMemory, Value};
use graph_loading::load_graph;
use graph_tables::{Graph, Schema, TableFault, TableKind};
use std::alloc::Global;
use std::test::Fail;
use value_text::Texts;

const TOWN: [(&str, &str); 3] = [
    (
        "graph.txt",
        "adfs 1\nvertices person people.csv\nedges knows knows.csv\n",
    ),
    (
        "people.csv",
        "id:int,name:text,born:date\n1,Ann,1990-05-01\n2,\"Cy, Jr\",\n3,\"\",\n",
    ),
    (
        "knows.csv",
        "id:int,source:int,target:int,since:int\n10,1,2,2020\n12,2,2,\n",
    ),
];

fn named(alloc: Global, file: (&str, &str)) -> Result<(Name, Vec<u8>), NoMemory> {
    let name = Name::new(alloc, file.0)?;
    let bytes = file.1.as_bytes().to_vec(alloc)?;
    Ok((name, bytes))
}

// The files of the town, in a store whose load of this number fails.
fn town(alloc: Global, failing: u64) -> Result<MemStore, NoMemory> {
    let mut files = Vec::new(alloc);
    for file in TOWN {
        files.push(named(alloc, file)?)?;
    }
    Ok(MemStore::new(files, vec![in alloc; failing]?))
}

fn has_vertices(graph: &Graph) -> bool {
    graph.vertices() == 3
        && graph.vertex(0) == (1, 0)
        && graph.vertex(1) == (2, 0)
        && graph.vertex(2) == (3, 0)
        && graph.vertex_value(0, 0) == Value::Text(1)
        && graph.vertex_value(0, 1) == Value::Date(7425)
        && graph.vertex_value(1, 1) == Value::Null
        && graph.vertex_value(1, 2) == Value::Null
        && graph.vertex_value(2, 0) == Value::Null
        && graph.vertex_of(2) == Some(1)
        && graph.vertex_of(4).is_none()
}

fn has_edges(graph: &Graph) -> bool {
    graph.edges() == 2
        && graph.edge(0) == (10, 3, 0, 1)
        && graph.edge(1) == (12, 3, 1, 1)
        && graph.edge_value(0, 0) == Value::Int(2020)
        && graph.edge_value(1, 0) == Value::Null
}

fn has_schema(schema: &Schema) -> bool {
    schema.vertex_property(b"name") == Some((0, Kind::Text))
        && schema.vertex_property(b"born") == Some((1, Kind::Date))
        && schema.vertex_property(b"since").is_none()
        && schema.edge_property(b"since") == Some((0, Kind::Int))
        && schema.edge_property(b"name").is_none()
}

// The texts of the town: the empty name, in quotes, is none of them.
fn has_texts(texts: &Texts) -> bool {
    texts.len() == 4
        && texts.get(0) == b"person".as_slice()
        && texts.get(1) == b"Ann".as_slice()
        && texts.get(2) == b"Cy, Jr".as_slice()
        && texts.get(3) == b"knows".as_slice()
}

// Whether the town is loaded as it stands.
fn is_town(alloc: Global) -> Result<bool, NoMemory> {
    let mut store = town(alloc, 0)?;
    match load_graph(alloc, &mut store, "graph.txt") {
        Ok(mut graph) => {
            let whole = has_vertices(&graph) && has_edges(&graph);
            let (schema, texts) = graph.detach();
            Ok(whole && has_schema(&schema) && has_texts(&texts))
        }
        Err(_) => Ok(false),
    }
}

#[test]
fn a_graph_reads_back(rt: HostRuntime) -> Result<(), Fail> {
    assert!(rt; is_town(rt.alloc())?);
    Ok(())
}

// The fault of the town where a load fails.
fn fault(alloc: Global, failing: u64) -> Result<Option<TableFault>, NoMemory> {
    let mut store = town(alloc, failing)?;
    Ok(load_graph(alloc, &mut store, "graph.txt").err())
}

#[test]
fn failing_loads(rt: HostRuntime) -> Result<(), Fail> {
    for failing in 1..4 {
        let due = TableFault {
            file: failing - 1,
            row: 0,
            column: 0,
            kind: TableKind::ReadFault,
        };
        assert_eq!(rt; fault(rt.alloc(), u64::from(failing))?, Some(due));
    }
    Ok(())
}
