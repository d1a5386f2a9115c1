//! Rows from contexts, in whatever order these come.
use adfs_base::{CONTEXT_WORDS, MemStore, Name, NoMemory, Value};
use answer_rows::Row;
use graph_loading::load_graph;
use graph_tables::Graph;
use match_context::Context;
use pgql_meaning::answer_plain;
use result_collect::collect;
use sqlite_items::Items;
use std::alloc::Global;
use std::test::Fail;
use typed_expr::{Capture, EdgeJoin, Expr, Query, Variable, What};
use value_text::Texts;

const TABLES: [(&str, &str); 3] = [
    (
        "graph.txt",
        "adfs 1\nvertices person people.csv\nedges knows knows.csv\n",
    ),
    ("people.csv", "id:int\n8\n7\n6\n"),
    (
        "knows.csv",
        "id:int,source:int,target:int\n10,8,7\n11,8,7\n12,7,6\n13,6,8\n14,6,6\n",
    ),
];

fn store(alloc: Global) -> Result<MemStore, NoMemory> {
    let mut files = Vec::new(alloc);
    for (name, text) in TABLES {
        files.push((Name::new(alloc, name)?, text.as_bytes().to_vec(alloc)?))?;
    }
    Ok(MemStore::new(files, Vec::new(alloc)))
}

fn variable(alloc: Global, edge: bool) -> Variable {
    Variable {
        name: None,
        edge,
        labels: Items::new(alloc),
    }
}

// (a)-[e]->(b)
fn variables(alloc: Global) -> Result<Items<Variable>, NoMemory> {
    let (a, e, b) = (
        variable(alloc, false),
        variable(alloc, true),
        variable(alloc, false),
    );
    Ok(Items::from_vec(vec![in alloc; a, e, b]?))
}

// id(a) and id(b)
fn captures(alloc: Global) -> Result<Items<Capture>, NoMemory> {
    let (a, b) = (
        Capture {
            variable: 0,
            what: What::Id,
        },
        Capture {
            variable: 2,
            what: What::Id,
        },
    );
    Ok(Items::from_vec(vec![in alloc; a, b]?))
}

fn edges(alloc: Global) -> Result<Items<EdgeJoin>, NoMemory> {
    let join = EdgeJoin {
        edge: 1,
        source: 0,
        target: 2,
    };
    Ok(Items::from_vec(vec![in alloc; join]?))
}

fn columns(alloc: Global) -> Result<Items<(Expr, Name)>, NoMemory> {
    let mut columns = Vec::new(alloc);
    columns.push((Expr::Captured(0), Name::new(alloc, "id(a)")?))?;
    columns.push((Expr::Captured(1), Name::new(alloc, "id(b)")?))?;
    Ok(Items::from_vec(columns))
}

fn keys(alloc: Global) -> Result<Items<(Expr, bool)>, NoMemory> {
    Ok(Items::from_vec(vec![in alloc; (Expr::Captured(1), true)]?))
}

// SELECT id(a), id(b) MATCH (a)-[e]->(b) ORDER BY id(b) DESC
fn query(alloc: Global) -> Result<Query, NoMemory> {
    let (variables, edges, captures) = (variables(alloc)?, edges(alloc)?, captures(alloc)?);
    Ok(Query {
        variables,
        edges,
        captures,
        conjuncts: Items::new(alloc),
        select: columns(alloc)?,
        keys: keys(alloc)?,
        distinct: false,
        limit: None,
    })
}

fn key_of(graph: &Graph, vertex: u32) -> u64 {
    if vertex < graph.vertices() {
        graph.vertex(vertex).0.unsigned_abs()
    } else {
        0
    }
}

// The context of the match at an edge.
fn context(graph: &Graph, edge: u32) -> Context {
    let mut words = [0; CONTEXT_WORDS as usize];
    if edge < graph.edges() {
        let (_, _, source, target) = graph.edge(edge);
        words[1] = u64::from(source);
        words[2] = u64::from(edge);
        words[3] = u64::from(target);
        words[4] = key_of(graph, source);
        words[5] = key_of(graph, target);
    }
    Context { words }
}

fn collected(
    alloc: Global,
    contexts: Vec<Context>,
    query: &Query,
    texts: &Texts,
) -> Result<Vec<Row>, NoMemory> {
    if query.variables.len().saturating_add(query.captures.len()) > 39 {
        return Err(NoMemory);
    }
    collect(alloc, contexts, query, texts)
}

fn are_same(a: &[Row], b: &[Row]) -> bool {
    a.len() == b.len() && a.iter().zip(b).all(|(x, y)| x.values() == y.values())
}

fn first_row_is(rows: &[Row], cells: &[Value]) -> bool {
    match rows {
        [first, ..] => first.values() == cells,
        [] => false,
    }
}

// Whether the contexts of all matches, in this order of edges, give the answer of the plain loops.
fn gives_answer(
    alloc: Global,
    graph: &Graph,
    texts: &Texts,
    order: &[u32; 5],
) -> Result<bool, NoMemory> {
    let query = query(alloc)?;
    let plain = answer_plain(alloc, graph, texts, &query)?;
    let mut contexts = Vec::new(alloc);
    for edge in order {
        contexts.push(context(graph, *edge))?;
    }
    let rows = collected(alloc, contexts, &query, texts)?;
    Ok(
        first_row_is(&rows, &[Value::Int(6), Value::Int(8)])
            && rows.len() == 5
            && are_same(&rows, &plain),
    )
}

fn order_matters_not(alloc: Global, order: &[u32; 5]) -> Result<bool, NoMemory> {
    match load_graph(alloc, &mut store(alloc)?, "graph.txt") {
        Ok(mut graph) => {
            let (_, texts) = graph.detach();
            gives_answer(alloc, &graph, &texts, order)
        }
        Err(_) => Ok(false),
    }
}

#[test]
fn contexts_may_come_in_any_order(rt: HostRuntime) -> Result<(), Fail> {
    for order in [[0, 1, 2, 3, 4], [4, 3, 2, 1, 0], [2, 0, 4, 1, 3]] {
        assert!(rt; order_matters_not(rt.alloc(), &order)?);
    }
    Ok(())
}
