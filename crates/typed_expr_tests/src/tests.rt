//! Queries whose names give way to numbers, and what passes a condition.
ghost use Rattle.std.specs.Prelude.{◌<◌, ◌^◌, length};

use adfs_base::{MemStore, Name, NoMemory, Value};
use graph_loading::load_graph;
use graph_tables::Schema;
use pgql_syntax::parse;
use pgql_tree::{Ast, Op};
use sqlite_items::Boxed;
use std::alloc::Global;
use std::test::Fail;
use typed_expr::{Expr, Query, TypeFault, What, literal_count, passes, type_query, value};
use value_text::Texts;

// A graph of people: vertices have `name` and `age`, edges have `since`.
fn people(alloc: Global) -> Result<MemStore, NoMemory> {
    let mut files = Vec::new(alloc);
    for (name, text) in [
        (
            "graph.txt",
            "adfs 1\nvertices person people.csv\nedges knows knows.csv\n",
        ),
        ("people.csv", "id:int,name:text,age:int\n"),
        ("knows.csv", "id:int,source:int,target:int,since:date\n"),
    ] {
        files.push((Name::new(alloc, name)?, text.as_bytes().to_vec(alloc)?))?;
    }
    Ok(MemStore::new(files, Vec::new(alloc)))
}

// Its properties and its texts.
fn loaded(alloc: Global, store: &mut MemStore) -> Result<(Schema, Texts), NoMemory> {
    match load_graph(alloc, store, "graph.txt") {
        Ok(mut graph) => Ok(graph.detach()),
        Err(_) => Err(NoMemory),
    }
}

fn typed(alloc: Global, ast: Ast) -> Result<Query, TypeFault> {
    let (schema, mut texts) = loaded(alloc, &mut people(alloc)?)?;
    if u64::from(texts.len()) + u64::from(literal_count(&ast)) < 4294967295 {
        type_query(alloc, ast, &schema, &mut texts)
    } else {
        Err(TypeFault::NoMemory)
    }
}

// What a capture is of, as a letter with its variable's number.
fn capture_word(what: What, variable: u32) -> (char, u32) {
    match what {
        What::Id => ('i', variable),
        What::Label => ('l', variable),
        What::Property(place, _) => ('p', variable % 100 * 100 + place % 100),
    }
}

fn joins(query: &Query) -> (u32, u32, u32) {
    match query.edges.as_slice() {
        [join, ..] => (join.edge, join.source, join.target),
        [] => (0, 0, 0),
    }
}

fn last_capture(query: &Query) -> (char, u32) {
    match query.captures.as_slice() {
        [.., last] => capture_word(last.what, last.variable),
        [] => ('-', 0),
    }
}

// The counts of captures, conjuncts and variables.
fn counts(query: &Query) -> (usize, usize, usize) {
    (
        query.captures.len(),
        query.conjuncts.len(),
        query.variables.len(),
    )
}

/// What of a query the tests look at: its counts, its first join and its last capture.
type Numbers = ((usize, usize, usize), (u32, u32, u32), (char, u32));

fn numbers(query: &Query) -> Numbers {
    (counts(query), joins(query), last_capture(query))
}

// The numbers of the query that a text means; nothing where it means none.
fn numbers_of(alloc: Global, text: &str) -> Result<Option<Numbers>, NoMemory> {
    if text.len() >= 1000 {
        return Ok(None);
    }
    let Ok(ast) = parse(alloc, text.as_bytes(), 0) else {
        return Ok(None);
    };
    match typed(alloc, ast) {
        Ok(query) => Ok(Some(numbers(&query))),
        Err(_) => Ok(None),
    }
}

#[test]
fn names_give_way_to_numbers(rt: HostRuntime) -> Result<(), Fail> {
    for (text, due) in [
        ("SELECT 1 MATCH ()", ((0, 0, 1), (0, 0, 0), ('-', 0))),
        (
            "SELECT a.name AS n, 'x' AS m MATCH (a)<-[e]-(b), (b) WHERE a.name = 'y' AND (id(b) < 5 AND TRUE) ORDER BY n",
            ((2, 3, 3), (1, 2, 0), ('i', 2)),
        ),
        (
            "SELECT label(a), a.age, e.since, a.age, label(a) MATCH (b)-[e]->(a)",
            ((3, 0, 3), (1, 0, 2), ('p', 100)),
        ),
        (
            "SELECT id(a) MATCH (a)->(a) WHERE a.age = 1 AND id(a) = 2 OR TRUE",
            ((2, 1, 2), (1, 0, 0), ('p', 1)),
        ),
        (
            "SELECT DISTINCT a.name AS n, 'x' AS m MATCH (a:person)<-[e:knows]-(b), (b:person) WHERE a.name = 'y' AND (id(b) < 5 AND e.since IS NOT NULL) ORDER BY n DESC LIMIT 3",
            ((3, 3, 3), (1, 2, 0), ('p', 100)),
        ),
    ] {
        let told = numbers_of(rt.alloc(), text)?;
        assert!(rt; told == Some(due), "{text}");
    }
    Ok(())
}

// What a comparison gives of a number and a truth value.
fn compared(alloc: Global, op: Op) -> Result<Value, NoMemory> {
    let number = Boxed::new(alloc, Expr::Constant(Value::Int(1)))?;
    let truth = Boxed::new(alloc, Expr::Constant(Value::Bool(true)))?;
    let expr = Expr::Binary(op, number, truth);
    Ok(value(&expr, &[], &Texts::new(alloc)))
}

#[test]
fn values_of_two_kinds_compare_to_null(rt: HostRuntime) -> Result<(), Fail> {
    for op in [
        Op::Equal,
        Op::Unequal,
        Op::Less,
        Op::LessEqual,
        Op::Greater,
        Op::GreaterEqual,
    ] {
        assert_eq!(rt; compared(rt.alloc(), op)?, Value::Null);
    }
    Ok(())
}

#[test]
fn a_capture_that_is_not_there_is_null(rt: HostRuntime) {
    let texts = Texts::new(rt.alloc());
    assert_eq!(rt; value(&Expr::Captured(0), &[], &texts), Value::Null);
}

#[test]
fn only_true_passes(rt: HostRuntime) {
    let texts = Texts::new(rt.alloc());
    for (constant, due) in [
        (Value::Bool(true), true),
        (Value::Bool(false), false),
        (Value::Null, false),
        (Value::Int(1), false),
    ] {
        let found = passes(value(&Expr::Constant(constant), &[], &texts));
        assert!(rt; found == due);
    }
}
