//! From three numbers to the summary.
ghost use Rattle.std.specs.Prelude.{◌≡◌, ◌++◌, ◌∷◌, [], ◌≤◌, ◌*◌, false, true, Ok, Err, IfOk, MatchResult, OnOk, map};
ghost use Rattle.adfs_base.specs.declared.limits.TheConstants.{CONTEXT_WORDS};
ghost use Rattle.generated_graph.specs.Loading.{graph_due};
ghost use Rattle.graph_tables.specs.Graph.{IsWhole};
ghost use Rattle.graph_tables.specs.Properties.{SchemaLists};
ghost use Rattle.pgql_meaning.specs.Answer.{answer_of};
ghost use Rattle.pgql_meaning.specs.Shown.{HasMeaning};
ghost use Rattle.serial_run.specs.Engines.{HasItsValues};
ghost use Rattle.stage_plan.specs.Plans.{plan_of, words_of};
ghost use Rattle.typed_expr.specs.Captured.{HaveKinds};
ghost use Rattle.typed_query.specs.WellFormed.{IsWellFormed};
ghost use Rattle.generated_reply.specs.Summary.{Brief, Generates, Summarizes, made_text, rows_text};

use crate::summary::{put_made, put_rows};
use adfs_base::{NoMemory, Shape};
use answer_rows::Row;
use generated_graph::generated_graph;
use graph_tables::Graph;
use partition::Owner;
use query_replies::{Replies, Verdict, read_query};
use serial_run::{rows_by_core, tree_over, with_stages};
use stage_plan::Plan;
use std::alloc::Global;
use typed_query::Query;
use value_text::Texts;

/// The query: paths of two edges along which the weights rise.
const QUERY: &[u8] =
    b"SELECT id(a), id(b), id(c) MATCH (a:node)-[e:link]->(b:node)-[f:link]->(c:node) WHERE a.w < b.w AND b.w < c.w";

// The rows of a query over the graph, in brief.
fn put_answer(
    alloc: Global,
    shape: &Shape,
    graph: Graph,
    query: Query,
    plan: Plan,
    texts: &Texts,
    out: &mut Vec<u8>,
) -> Result<(), NoMemory>
    requires plan { plan ≡ plan_of query }
    requires well { IsWellFormed query }
    requires room { words_of query ≤ CONTEXT_WORDS }
    requires meaning { HasMeaning texts.now query }
    requires asked { (schema : SchemaLists) × HasItsValues texts.now schema graph × HaveKinds schema query }
    ensures { OnOk result (out.new.items ≡ out.old.items ++ rows_text texts.now (answer_of texts.now graph query)) }
{
    let shape = with_stages(shape, plan.stages());
    let machines = shape.machines();
    let tree = tree_over(alloc, graph, &Owner::Modulo, machines, query, plan, texts)?;
    let rows = rows_by_core(alloc, &tree, texts, &shape)?;
    put_rows(alloc, &rows, texts, out)
}

// Writes the line of a refusal.
fn put_line(line: &[u8], out: &mut Vec<u8>) -> Result<(), NoMemory>
    ensures { OnOk result (out.new.items ≡ out.old.items ++ line.now) }
{
    out.extend_from_slice(line)?;
    Ok(())
}

fn answered(told: Result<(), NoMemory>) -> Result<bool, NoMemory>
    ensures { MatchResult told (λ _. result ≡ Ok false) (λ e. result ≡ Err e) }
{
    match told {
        Ok(()) => Ok(false),
        Err(error) => Err(error),
    }
}

fn refused(told: Result<(), NoMemory>) -> Result<bool, NoMemory>
    ensures { MatchResult told (λ _. result ≡ Ok true) (λ e. result ≡ Err e) }
{
    match told {
        Ok(()) => Ok(true),
        Err(error) => Err(error),
    }
}

// What is told of the query over the graph, after what is there; and whether it is refused.
fn put_reply(
    alloc: Global,
    shape: &Shape,
    mut graph: Graph,
    out: &mut Vec<u8>,
) -> Result<bool, NoMemory>
    requires { IsWhole graph }
    ensures { IfOk result (λ refused. Brief graph out.old.items out.new.items refused) }
{
    let (schema, mut texts) = graph.detach();
    match read_query(alloc, &schema, &mut texts, 1, QUERY, 0) {
        Ok(verdict) => match verdict {
            Verdict::Accepted(query, plan) => {
                answered(put_answer(alloc, shape, graph, query, plan, &texts, out))
            }
            Verdict::Refused(line) => refused(put_line(&line, out)),
        },
        Err(error) => Err(error),
    }
}

// The summary of a graph, after what is there; and whether its query is refused.
fn put_summary(
    alloc: Global,
    shape: &Shape,
    vertices: u64,
    edges: u64,
    graph: Graph,
    out: &mut Vec<u8>,
) -> Result<bool, NoMemory>
    requires { IsWhole graph }
    ensures { IfOk result (λ refused. Brief graph (out.old.items ++ made_text vertices edges) out.new.items refused) }
{
    match put_made(vertices, edges, out) {
        Ok(()) => put_reply(alloc, shape, graph, out),
        Err(error) => Err(error),
    }
}

// One text alone.
fn one_text(alloc: Global, text: Vec<u8>, refused: bool) -> Result<Replies, NoMemory>
    ensures { IfOk result (λ replies. (map (λ t. t.items) replies.texts.items ≡ text.items ∷ []) × (replies.refused ≡ refused)) }
{
    let texts = vec![in alloc; text]?;
    Ok(Replies { texts, refused })
}

// The summary of a graph.
fn summary_of(
    alloc: Global,
    shape: &Shape,
    vertices: u64,
    edges: u64,
    graph: Graph,
) -> Result<Replies, NoMemory>
    requires { IsWhole graph }
    ensures { IfOk result (λ replies. Summarizes graph vertices edges (map (λ text. text.items) replies.texts.items) replies.refused) }
{
    let mut out = Vec::new(alloc);
    match put_summary(alloc, shape, vertices, edges, graph, &mut out) {
        Ok(refused) => one_text(alloc, out, refused),
        Err(error) => Err(error),
    }
}

/// The summary of the graph of a seed with so many vertices and edges: the one text that is put. No seed is refused.
pub fn generated_reply(
    alloc: Global,
    seed: u64,
    vertices: u64,
    edges: u64,
    shape: &Shape,
) -> Result<Replies, NoMemory>
    requires vertices { (1 ≤ vertices) × (vertices ≤ 200000) }
    requires edges { edges ≤ 8 * vertices }
    ensures { IfOk result (Generates vertices edges (graph_due seed vertices edges)) }
{
    match generated_graph(alloc, seed, vertices, edges) {
        Ok(graph) => summary_of(alloc, shape, vertices, edges, graph),
        // What `generated_graph` promises says that this is out of memory, and nothing else.
        Err(_) => Err(NoMemory),
    }
}
