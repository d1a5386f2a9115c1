//! What the queries of a run are answered, or their plans.
ghost use Rattle.std.specs.Prelude.{◌≡◌, IfOk, Ok, length, map};
ghost use Rattle.graph_tables.specs.Graph.{IsWhole, PropertyGraph};
ghost use Rattle.partition.specs.Owners.{IsOwner};
ghost use Rattle.query_replies.specs.Asked.{IsMeant, IsMeantOfSome};
ghost use Rattle.run_replies.specs.Asking.{AsksOver, AsksRowsOver, IsAnswered, IsAnswering, IsLoadedOf};
ghost use Rattle.run_replies.specs.Given.{AreQueries, IsGiven, job_seen};
ghost use Rattle.run_replies.specs.Jobs.{IsInLimits, without_texts};
ghost use Rattle.run_replies.specs.Outcome.{IsDoneBy, work_on};

use crate::job::Given;
use crate::load::Queries;
use crate::setup::shape_of;
use adfs_base::NoMemory;
use cli_words::Command;
use graph_tables::{Graph, Schema};
use partition::{Owner, split};
use query_replies::{Asked, Replies, answer_queries};
use run_trace::Header;
use serial_run::Engine;
use std::alloc::Global;
use value_text::Texts;

/// What is asked of queries, and what came with the graph over which it is asked.
#[derive(Drop)]
pub struct Loaded {
    pub asked: Asked,
    pub schema: Schema,
    pub texts: Texts,
}

// The rows of answers over the parts of the graph, by the numbers of the run.
fn rows_over(alloc: Global, header: &Header, owner: &Owner, graph: Graph) -> Result<Asked, NoMemory>
    requires limits { IsInLimits header.now }
    requires owner { IsOwner owner.now (length graph.vertices) header.now.machines }
    ensures { IfOk result (AsksRowsOver (without_texts graph)) }
{
    // What these two promise bounds the graph and its edges' ends.
    let _vertices = graph.vertices();
    let _edges = graph.edges();
    let parts = split(alloc, graph, owner, header.machines)?;
    Ok(Asked::Rows(Engine::new(parts, shape_of(header, 1))))
}

// Plans, which rest on no graph: its memory is given back.
fn plans_without(graph: Graph) -> Asked
    ensures { result ≡ Asked.Plan }
{
    let _given_back = graph;
    Asked::Plan
}

// What a command asks of queries over the graph.
fn asked_of(
    alloc: Global,
    command: Command,
    header: &Header,
    owner: &Owner,
    graph: Graph,
) -> Result<Asked, NoMemory>
    requires limits { IsInLimits header.now }
    requires owner { IsOwner owner.now (length graph.vertices) header.now.machines }
    ensures { IfOk result (AsksOver command (without_texts graph)) }
{
    match command {
        Command::Plan => Ok(plans_without(graph)),
        _ => rows_over(alloc, header, owner, graph),
    }
}

// The same with what came with the graph.
fn loaded_with(
    asked: Result<Asked, NoMemory>,
    schema: Schema,
    texts: Texts,
) -> Result<Loaded, NoMemory>
    ensures { IfOk result (λ loaded. (asked ≡ Ok loaded.asked) × (loaded.schema ≡ schema) × (loaded.texts ≡ texts)) }
{
    match asked {
        Ok(asked) => Ok(Loaded {
            asked,
            schema,
            texts,
        }),
        Err(_) => Err(NoMemory),
    }
}

// What the queries are answered over: the parts of the graph, dealt out so. Its own memory is given back.
fn deal_out(
    alloc: Global,
    command: Command,
    header: &Header,
    owner: &Owner,
    mut graph: Graph,
) -> Result<Loaded, NoMemory>
    requires limits { IsInLimits header.now }
    requires owner { IsOwner owner.now (length graph.vertices) header.now.machines }
    requires whole { IsWhole graph }
    ensures { IfOk result (IsLoadedOf command graph) }
{
    let (schema, texts) = graph.detach();
    let asked = asked_of(alloc, command, header, owner, graph);
    loaded_with(asked, schema, texts)
}

// What the queries are answered.
fn answer_loaded(alloc: Global, loaded: &mut Loaded, queries: &Queries) -> Result<Replies, NoMemory>
    requires asked { AreQueries queries.now }
    requires meant { IsMeantOfSome loaded.old.texts loaded.old.schema loaded.old.asked }
    ensures { (graph : PropertyGraph) → IsMeant loaded.old.texts loaded.old.schema graph loaded.old.asked → IfOk result (λ replies. IsAnswered graph loaded.old queries.now.text.items queries.now.places.items (map (λ text. text.items) replies.texts.items) replies.refused) }
{
    answer_queries(
        alloc,
        &mut loaded.asked,
        &loaded.schema,
        &mut loaded.texts,
        &queries.text,
        &queries.places,
    )
}

/// What `run` or `plan` puts.
pub fn answer_given(
    alloc: Global,
    command: Command,
    header: &Header,
    given: Given,
) -> Result<Replies, NoMemory>
    requires limits { IsInLimits header.now }
    requires given { IsGiven header.now given }
    requires answering { IsAnswering command }
    ensures { IfOk result (λ replies. IsDoneBy (work_on command header.now (job_seen given)) (map (λ text. text.items) replies.texts.items) replies.refused) }
{
    let Given {
        graph,
        owner,
        queries,
    } = given;
    match deal_out(alloc, command, header, &owner, graph) {
        Ok(mut loaded) => answer_loaded(alloc, &mut loaded, &queries),
        Err(_) => Err(NoMemory),
    }
}
