//! The trace of the first query of a file, and what is told of one that is taken again.
ghost use Rattle.std.specs.Prelude.{◌≡◌, ◌<◌, ◌≤◌, ◌∷◌, [], ℕ, IfOk, length, map, false};
ghost use Rattle.adfs_base.specs.declared.limits.TheConstants.{FILE_BYTES};
ghost use Rattle.hop_kernels.specs.PlanTrees.{over_of};
ghost use Rattle.partition.specs.Owners.{IsOwner};
ghost use Rattle.plan_tree.specs.Laws.{over_parts};
ghost use Rattle.plan_tree.specs.PlanTree as spec;
ghost use Rattle.serial_run.specs.Jobs.{IsJob};
ghost use Rattle.trace_text.specs.Headers.{Follows};
ghost use Rattle.run_replies.specs.Firsts.{IsAsking, IsAskingOfSome};
ghost use Rattle.run_replies.specs.Given.{IsGiven, job_seen};
ghost use Rattle.run_replies.specs.Jobs.{IsInLimits, Job, schema_of};
ghost use Rattle.run_replies.specs.Traces.{IsTraceOf, IsTraced};
ghost use Rattle.run_replies.specs.Telling.{IsToldAlone, QueryTaken, TakenGives};

use crate::first::{Asking, First, read_first};
use crate::job::Given;
use crate::setup::shape_of;
use adfs_base::NoMemory;
use hop_kernels::PlanTree;
use query_replies::Replies;
use query_traces::{replay_text, trace_text};
use run_trace::{Header, ReplayFault};
use serial_run::tree_over;
use std::alloc::Global;
use value_text::Texts;

/// A trace that was loaded: its bytes, and where its events begin.
#[derive(Clone, Copy)]
pub struct Events<'a> {
    pub bytes: &'a [u8],
    pub from: u64,
}

// One text alone.
fn one_text(alloc: Global, text: Vec<u8>, refused: bool) -> Result<Replies, NoMemory>
    ensures texts { IfOk result (λ replies. map (λ text. text.items) replies.texts.items ≡ text.items ∷ []) }
    ensures refused { IfOk result (λ replies. replies.refused ≡ refused) }
{
    let texts = vec![in alloc; text]?;
    Ok(Replies { texts, refused })
}

fn no_texts(alloc: Global) -> Replies
    ensures texts { map (λ text. text.items) result.texts.items ≡ [] }
    ensures refused { result.refused ≡ false }
{
    Replies {
        texts: Vec::new(alloc),
        refused: false,
    }
}

// The tree of a query's plan over the graph, dealt out to so many machines.
fn tree_of<'a>(
    alloc: Global,
    machines: u32,
    asking: Asking,
    texts: &'a Texts,
) -> Result<PlanTree<'a>, NoMemory>
    requires some { 0 < machines }
    requires owned { IsOwner asking.owner (length asking.graph.vertices) machines }
    requires asked { IsAskingOfSome texts.now asking }
    ensures over { IfOk result (λ tree. over_of tree ≡ over_parts texts.now asking.graph asking.query asking.owner machines) }
    ensures stages { IfOk result (λ tree. (spec.tree_of (over_of tree)).stages ≡ length asking.plan.stages) }
    ensures machines { IfOk result (λ tree. (spec.tree_of (over_of tree)).machines ≡ machines) }
    ensures job { (job : Job) (place : ℕ × ℕ) → IsAsking job place texts.now asking → IfOk result (λ tree. IsJob (over_of tree) (schema_of job.graph) asking.graph) }
{
    let Asking {
        graph,
        owner,
        query,
        plan,
    } = asking;
    tree_over(alloc, graph, &owner, machines, query, plan, texts)
}

// The trace of a query.
fn trace_query(
    alloc: Global,
    header: &Header,
    schedule: u64,
    asking: Asking,
    texts: &Texts,
) -> Result<Vec<u8>, NoMemory>
    requires limits { IsInLimits header.now }
    requires owned { IsOwner asking.owner (length asking.graph.vertices) header.now.machines }
    requires asked { IsAskingOfSome texts.now asking }
    ensures { (job : Job) (place : ℕ × ℕ) → IsAsking job place texts.now asking → IfOk result (λ text. IsTraceOf header.now job place text.items) }
{
    let shape = shape_of(header, asking.plan.stages());
    let tree = tree_of(alloc, header.machines, asking, texts)?;
    trace_text(alloc, header, &tree, &shape, schedule, 1, texts)
}

// What is told of a query's trace.
fn take_query(
    alloc: Global,
    header: &Header,
    events: Events<'_>,
    asking: Asking,
    texts: &Texts,
) -> Result<Vec<u8>, ReplayFault>
    requires limits { IsInLimits header.now }
    requires owned { IsOwner asking.owner (length asking.graph.vertices) header.now.machines }
    requires asked { IsAskingOfSome texts.now asking }
    requires short { length events.bytes.now ≤ FILE_BYTES }
    requires follows { Follows events.bytes.now 5 events.from }
    ensures { (job : Job) (place : ℕ × ℕ) → IsAsking job place texts.now asking → QueryTaken header.now events.entry.bytes.now job place result }
{
    let shape = shape_of(header, asking.plan.stages());
    match tree_of(alloc, header.machines, asking, texts) {
        Ok(tree) => replay_text(alloc, &tree, &shape, events.bytes, events.from),
        Err(_) => Err(ReplayFault::NoMemory),
    }
}

/// What `trace` puts: the trace of the first query, or the line by which it is refused; nothing where there is no query.
pub fn trace_given(
    alloc: Global,
    header: &Header,
    schedule: u64,
    given: Given,
) -> Result<Replies, NoMemory>
    requires limits { IsInLimits header.now }
    requires given { IsGiven header.now given }
    ensures { IfOk result (λ replies. IsTraced header.now (job_seen given) (job_seen given).places (map (λ text. text.items) replies.texts.items) replies.refused) }
{
    let (first, texts) = read_first(alloc, given)?;
    match first {
        First::Absent => Ok(no_texts(alloc)),
        First::Refused(line) => one_text(alloc, line, true),
        First::Asked(asking) => {
            let trace = trace_query(alloc, header, schedule, asking, &texts)?;
            one_text(alloc, trace, false)
        }
    }
}

// The text alone, where it was told.
fn told_alone(alloc: Global, told: Result<Vec<u8>, ReplayFault>) -> Result<Replies, ReplayFault>
    ensures { IsToldAlone told result }
{
    match told {
        Ok(text) => Ok(one_text(alloc, text, false)?),
        Err(fault) => Err(fault),
    }
}

/// What `replay` puts: what is told of the trace, taken again on the first query; or the line by which that is refused, and
/// nothing where there is no query.
pub fn take_given(
    alloc: Global,
    header: &Header,
    events: Events<'_>,
    given: Given,
) -> Result<Replies, ReplayFault>
    requires limits { IsInLimits header.now }
    requires given { IsGiven header.now given }
    requires short { length events.bytes.now ≤ FILE_BYTES }
    requires follows { Follows events.bytes.now 5 events.from }
    ensures { TakenGives header.now events.entry.bytes.now (job_seen given) result }
{
    let (first, texts) = read_first(alloc, given)?;
    match first {
        First::Absent => Ok(no_texts(alloc)),
        First::Refused(line) => Ok(one_text(alloc, line, true)?),
        First::Asked(asking) => {
            told_alone(alloc, take_query(alloc, header, events, asking, &texts))
        }
    }
}
