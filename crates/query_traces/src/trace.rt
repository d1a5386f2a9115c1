//! From a query's tree to the text of its trace.
ghost use Rattle.std.specs.Prelude.{◌≡◌, ◌++◌, ◌≤◌, ℕ, IfOk, OnOk};
ghost use Rattle.adfs_base.specs.declared.limits.TheConstants.{CONTEXT_WORDS};
ghost use Rattle.graph_tables.specs.Graph.{PropertyGraph};
ghost use Rattle.graph_tables.specs.Properties.{SchemaLists};
ghost use Rattle.hop_kernels.specs.PlanTrees.{over_of};
ghost use Rattle.match_context.specs.Bags.{SameBag};
ghost use Rattle.match_context.specs.Leaves.{tree_leaves};
ghost use Rattle.pgql_meaning.specs.Answer.{answer_of};
ghost use Rattle.plan_tree.specs.PlanTree.{tree_of};
ghost use Rattle.result_collect.specs.Replies.{reply_text};
ghost use Rattle.serial_run.specs.Jobs.{IsJob, IsSomeJob};
ghost use Rattle.stage_plan.specs.Plans.{words_of};
ghost use Rattle.trace_text.specs.Headers.{header_lines, with_feeds};
ghost use Rattle.trace_writing.specs.Written.{IsWritten};
ghost use Rattle.world_core.specs.World.{start_world};
ghost use Rattle.query_traces.specs.Traces.{IsTraceText};

use adfs_base::{NoMemory, Shape};
use bfs_budget::Seeded;
use hop_kernels::PlanTree;
use match_context::Context;
use run_trace::{Header, put_header};
use serial_run::{reply_of_rows, rows_of_leaves};
use std::alloc::Global;
use trace_writing::write_run;
use value_text::Texts;

// The reply to a query, from the leaves of its tree.
fn reply_of_leaves(
    alloc: Global,
    number: u32,
    tree: &PlanTree<'_>,
    texts: &Texts,
    leaves: Vec<Context>,
) -> Result<Vec<u8>, NoMemory>
    requires same { texts.now ≡ (over_of tree.now).texts }
    requires room { words_of (over_of tree.now).query ≤ CONTEXT_WORDS }
    requires job { IsSomeJob (over_of tree.now) }
    requires leaves { SameBag leaves.items (tree_leaves (tree_of (over_of tree.now))) }
    ensures { (schema : SchemaLists) (graph : PropertyGraph) → IsJob (over_of tree.now) schema graph → IfOk result (λ text. text.items ≡ reply_text texts.now number (over_of tree.now).query (answer_of texts.now graph (over_of tree.now).query)) }
{
    let rows = rows_of_leaves(alloc, tree, texts, leaves)?;
    reply_of_rows(alloc, number, tree.query(), &rows, texts)
}

// The header and the lines of a run of that schedule, and the leaves that it came to.
fn write_lines(
    alloc: Global,
    header: &Header,
    tree: &PlanTree<'_>,
    shape: &Shape,
    schedule: u64,
    out: &mut Vec<u8>,
) -> Result<Vec<Context>, NoMemory>
    requires stages { shape.now.stages ≡ (tree_of (over_of tree.now)).stages }
    requires machines { shape.now.machines ≡ (tree_of (over_of tree.now)).machines }
    ensures written { IfOk result (λ leaves. IsWritten (tree_of (over_of tree.now)) (start_world shape.now (tree_of (over_of tree.now))) (out.old.items ++ with_feeds (header_lines header.now)) out.new.items leaves.items) }
    ensures leaves { IfOk result (λ leaves. SameBag leaves.items (tree_leaves (tree_of (over_of tree.now)))) }
{
    put_header(header, out)?;
    write_run(alloc, tree, shape, &mut Seeded(schedule), out)
}

/// The trace of the query of this number, which has this tree: the header, the events of a run that the schedule picks,
/// `finished`, and the reply.
pub fn trace_text(
    alloc: Global,
    header: &Header,
    tree: &PlanTree<'_>,
    shape: &Shape,
    schedule: u64,
    number: u32,
    texts: &Texts,
) -> Result<Vec<u8>, NoMemory>
    requires stages { shape.now.stages ≡ (tree_of (over_of tree.now)).stages }
    requires machines { shape.now.machines ≡ (tree_of (over_of tree.now)).machines }
    requires same { texts.now ≡ (over_of tree.now).texts }
    requires room { words_of (over_of tree.now).query ≤ CONTEXT_WORDS }
    requires job { IsSomeJob (over_of tree.now) }
    ensures { (schema : SchemaLists) (graph : PropertyGraph) → IsJob (over_of tree.now) schema graph → IfOk result (λ text. IsTraceText header.now (tree_of (over_of tree.now)) shape.now (reply_text texts.now number (over_of tree.now).query (answer_of texts.now graph (over_of tree.now).query)) text.items) }
{
    let mut out = Vec::new(alloc);
    let leaves = write_lines(alloc, header, tree, shape, schedule, &mut out)?;
    let reply = reply_of_leaves(alloc, number, tree, texts, leaves)?;
    out.extend_from_slice(&reply)?;
    Ok(out)
}
