//! From a query's tree to the text of its reply.
ghost use Rattle.std.specs.Prelude.{◌≡◌, ◌<◌, ◌≤◌, IfOk};
ghost use Rattle.adfs_base.specs.declared.limits.TheConstants.{CONTEXT_WORDS, MOST_STAGES};
ghost use Rattle.graph_tables.specs.Graph.{PropertyGraph};
ghost use Rattle.graph_tables.specs.Properties.{SchemaLists};
ghost use Rattle.hop_kernels.specs.PlanTrees.{over_of};
ghost use Rattle.match_context.specs.Bags.{SameBag};
ghost use Rattle.match_context.specs.Leaves.{tree_leaves};
ghost use Rattle.pgql_meaning.specs.Answer.{answer_of};
ghost use Rattle.pgql_meaning.specs.Shown.{AreShown};
ghost use Rattle.plan_tree.specs.PlanTree.{tree_of};
ghost use Rattle.result_collect.specs.Replies.{reply_text};
ghost use Rattle.stage_plan.specs.Plans.{words_of};
ghost use Rattle.serial_run.specs.Engines as spec;
ghost use Rattle.serial_run.specs.Jobs.{IsJob, IsSomeJob};

use adfs_base::{NoMemory, Shape};
use answer_rows::Row;
use bfs_budget::Deepest;
use hop_kernels::PlanTree;
use hop_kernels::laws::leaves_are_all;
use match_context::Context;
use result_collect::{collect, put_reply};
use std::alloc::Global;
use typed_query::Query;
use value_text::Texts;
use world_progress::rows_of_tree;

/// The shape of a run over as many stages as these.
pub fn with_stages(shape: &Shape, stages: u32) -> Shape
    requires some { 0 < stages }
    requires few { stages ≤ MOST_STAGES }
    ensures { result ≡ spec.with_stages shape.now stages }
{
    Shape::new(
        shape.machines(),
        shape.workers(),
        stages,
        shape.credit(),
        shape.broad(),
        shape.buffer(),
    )
    .unwrap()
}

/// The rows of a query's answer, from the leaves of its tree in whatever order they come.
pub fn rows_of_leaves(
    alloc: Global,
    tree: &PlanTree<'_>,
    texts: &Texts,
    leaves: Vec<Context>,
) -> Result<Vec<Row>, NoMemory>
    requires same { texts.now ≡ (over_of tree.now).texts }
    requires room { words_of (over_of tree.now).query ≤ CONTEXT_WORDS }
    ensures { (schema : SchemaLists) (graph : PropertyGraph) → IsJob (over_of tree.now) schema graph → SameBag leaves.items (tree_leaves (tree_of (over_of tree.now))) → IfOk result (λ rows. rows.items ≡ answer_of texts.now graph (over_of tree.now).query) }
{
    // What this promises says that the leaves stand for the matches.
    leaves_are_all();
    collect(alloc, leaves, tree.query(), texts)
}

/// The text of the reply to the query of this number, which has these rows.
pub fn reply_of_rows(
    alloc: Global,
    number: u32,
    query: &Query,
    rows: &[Row],
    texts: &Texts,
) -> Result<Vec<u8>, NoMemory>
    requires { AreShown texts.now rows.now }
    ensures { IfOk result (λ text. text.items ≡ reply_text texts.now number query.now rows.now) }
{
    let mut text = Vec::new(alloc);
    put_reply(alloc, number, query, rows, texts, &mut text)?;
    Ok(text)
}

/// The rows of a tree's query, by a run of the core.
pub fn rows_by_core(
    alloc: Global,
    tree: &PlanTree<'_>,
    texts: &Texts,
    shape: &Shape,
) -> Result<Vec<Row>, NoMemory>
    requires stages { shape.now.stages ≡ (tree_of (over_of tree.now)).stages }
    requires machines { shape.now.machines ≡ (tree_of (over_of tree.now)).machines }
    requires same { texts.now ≡ (over_of tree.now).texts }
    requires room { words_of (over_of tree.now).query ≤ CONTEXT_WORDS }
    ensures answer { (schema : SchemaLists) (graph : PropertyGraph) → IsJob (over_of tree.now) schema graph → IfOk result (λ rows. rows.items ≡ answer_of texts.now graph (over_of tree.now).query) }
    ensures shown { IsSomeJob (over_of tree.now) → IfOk result (λ rows. AreShown texts.now rows.items) }
{
    let leaves = rows_of_tree(alloc, tree, shape, &mut Deepest)?;
    rows_of_leaves(alloc, tree, texts, leaves)
}

/// The text of the reply to a tree's query, by a run of the core.
pub(crate) fn reply_by_core(
    alloc: Global,
    number: u32,
    tree: &PlanTree<'_>,
    texts: &Texts,
    shape: &Shape,
) -> Result<Vec<u8>, NoMemory>
    requires stages { shape.now.stages ≡ (tree_of (over_of tree.now)).stages }
    requires machines { shape.now.machines ≡ (tree_of (over_of tree.now)).machines }
    requires same { texts.now ≡ (over_of tree.now).texts }
    requires room { words_of (over_of tree.now).query ≤ CONTEXT_WORDS }
    requires job { IsSomeJob (over_of tree.now) }
    ensures { (schema : SchemaLists) (graph : PropertyGraph) → IsJob (over_of tree.now) schema graph → IfOk result (λ text. text.items ≡ reply_text texts.now number (over_of tree.now).query (answer_of texts.now graph (over_of tree.now).query)) }
{
    let rows = rows_by_core(alloc, tree, texts, shape)?;
    reply_of_rows(alloc, number, tree.query(), &rows, texts)
}
