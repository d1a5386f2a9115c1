//! The tree of a query over a graph that is dealt out to machines.
ghost use Rattle.std.specs.Prelude.{◌≡◌, ◌<◌, ◌≤◌, IfOk, length};
ghost use Rattle.adfs_base.specs.declared.limits.TheConstants.{CONTEXT_WORDS};
ghost use Rattle.graph_tables.specs.Properties.{SchemaLists};
ghost use Rattle.hop_kernels.specs.PlanTrees.{over_of};
ghost use Rattle.partition.specs.Owners.{IsOwner};
ghost use Rattle.pgql_meaning.specs.Shown.{HasMeaning};
ghost use Rattle.plan_tree.specs.Laws.{over_parts};
ghost use Rattle.plan_tree.specs.PlanTree.{tree_of};
ghost use Rattle.serial_run.specs.Engines.{HasItsValues};
ghost use Rattle.serial_run.specs.Jobs.{IsJob};
ghost use Rattle.stage_plan.specs.Plans.{plan_of, words_of};
ghost use Rattle.typed_expr.specs.Captured.{HaveKinds};
ghost use Rattle.typed_query.specs.WellFormed.{IsWellFormed};

use adfs_base::NoMemory;
use graph_tables::Graph;
use hop_kernels::PlanTree;
use partition::{Owner, split};
use stage_plan::Plan;
use std::alloc::Global;
use typed_query::Query;
use value_text::Texts;

/// The tree of a query's plan over the parts of a graph, one for each of so many machines. The graph's own memory is given
/// back.
pub fn tree_over<'a>(
    alloc: Global,
    graph: Graph,
    owner: &Owner,
    machines: u32,
    query: Query,
    plan: Plan,
    texts: &'a Texts,
) -> Result<PlanTree<'a>, NoMemory>
    requires some { 0 < machines }
    requires owner { IsOwner owner.now (length graph.vertices) machines }
    requires plan { plan ≡ plan_of query }
    requires well { IsWellFormed query }
    requires room { words_of query ≤ CONTEXT_WORDS }
    ensures over { IfOk result (λ tree. over_of tree ≡ over_parts texts.now graph query owner.now machines) }
    ensures stages { IfOk result (λ tree. (tree_of (over_of tree)).stages ≡ length plan.stages) }
    ensures machines { IfOk result (λ tree. (tree_of (over_of tree)).machines ≡ machines) }
    ensures job { (schema : SchemaLists) → HasItsValues texts.now schema graph → HaveKinds schema query → HasMeaning texts.now query → IfOk result (λ tree. IsJob (over_of tree) schema graph) }
{
    // What these promise bounds the graph, its edges' ends, and the texts.
    let _vertices = graph.vertices();
    let _edges = graph.edges();
    let _count = texts.len();
    let parts = split(alloc, graph, owner, machines)?;
    Ok(PlanTree::new(parts, plan, query, texts))
}
