//! What holds of the trees of plans.
ghost use Rattle.hop_kernels.specs.Laws.{TreesLeadToAll};

/// Rows that are the leaves of a query's tree over the parts of a graph, in whatever order, stand for the query's matches, each
/// for one, whoever owns the vertices and however many machines there are. `PlanTree::new` tells what its tree is over.
pub fn leaves_are_all()
    ensures { TreesLeadToAll }
{}
