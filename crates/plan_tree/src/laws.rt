//! What holds of the tree of each plan.
ghost use Rattle.plan_tree.specs.Laws.{KindsAreTold, LeavesAreAll, MovesLeadToAll, PlansMakeTrees, RowsAreAll};

/// Moves that bind each variable and ask each test of a query lead to each match once, and to nothing else.
pub fn moves_lead_to_all()
    ensures { MovesLeadToAll }
{}

/// Over the parts of a graph, the leaves of a plan's tree stand for the matches of its query, each for one, whoever owns
/// the vertices and however many machines there are.
pub fn leaves_are_all()
    ensures { LeavesAreAll }
{}

/// Over the parts of a graph, a plan's tree is a staged tree.
pub fn plans_make_trees()
    ensures { PlansMakeTrees }
{}

/// Where a graph's values have the kinds of a schema, and the captures of a query too, whatever is captured can be said
/// in words.
pub fn kinds_are_told()
    ensures { KindsAreTold }
{}

/// Rows that are the leaves of a plan's tree, in whatever order, stand for the matches of its query, each for one. So
/// `collect` of `result_collect` makes the query's answer of them.
pub fn rows_are_all()
    ensures { RowsAreAll }
{}
