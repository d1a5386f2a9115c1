//! What holds of the plan of each query.
ghost use Rattle.stage_plan.specs.Laws.{PlansAreWhole};

/// Each plan binds each variable once and puts each test of its query once.
pub fn plans_are_whole()
    ensures { PlansAreWhole }
{}
