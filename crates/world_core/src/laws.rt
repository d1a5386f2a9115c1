//! What holds of every run.
ghost use Rattle.world_core.specs.Bound.{RunsAreBounded};
ghost use Rattle.world_core.specs.Rows.{RowsAreLeaves};
ghost use Rattle.world_core.specs.Turns.{WorkersMayTurn};

/// Whatever the events and their order, the rows of a finished world are the leaves of the tree, as a bag.
pub fn rows_are_leaves()
    ensures { RowsAreLeaves }
{}

/// Whatever the events and their order, what stands outside the pools is within the bound that the shape sets.
pub fn runs_are_bounded()
    ensures { RunsAreBounded }
{}

/// Whatever the events and their order, each worker may take a turn over what the plain fabric holds then.
pub fn workers_may_turn()
    ensures { WorkersMayTurn }
{}
