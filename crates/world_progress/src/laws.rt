//! What holds of every sound world.
ghost use Rattle.world_progress.specs.Stuck.{NeverStuck};

/// A sound world in which no event is enabled is finished: until all stages are closed, some event is enabled.
pub fn never_stuck()
    ensures { NeverStuck }
{}
