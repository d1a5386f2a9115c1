//! What it means that a text is taken again.
ghost use Rattle.run_trace.specs.Runs.{ReplaysAreRuns};

/// A text is taken again exactly where it is the lines of a legal run to a finished world, and then `finished`. The
/// number told is that of its events, and the gauge the greatest of all its worlds.
pub fn replays_are_runs()
    ensures { ReplaysAreRuns }
{}
