//! What a written run is good for.
ghost use Rattle.trace_writing.specs.Again.{WrittenRunsAreTakenAgain};

/// The text of a run is taken again: it is answered well, with the number of its events, whatever follows it.
pub fn written_runs_are_taken_again()
    ensures { WrittenRunsAreTakenAgain }
{}
