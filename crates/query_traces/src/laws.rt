//! What a trace is good for.
ghost use Rattle.query_traces.specs.Again.{TracesAreTakenAgain};

/// A trace is taken again: its header is read as it was written, and its events lead to the end of the run.
pub fn traces_are_taken_again()
    ensures { TracesAreTakenAgain }
{}
