//! What holds of all graphs and all owners.
ghost use Rattle.partition.specs.Laws.{PartsAreTheGraph};

/// Together the parts are the graph: each vertex stands once in the part of its machine and in no other, and each
/// edge once in the list of its source and once in that of its target, as the graph has it, and nothing else in either.
pub fn parts_are_the_graph()
    ensures { PartsAreTheGraph }
{}
