//! What it means that a vertex isn't joined with the first one.
ghost use Rattle.pattern_scope.specs.Laws.{NotJoinedIsApart};

/// A vertex is refused as not joined with the first one exactly where there is a set of variables that has the first
/// one, holds both ends of each edge or neither, and lacks that vertex.
pub fn not_joined_is_apart()
    ensures { NotJoinedIsApart }
{}
