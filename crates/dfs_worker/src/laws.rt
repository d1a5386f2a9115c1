//! The law of turns over plain tables.
ghost use Rattle.dfs_worker.specs.Plainly.{PlainTurnsTakeTheFirst};

/// Over plain tables a turn is the first of its tries that is enabled, and idle exactly where none is.
pub fn plain_turns_take_the_first()
    ensures { PlainTurnsTakeTheFirst }
{}
