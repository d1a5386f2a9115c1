//! Which words of the stage that closes a worker has seen at 0.
//!
//! A stage is closed once nothing can reach it any more. A worker shows that word by word: it marks each word of the
//! stage that it has seen at 0, and where all are marked the stage may be closed. Stage 0 has the numbers of enrolled
//! workers of all machines, and each later stage the credits in use between all pairs of machines.
//!
//! A `Closer` is seen as `Marks`: the stage, and for each of its words, in their order, whether it is marked
//! (`specs/Marks.antt`). Marks count for the stage at which they were made alone, so `moved` to another stage drops
//! them all. `next_word` and `ready` go by these marks and nothing else. Nothing here takes memory.
#![tactic(auto)]

mod closer;

pub use closer::Closer;
