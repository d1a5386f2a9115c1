//! What a worker tries next, and who says where it begins.
//!
//! A turn of a worker has a list of attempts (`actions`), and a policy that says at which of them to begin. The
//! list is a function of a few facts about the worker alone (`HandState`), in the order that spends least memory:
//! what is in hand first, then the top of the stack, and only then what widens the search.
//! `specs/Tries.antt` has the order, and `actions` gives exactly that.
//!
//! A `Policy` is seen as the answers that it gives to each look. `choice` takes an answer modulo the number of
//! places, so that whatever a policy answers names a place of the list. `Deepest` always begins at the first, and
//! `Seeded` goes by numbers that follow from one number. Nothing here takes memory.
#![tactic(auto)]

mod policy;
mod seeded;
mod tries;

pub use policy::{Deepest, Look, Policy, choice};
pub use seeded::Seeded;
pub use tries::{Attempt, HandState, MOST_TRIES, Tries, actions};
