//! Matches on their way: contexts, the frames, buffers and messages that hold them, and the tree that they climb.
//!
//! A `Context` is a match of a pattern, or a part of one, in 40 words: which captured values are null, the
//! numbers of the elements for which the query's variables stand, and the captured values
//! (specs/Words.antt says which word is what). It has no memory of its own and can be copied as it stands.
//!
//! A `Buffer` has room for a fixed number of contexts and belongs to a machine; contracts see it as a `Batch`. It
//! never holds more than its size, and takes no memory once it is made. `Message` and `Frame` are plain.
//!
//! `Expand` is a staged tree, as a query's plan is one, without a word of the query: for each machine, stage,
//! context and place it has a list of answers still ahead (`Tree`, specs/Tree.antt), and `next` takes the first; `seek` passes over
//! those that say nothing (`Passes`, specs/Passes.antt).
//! A child is of the following stage, and a row comes at the last stage alone (`IsTree`). What a context weighs
//! (`weight`, specs/Weight.antt) is what all answers below it weigh; with a scale that weighs rows alone that is
//! the bag of its leaves. The laws of bags and weights stand in `laws`.
#![tactic(auto)]

mod buffer;
mod context;
mod expand;
mod frame;
pub mod laws;
mod message;

pub use buffer::Buffer;
pub use context::Context;
pub use expand::{Expand, Found, Next};
pub use frame::{Frame, Rest};
pub use message::Message;

#[cfg(test)]
mod tests;
