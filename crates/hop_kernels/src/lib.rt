//! What a worker does with a context of a stage: it takes the next answer, on the part of one machine.
//!
//! `Kernel::next` takes an answer after the other of a frame (`ahead` of the crate `plan_tree`). At its first place
//! a context arrives at its vertex: the label is tested, then the parts of the condition that are whole now, and
//! the captures are written. Then each entry of the list along which the hop goes is one place. The other end of
//! an entry, its label and the parts of the condition that its edge makes whole are looked at before the child
//! is made. It answers for any words: where one that it needs stands for nothing, there is no answer.
//! `PlanTree::seek` passes over the entries of which nothing comes in one go, and says place by place what `next`
//! would have said (`Passes` of `match_context`). No call takes memory.
//!
//! `PlanTree` is a plan over the parts of all machines, and a staged tree (`Expand`): exactly `tree_of` of the
//! crate `plan_tree`, whose law says that the leaves are the matches.
#![tactic(auto)]

mod arrival;
mod ground;
mod hops;
mod kernel;
mod labels;
pub mod laws;
mod look;
mod seek;
mod spot;
mod tree;
mod words;

pub use kernel::Kernel;
pub use tree::PlanTree;
