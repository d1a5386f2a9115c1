//! What `gen` tells: the answer of a fixed query over a graph that follows from a seed, in brief.
//!
//! `generated_reply` makes the graph of the seed (`generated_graph`), splits it, and answers the query by the core. What it tells is a function of the seed and the two numbers (`Summarizes`,
//! specs/Summary.antt): how many vertices, edges and rows there are, and the first and the last row. The shape of the run
//! changes nothing, and no seed is refused.
#![tactic(auto)]

mod reply;
mod summary;

pub use reply::generated_reply;
