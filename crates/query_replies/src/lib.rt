//! What a file of queries is answered.
//!
//! The queries of a file are answered one after the other, each by its reply or by the line that tells why it
//! isn't answered: its text has no tree, its tree means nothing, or a context has no room for its matches
//! (`AreAnswers`, specs/Replies.antt). `read_query` tells a query with its plan from a refusal. What is then asked of it
//! (`Asked`) is its answer over a graph, which an `Engine` of the crate `serial_run` finds on the graph's parts; or its
//! plan, which rests on no graph. The answer in a reply is that of the definition, `answer_of` of the crate
//! `pgql_meaning`. Text literals get numbers among the texts of the graph, so the texts grow from query to query, and a
//! graph goes on to mean what it meant.
#![tactic(auto)]

mod answers;
mod faults;
pub mod laws;
mod reading;

pub use answers::{Asked, Replies, answer_queries, piece_of};
pub use reading::{Verdict, read_query};
