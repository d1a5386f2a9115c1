//! From matches to the text of a reply.
//!
//! `collect` gives the rows of an answer from contexts, which may come in any order: where they stand for the
//! matches of a query over a graph, the rows are exactly its answer. `put_reply` and `put_refusal` write what
//! a query is answered (`reply_text`, specs/Replies.antt, and `refusal_text`, specs/Refusals.antt), `put_row` the line of a row.
#![tactic(auto)]

mod refusal;
mod reply;
mod rows;

pub use refusal::{Refusal, put_refusal};
pub use reply::{put_reply, put_row};
pub use rows::collect;
