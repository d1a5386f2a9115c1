//! What a run puts: from its words and files to the replies, or to the status that it ends with.
//!
//! `replies_to` reads the words, loads the files in their order, and answers the queries, tells their plans, or traces the
//! first; or it takes a trace again, tells of a generated graph, or makes the help text. What a run comes to is a function of
//! the words and files, `outcome_of` (specs/Outcome.antt): the work that is to be put, or the status. The replies that are
//! given do that work (`IsDoneBy`), whatever their way: the trace of a query is free in its events, which are those of a
//! legal run to its end (`IsTraceOf`, specs/Traces.antt). A status comes for no other cause than its own
//! (specs/Causes.antt), out of memory alone at any time.
//!
//! A step that reads files keeps to `ReadsFiles` (specs/Stores.antt): the store's files stay, what it ends with is caused by
//! the store where a store causes it, and a file that can't be read, or is missing, is one that the step reaches. Each step
//! says which files these are, in the order of its loads (specs/Reaching.antt), from one file's number up to `WordsReach`,
//! all that words come to.
#![tactic(auto)]

mod answer;
mod first;
mod job;
mod load;
mod replies;
mod setup;
mod traces;
mod words;

pub use replies::replies_to;
