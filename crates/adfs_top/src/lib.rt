//! The top call: all that the program does, over a store and a sink that it is handed.
//!
//! `adfs_run_serial` asks `run_replies` what is to be put, and puts it. What a run comes to is a function of the words and
//! files, `outcome_of` of that crate: a graph and a file of queries to be answered, planned or traced, a trace to be taken
//! again, a graph that was generated, the help text, or the status that the run ends with. What each query is answered is a
//! definition of the crate `query_replies`, and no loop stands in it.
//!
//! Where the store tells its files and the sink its pieces, the call puts exactly those replies on `Done` and
//! `SomeRefused`, each by a put of its own and none empty; on `WriteFault` some first ones whole and a front of the next;
//! and nothing on any other status (specs/Puts.antt). A status comes for no other cause than its own
//! (run_replies/specs/Causes.antt): `Usage`, `NotBuilt`, `TableFault`, `OwnerFault`, `Missing` and `Limit` exactly by
//! `outcome_of`, `SomeRefused` exactly where a query is refused, `ReplayRefused` exactly where the trace can't be taken
//! again, with its line, code and guard; a read or write fault only where the store's or the sink's count of faults rose in
//! the call. A read fault names a file that was to be loaded (`WordsReach`, run_replies/specs/Reaching.antt): the loads go in
//! their order, and where the files are told, all those before it go well. `gen` and `help` read nothing. Out of memory alone
//! may come at any time. The store's files stay.
#![tactic(auto)]

mod put;
mod top;

pub use run_status::Status;
pub use top::adfs_run_serial;
