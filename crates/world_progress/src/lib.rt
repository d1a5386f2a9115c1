//! No state of the core is stuck, and a run of it comes to its end.
//!
//! Until all stages are closed some event of some worker is enabled (`laws::never_stuck`): a hand that isn't free has its
//! step, since the pool has a buffer for each credit in hand and the inbox room for each message; and where all tops wait
//! for credits, those of the latest stage have a message that a worker may take. It holds in every sound world, however
//! it was reached.
//!
//! So `some_event` and `policy_event` find an event exactly where not all stages are closed. `run_to_end` makes events
//! until all are: each leaves less work, so it makes at most as many as the work that was left, and its `Steps` count
//! them. A worker goes on as long as it can, and no event is looked for elsewhere while it does. `rows_of_tree` is a run
//! from the start to its end: its rows are the leaves of the tree, as a bag. Only a row may find no memory, and the list
//! into which the rows are put at the end.
#![tactic(auto)]

mod attempts;
mod choice;
pub mod laws;
mod run;
mod steps;

pub use choice::next_event;
pub use run::{policy_event, rows_of_tree, run_to_end, some_event};
pub use steps::Steps;
