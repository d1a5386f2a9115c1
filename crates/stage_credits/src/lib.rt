//! The counters that all workers of a run share: credits, claims of roots, and closed stages.
//!
//! A buffer leaves its machine on a credit of its stage and target, and the credit comes back when the receiver has
//! emptied it. Workers claim the roots of their machine in chunks, and once all roots are claimed and a stage's work
//! is done everywhere, the stage is closed. All of it stands in words that change in single atomic steps, each of them
//! by any worker at any time. No lock is taken, no call waits and none but `open` takes memory.
//!
//! Contracts see the counters as `Counters`, and the seat of a worker, through which it steps, as `Seated`
//! (specs/Seats.antt). A seat's view says what its worker has: credits of open buffers and of messages in work, chunks
//! of roots, marks on words that it saw at 0, and every step that it made. Whatever the schedule, between any two steps
//! the words and the views of all seats are sound (`IsSound`, specs/Rule.antt):
//!
//! 1. a `used` word counts the credits under way and those that the views hold, and is within its limit;
//! 2. a number of enrolled workers counts the views that are enrolled;
//! 3. each root below a cursor is in one chunk of one view, and where a worker has retired all roots of its machine are;
//! 4. of a closed stage no credit is used, and once one is closed nobody is enrolled;
//! 5. what a view saw closed is closed, and the words that it marked stay 0.
//!
//! Each call tries once: it loads, and exchanges at most once. Its clause `told` says what the answer means for the view
//! (specs/Answers.antt), and so when each answer comes. `closed` never falls, as far as any seat can tell. `settle`
//! takes all seats back and gives the cursors: the chunks of the seats are exactly the roots below them. That a call ever
//! succeeds is not promised where other workers step at the same time.
#![tactic(auto)]

mod calls;
mod credits;
mod layout;
mod opening;
mod rule;
mod settling;
mod setup;
mod steps;
mod view;

pub use credits::{CreditSeat, Credits};
pub use setup::Setup;
pub use view::{Chunk, Note, View, Way};
