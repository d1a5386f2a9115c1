//! One worker of one machine: what it holds, and what each event does to it.
//!
//! A `Worker` is seen as a `State` (specs/State.antt): a stack of frames, the top first, a hand, the buffers that are
//! open, the rows, whether it still claims roots, and its marks. What is between two calls on what the workers share is
//! in its hand, so that each buffer and each credit has one place at every moment:
//!
//! ```text
//!   Free --charge---> Charged --fetch-----> Free     a credit, then the buffer that it is for
//!   Free --post-----> Posted  --push------> Free     the counter, then the message
//!   Free --pop------> Popped  --pick------> Free     the message, then the counter
//!   Free --restore--> Emptied --discharge-> Free     the buffer, then its credit
//! ```
//!
//! Each worker is `IsWorker` (specs/Sound.antt): stages rise on its stack, each frame stands on the stage before it, is a
//! root frame at the bottom or a message frame; at most one buffer is open for each stage and machine, and it isn't
//! empty; a credit in hand is for the waiting child; messages and marks are of stages and machines that exist.
//!
//! `Worker::guard` names the first guard of an event that fails on the worker alone (specs/Guards.antt). A method for
//! each event makes the worker's own part, exactly as specs/Own.antt has it, in place. What an event does to the
//! buffers and credits that the worker holds is one `Census`, and what it does to its rows and its work one weight.
//!
//! `Worker::turn` makes one step over any `Fabric`: of what its state lets it try, in the order of `bfs_budget::actions`, begun
//! where its policy says and gone round once, the first that is ready (`TookTurn`, specs/Turn.antt). It is idle only where
//! each of these was barred by the worker's own guards or excused by the fabric; over plain tables exactly where none of
//! them is enabled (`laws`). What it asks for, `Fits`, holds again
//! after it. Only `new` and a row take memory.
#![tactic(auto)]

mod attempts;
mod closing;
mod event;
mod frames;
mod guard;
mod guards;
mod hand;
pub mod laws;
mod looks;
mod outbox;
mod stack;
mod starts;
mod tries;
mod turn;
mod turns;
mod worker;

pub use event::Event;
pub use guard::Guard;
pub use hand::Hand;
pub use turn::Turn;
pub use worker::Worker;
