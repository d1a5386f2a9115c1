//! All workers and what they share, as plain data, and one step for each event.
//!
//! A `World` is seen as its workers, in the order of their numbers, and what they share. `World::enabled` gives the
//! first guard of an event that fails, and `World::step` makes the event's change where all hold: the new world is
//! that of `Step` (specs/Step.antt), whichever worker moves, in whatever order. Memory can run out only for a row, and
//! then nothing is changed. Nothing here waits, searches or knows a query, and a step costs the same however many
//! machines, workers and stages there are.
//!
//! A world is always sound (`Sound`, specs/Sound.antt). What every step keeps:
//! - `used`: the credits that are taken for a sender, stage and target are those of its messages on their way, and those
//!   of the buffers that are open, under a message frame, or just before or after one of these.
//! - `flying`: a message is on its way while it is in an inbox, or in the hand of its sender or its receiver.
//! - `limits`: no more credits are taken than the shape allows.
//! - `own`: on each stack stages rise, and a frame is a root frame at the bottom of an enrolled worker's stack, a
//!   message frame, or the child of the frame below it. At most one buffer is open for each stage and machine, and it
//!   isn't empty. A credit in hand is for the waiting child of the top, for which no buffer is open. All stages and
//!   machines that are named exist, each buffer has the shape's size and its sender as home, and a message in hand or
//!   under a frame is of the worker's own machine, and its stage above what lies below it.
//! - `pools`: no buffer is made or lost. Those in a machine's pool and those elsewhere are as many as at the start.
//! - `enrolled`, `retired`: the enrolled workers of a machine are counted, and who has retired has left no root.
//! - `messages`: a message in an inbox is of that machine and stage.
//! - `cursors`, `claimed`: no cursor is past the roots, and the later roots of a root frame are claimed.
//! - `closed`, `marks`: nothing of a closed stage is left, and the marks of the stage that closes next are of words that
//!   are 0. So a closed stage is never reached again (`World::closed`).
//! - `tables`, `number_of_workers`, `placed`: each table has its size, no more stages are closed than there are, and each
//!   worker has its number, its machine and the shape of all.
#![tactic(auto)]

mod events;
mod family;
mod gather;
mod gauge;
mod guards;
pub mod laws;
mod stepped;
mod world;

pub use dfs_worker::{Event, Guard};
pub use gauge::Gauge;
pub use guards::worker_of;
pub use stepped::Stepped;
pub use world::World;
