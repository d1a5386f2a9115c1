//! What all workers share, and its plain form.
//!
//! Workers meet in a few counters, pools and inboxes: the credits that a machine has taken, by stage and target, and
//! how many of them have a message on its way; a cursor over each machine's roots; how many workers of each machine
//! are still enrolled; the stages that are closed; a pool of empty buffers for each machine; an inbox for each
//! machine and message stage. All of it is seen as a `Shared` (specs/Shared.antt).
//!
//! `PlainFabric` holds these as plain tables. Each of its calls says exactly what it answers and what it leaves
//! (specs/Calls.antt), and each table keeps its size. All room is taken by `new`, so no other call takes memory, and
//! none costs more where there are more machines, workers or stages. An inbox that doesn't exist is empty.
#![tactic(auto)]

mod as_fabric;
mod inbox;
mod plain;
mod pool;
mod shared;

pub use plain::PlainFabric;
pub use shared::Fabric;
