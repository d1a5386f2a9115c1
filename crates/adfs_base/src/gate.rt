//! The gates that running workers pass.

/// What a running worker passes before each of its turns.
///
/// Tests hold workers at a gate, to see that they run at the same time. A worker's turns are numbered from 0. A
/// call promises only that it returns.
pub trait Gate {
    /// Lets the worker into this turn.
    fn pass(&self, worker: u32, turn: u64);
}

/// A gate that holds nobody.
#[derive(Clone, Copy, Debug)]
pub struct OpenGate;

impl Gate for OpenGate {
    fn pass(&self, _worker: u32, _turn: u64) {}
}
