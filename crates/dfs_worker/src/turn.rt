//! What a turn comes to.
use crate::event::Event;

/// What a turn answers.
#[derive(Clone, Copy, Debug, PartialEq, Eq)]
pub enum Turn {
    /// The worker made its part of this event, and so did what the workers share.
    Did(Event),
    /// Nothing that its state allows was ready.
    Idle,
    /// A row found no memory. The worker is as before.
    NoMemory,
}
