//! What a worker holds between the two steps of one move.
use match_context::Message;

/// What a worker is in the midst of. Every step between two calls on what is shared leaves something in its hand.
#[derive(Drop)]
pub enum Hand {
    /// Nothing.
    Free,
    /// A credit was taken for a buffer to that stage and machine, for the top's waiting child.
    Charged { stage: u32, to: u32 },
    /// A message is counted as on its way, and not in its inbox yet.
    Posted(Message),
    /// A message is out of its inbox, and still counted as on its way.
    Popped(Message),
    /// A buffer of that sender and stage is back in its pool, and its credit still in use.
    Emptied { from: u32, stage: u32 },
}
