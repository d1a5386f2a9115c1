//! The events: one step of one worker each.

/// One step of one worker, by the numbers that a trace writes. The worker is `w`.
#[derive(Clone, Copy, Debug, PartialEq, Eq)]
pub enum Event {
    /// The next chunk of the machine's roots becomes its first frame.
    Claim { w: u32 },
    /// It ends its claims.
    Retire { w: u32 },
    /// The top gives its next answer.
    Advance { w: u32 },
    /// The waiting child becomes the top.
    Descend { w: u32 },
    /// The waiting child goes into the buffer that is open for it.
    Append { w: u32 },
    /// A credit for a buffer for the waiting child.
    Charge { w: u32 },
    /// The buffer for which a credit is in hand is opened with the waiting child.
    Fetch { w: u32 },
    /// The open buffer for that stage and machine is counted as on its way.
    Post { w: u32, stage: u32, to: u32 },
    /// The message in hand goes into its inbox.
    Push { w: u32 },
    /// The first message of an inbox of its machine comes into its hand.
    Pop { w: u32, stage: u32 },
    /// The message in hand is no longer on its way, and becomes the top.
    Pick { w: u32 },
    /// The buffer of a message frame that is over goes back to its pool.
    Restore { w: u32 },
    /// The credit of that buffer goes back.
    Discharge { w: u32 },
    /// A word of the stage that closes was seen at 0: the machine `a` at stage 0, from `a` to `b` at a later one.
    Mark { w: u32, a: u32, b: u32 },
    /// The stage whose words are all marked is closed.
    Close { w: u32 },
}
