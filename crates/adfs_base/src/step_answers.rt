//! What each step on shared counters answers.

/// A word that must be 0 before its stage can close.
#[derive(Clone, Copy, Debug, PartialEq, Eq)]
pub enum Word {
    /// The number of a machine's workers that may still claim roots; a word of stage 0.
    Enrolled(u32),
    /// The number of buffers that a machine has under way to a stage of another machine, or of its own; a word of
    /// that stage.
    Used { from: u32, stage: u32, to: u32 },
}

/// What a claim of roots answers.
#[derive(Clone, Copy, Debug, PartialEq, Eq)]
pub enum Claimed {
    /// The roots from the first number on, up to and without the second.
    Chunk(u64, u64),
    /// The cursor stood at this number, the end: no root is left.
    Exhausted(u64),
    /// The exchange was tried from the first value and found the second: another step came between.
    Moved(u64, u64),
}

/// What a charge answers.
#[derive(Clone, Copy, Debug, PartialEq, Eq)]
pub enum Charge {
    /// A credit was taken.
    Charged,
    /// As many as this are taken: the limit.
    Full(u64),
    /// The exchange was tried from the first value and found the second: another step came between.
    Moved(u64, u64),
}

/// What taking a message's credit into work answers.
#[derive(Clone, Copy, Debug, PartialEq, Eq)]
pub enum Pick {
    /// The credit is in work.
    Picked,
    /// This many messages, none, were under way.
    NoneFlying(u64),
    /// The exchange was tried from the first value and found the second: another step came between.
    Moved(u64, u64),
}

/// What marking a word answers.
#[derive(Clone, Copy, Debug, PartialEq, Eq)]
pub enum Marked {
    /// The word was 0 and is marked.
    Zero,
    /// The word held this number, above 0.
    Busy(u64),
}

/// What closing a stage answers.
#[derive(Clone, Copy, Debug, PartialEq, Eq)]
pub enum Closing {
    /// The stage is closed.
    Closed,
    /// The exchange was tried from the first value and found the second: another step came between.
    Moved(u64, u64),
}
