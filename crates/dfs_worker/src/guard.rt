//! What an event may lack.

/// What an event may lack, in the order of the numbers 1 to 17.
#[derive(Clone, Copy, Debug, PartialEq, Eq)]
pub enum Guard {
    /// There is no such worker.
    Worker,
    /// Its hand is not as the event needs it; free, for most.
    Hand,
    /// Its stack is empty where it must have a top, or has a top where it must be empty.
    Stack,
    /// The top waits with a child where it must not, or without one where it must.
    Child,
    /// The top is over where it must not be, or is not a message frame that is over.
    Over,
    /// The waiting child is another machine's.
    Local,
    /// No open buffer for the waiting child has room.
    Room,
    /// A buffer is open where none must be, or none is open.
    Open,
    /// All credits of that stage and machine are in use.
    Limit,
    /// The worker has retired.
    Enrolled,
    /// No root of the machine is unclaimed, or, where it would retire, one is.
    Roots,
    /// The machine's pool is empty.
    Pool,
    /// The inbox is full, or empty where a message is to come out of it.
    Inbox,
    /// The stage is not above that of the top.
    Above,
    /// The word doesn't exist, is not 0, or is marked already.
    Word,
    /// Not all words of the stage are marked, or no stage is left.
    Marks,
    /// No message of that sender and stage is on its way to the machine.
    Flying,
}
