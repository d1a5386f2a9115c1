//! What a seat knows, for contracts alone.
use crate::setup::Setup;
use std::collections::LinkedList;

/// How a step met its word.
pub enum Way {
    /// It loaded the word.
    Load,
    /// It added to the word or subtracted from it.
    Fetch,
    /// It exchanged the word, which held the number expected.
    Held,
    /// It would have exchanged the word, and found another number than the one expected.
    Failed,
}

/// One step of a seat: its word, the number that it found there, and how.
pub struct Note {
    pub word: u64,
    pub found: u64,
    pub way: Way,
}

/// Roots of a machine, from the first one up to and without the end.
pub struct Chunk {
    pub machine: u32,
    pub first: u64,
    pub end: u64,
}

/// What a seat knows, which contracts alone see: no value of it is made.
///
/// A unit goes by the number of its `used` word, and a machine or a unit stands in a list as often as the view has it.
pub struct View {
    pub setup: Setup,
    /// The machine of each worker that the view stands for.
    pub workers: LinkedList<u32>,
    /// The machines of those workers that are still enrolled.
    pub enrolled: LinkedList<u32>,
    /// The units of credits that were charged and not posted yet.
    pub open_units: LinkedList<u64>,
    /// The units of messages that were picked and not discharged yet.
    pub work_units: LinkedList<u64>,
    pub chunks: LinkedList<Chunk>,
    /// The machines whose cursor was seen at the end.
    pub ended: LinkedList<u32>,
    /// The greatest `closed` that was seen.
    pub closed: u32,
    /// The words of that stage that were seen at 0.
    pub marks: LinkedList<u64>,
    /// Every step of the seat, the last one first.
    pub trail: LinkedList<Note>,
}
