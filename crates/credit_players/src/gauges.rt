//! Counts of the players' own, beside the counters that are tested.
ghost use Rattle.std.specs.Prelude.{◌<◌};

use crate::player::Buffer;
use std::sync::atomic::{AtomicU64, Ordering};

/// Counts of the players' own, beside the counters that are tested: each counts a credit once it is charged and until
/// it is discharged, and a message before it is posted and until it was picked.
#[derive(Drop)]
pub struct Gauges {
    limit: u64,
    used: [AtomicU64; 8],
    flying: [AtomicU64; 8],
    faults: AtomicU64,
    filled: AtomicU64,
}

impl Gauges {
    pub fn new(limit: u64) -> Gauges {
        Gauges {
            limit,
            used: zeros(),
            flying: zeros(),
            faults: AtomicU64::new(0),
            filled: AtomicU64::new(0),
        }
    }

    /// A credit was charged. More than the limit are a fault.
    pub fn charged(&self, from: u32, to: Buffer) {
        let before = self.used[place(from, to.stage, to.machine)].fetch_add(1, Ordering::SeqCst);
        if before >= self.limit {
            self.fault();
        }
    }

    /// A credit is about to be discharged.
    pub fn discharges(&self, from: Buffer, to: u32) {
        self.used[place(from.machine, from.stage, to)].fetch_sub(1, Ordering::SeqCst);
    }

    /// A message is about to be posted.
    pub fn posts(&self, from: u32, to: Buffer) {
        self.flying[place(from, to.stage, to.machine)].fetch_add(1, Ordering::SeqCst);
    }

    /// A message was picked. One that nobody posted is a fault.
    pub fn picked(&self, from: Buffer, to: u32) {
        let before = self.flying[place(from.machine, from.stage, to)].fetch_sub(
            1,
            Ordering::SeqCst,
        );
        if before == 0 {
            self.fault();
        }
    }

    /// A charge was refused at this number of used credits. Another one than the limit is a fault.
    pub fn refused(&self, seen: u64) {
        if seen != self.limit {
            self.fault();
        }
    }

    /// A credit could be charged once all was given back.
    pub fn fills(&self) {
        self.filled.fetch_add(1, Ordering::SeqCst);
    }

    pub fn filled(&self) -> u64 {
        self.filled.load(Ordering::SeqCst)
    }

    pub fn faults(&self) -> u64 {
        self.faults.load(Ordering::SeqCst)
    }

    /// The credits in use and the messages under way.
    pub fn left(&self) -> u64 {
        let mut left = 0u64;
        for place in 0..8 {
            let used = self.used[place].load(Ordering::SeqCst);
            left = left
                .saturating_add(used)
                .saturating_add(self.flying[place].load(Ordering::SeqCst));
        }
        left
    }

    fn fault(&self) {
        self.faults.fetch_add(1, Ordering::SeqCst);
    }
}

fn zeros() -> [AtomicU64; 8] {
    [
        AtomicU64::new(0),
        AtomicU64::new(0),
        AtomicU64::new(0),
        AtomicU64::new(0),
        AtomicU64::new(0),
        AtomicU64::new(0),
        AtomicU64::new(0),
        AtomicU64::new(0),
    ]
}

/// A place of its own for each sender, stage 1 or 2 and target, of two machines.
fn place(from: u32, stage: u32, to: u32) -> usize
    ensures { result < 8 }
{
    let row = stage.wrapping_mul(4).wrapping_add(from.wrapping_mul(2));
    row.wrapping_add(to) as usize % 8
}
