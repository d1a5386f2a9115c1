//! A gate at which two workers meet, for tests.
use crate::Gate;
use std::sync::atomic::{AtomicBool, Ordering};

/// How often a worker looks for the other one before it goes on alone.
const LOOKS: u32 = 50_000_000;

/// A gate at which two workers meet, for tests that they run at the same time.
///
/// On its first turn each of the two raises its flag and looks for the other's, at most 50,000,000 times. So they don't
/// meet in any order of turns on one thread. Every other turn, and every other worker, passes at once.
#[derive(Drop)]
pub struct HoldGate {
    first: Flag,
    second: Flag,
}

#[derive(Drop)]
struct Flag {
    worker: u32,
    raised: AtomicBool,
    /// Whether this worker saw the other's flag.
    saw: AtomicBool,
}

impl HoldGate {
    /// A gate for the workers of these two numbers, which haven't met.
    pub fn new(first: u32, second: u32) -> HoldGate {
        HoldGate {
            first: Flag::new(first),
            second: Flag::new(second),
        }
    }

    /// Whether each of the two saw the other's flag.
    pub fn met(&self) -> bool {
        self.first.saw.load(Ordering::SeqCst) && self.second.saw.load(Ordering::SeqCst)
    }
}

impl Gate for HoldGate {
    fn pass(&self, worker: u32, turn: u64) {
        if turn > 0 {
            return;
        }
        if worker == self.first.worker {
            self.first.look_for(&self.second);
        } else if worker == self.second.worker {
            self.second.look_for(&self.first);
        }
    }
}

impl Flag {
    fn new(worker: u32) -> Flag {
        Flag {
            worker,
            raised: AtomicBool::new(false),
            saw: AtomicBool::new(false),
        }
    }

    /// Raises the flag, and looks for the other.
    fn look_for(&self, other: &Flag) {
        self.raised.store(true, Ordering::SeqCst);
        for _ in 0..LOOKS {
            if other.raised.load(Ordering::SeqCst) {
                self.saw.store(true, Ordering::SeqCst);
                return;
            }
        }
    }
}
