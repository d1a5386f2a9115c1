//! Which worker is looked at first.
ghost use Rattle.std.specs.Prelude.{◌<◌};

use bfs_budget::{Look, Policy, choice};

/// The fewest events after which a worker is drawn again.
const FEWEST: u32 = 4;

/// The most.
const MOST: u32 = 4096;

/// The worker that is looked at first, and how many events later one is drawn again.
///
/// A worker goes on for a few events, and then one of all workers is drawn. Where that one had nothing to do, twice as many
/// events pass before the next draw, so that looking at idle workers costs little where few have work.
#[derive(Drop)]
pub struct Turns {
    worker: u32,
    left: u32,
    pause: u32,
    drawn: bool,
}

impl Turns {
    /// Begins with a draw.
    pub fn new() -> Turns {
        Turns {
            worker: 0,
            left: 0,
            pause: FEWEST,
            drawn: false,
        }
    }

    /// The worker to look at first, of so many.
    pub fn first<P: Policy>(&mut self, policy: &mut P, workers: u32) -> u32
        requires { 0 < workers }
        ensures { result < workers }
    {
        if self.left == 0 {
            self.drawn = true;
            self.worker = drawn_worker(policy, workers);
        } else {
            self.left -= 1;
        }
        if self.worker < workers {
            self.worker
        } else {
            0
        }
    }

    /// The event after that look was this worker's.
    pub fn took(&mut self, worker: u32) {
        if self.drawn {
            self.pause = pause_after(self.pause, self.worker == worker);
            self.left = self.pause;
            self.drawn = false;
        }
        self.worker = worker;
    }
}

// A worker that the policy chooses, of so many.
fn drawn_worker<P: Policy>(policy: &mut P, workers: u32) -> u32
    requires { 0 < workers }
    ensures { result < workers }
{
    let look = Look {
        stage: 0,
        local: false,
        count: workers,
    };
    choice(policy, &look)
}

// How many events pass before the next draw, where the one that was drawn had something to do or not.
fn pause_after(pause: u32, was_busy: bool) -> u32 {
    if was_busy {
        FEWEST
    } else {
        pause.saturating_mul(2).min(MOST)
    }
}
