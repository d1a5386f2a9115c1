//! Many turns in a row.
ghost use Rattle.std.specs.Prelude.{◌≡◌};
ghost use Rattle.dfs_worker.specs.Turn.{Fits};
ghost use Rattle.turn_tests.specs.Fans.{fan_tree};

use crate::fan::Fan;
use bfs_budget::Policy;
use dfs_worker::{Event, Turn, Worker};
use fabric::Fabric;

/// What many turns made.
#[derive(Clone, Copy, Debug, PartialEq, Eq)]
pub struct Tally {
    /// Answers of tops.
    pub answers: u32,
    /// Children that were taken on: as the next top, or in a buffer.
    pub children: u32,
    pub charges: u32,
    pub discharges: u32,
    pub closes: u32,
}

impl Tally {
    pub fn new() -> Tally {
        Tally {
            answers: 0,
            children: 0,
            charges: 0,
            discharges: 0,
            closes: 0,
        }
    }

    /// Counts what a turn made.
    fn count(&mut self, event: Event) {
        let number = match event {
            Event::Advance { .. } => &mut self.answers,
            Event::Descend { .. } | Event::Append { .. } | Event::Fetch { .. } => {
                &mut self.children
            }
            Event::Charge { .. } => &mut self.charges,
            Event::Discharge { .. } => &mut self.discharges,
            Event::Close { .. } => &mut self.closes,
            _ => return,
        };
        *number = number.saturating_add(1);
    }
}

/// Takes so many turns, or fewer where one of them did nothing or found no memory. Answers the last of them.
pub fn climb<F: Fabric, P: Policy>(
    worker: &mut Worker,
    fabric: &mut F,
    fan: &Fan,
    policy: &mut P,
    most: u32,
    tally: &mut Tally,
) -> Turn
    requires { Fits F.agrees F.shape F.roots (fan_tree fan.now) worker.old fabric.old }
    ensures { Fits F.agrees F.shape F.roots (fan_tree fan.now) worker.new fabric.new }
{
    let mut last = Turn::Idle;
    for _ in 0..most {
        last = worker.turn(fabric, fan, policy);
        match last {
            Turn::Did(event) => tally.count(event),
            _ => return last,
        }
    }
    last
}
