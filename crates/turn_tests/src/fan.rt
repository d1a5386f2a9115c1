//! Trees as the tests climb them.
ghost use Rattle.turn_tests.specs.Fans.{fan_tree};
ghost use Rattle.turn_tests.specs.FanLaws.{fan-lawful};

use match_context::{Context, Expand, Frame, Next};

/// A tree in which each context first has so many places of which nothing comes, and then so many children, dealt out over the
/// machines in turn, or at the last stage a row. All contexts are the root.
#[derive(Clone, Copy)]
pub struct Fan {
    pub stages: u32,
    pub machines: u32,
    /// The roots of each machine.
    pub roots: u64,
    pub skips: u32,
    pub children: u32,
    pub root: Context,
}

impl Expand for Fan {
    ghost tree = { fan_tree };

    ghost lawful = { fan-lawful };

    fn stages(&self) -> u32 {
        self.stages
    }

    fn machines(&self) -> u32 {
        self.machines
    }

    fn roots(&self, machine: u32) -> u64 {
        let _ = machine;
        self.roots
    }

    fn root(&self, machine: u32, place: u64) -> Context {
        let _ = (machine, place);
        self.root
    }

    fn next(&self, machine: u32, frame: &mut Frame) -> Next {
        let _ = machine;
        if frame.place < u64::from(self.skips) {
            frame.place += 1;
            return Next::Skip;
        }
        let place = frame.place - u64::from(self.skips);
        if frame.stage + 1 < self.stages {
            if place >= u64::from(self.children) || self.machines == 0 {
                return Next::End;
            }
            let to = (place % u64::from(self.machines)) as u32;
            frame.place += 1;
            Next::Child(frame.context, to)
        } else if place == 0 {
            frame.place += 1;
            Next::Row(frame.context)
        } else {
            Next::End
        }
    }
}
