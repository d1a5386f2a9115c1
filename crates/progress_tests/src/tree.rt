//! A tree whose shape a test chooses.
ghost use Rattle.std.specs.Prelude.{◌≡◌};
ghost use Rattle.progress_tests.specs.Fans.{fan_tree};
ghost use Rattle.progress_tests.specs.Laws.{fan_is_tree};

use match_context::{Context, Expand, Frame, Next};

/// A tree in which each context before the last stage has so many places. The first of each `skips + 1` of them has a child,
/// dealt out over the machines in turn, and the others nothing. A context of the last stage is a row.
///
/// A context says how one comes to it: word 0 its root's machine, word 1 the root, and the word of each stage from
/// word 2 on the place from which its child came. So no two rows are the same.
#[derive(Clone, Copy)]
pub struct Fan {
    pub stages: u32,
    pub machines: u32,
    /// The roots of machine 0.
    pub first: u64,
    /// The roots of each other machine.
    pub others: u64,
    pub places: u64,
    pub skips: u32,
    /// A context that says nothing.
    pub base: Context,
}

impl Expand for Fan {
    ghost tree = { fan_tree };

    ghost lawful = { fan_is_tree };

    fn stages(&self) -> u32 {
        self.stages
    }

    fn machines(&self) -> u32 {
        self.machines
    }

    fn roots(&self, machine: u32) -> u64 {
        if machine == 0 {
            self.first
        } else {
            self.others
        }
    }

    fn root(&self, machine: u32, place: u64) -> Context {
        let mut context = self.base;
        context.words[0] = u64::from(machine);
        context.words[1] = place;
        context
    }

    fn next(&self, machine: u32, frame: &mut Frame) -> Next {
        let _ = machine;
        let place = frame.place;
        if frame.stage < self.stages - 1 {
            if place >= self.places {
                return Next::End;
            }
            frame.place = place + 1;
            if place % (u64::from(self.skips) + 1) != 0 {
                return Next::Skip;
            }
            let mut child = frame.context;
            child.words[(frame.stage % 32 + 2) as usize] = place;
            Next::Child(child, (place % u64::from(self.machines)) as u32)
        } else if place == 0 {
            frame.place = 1;
            Next::Row(frame.context)
        } else {
            Next::End
        }
    }
}
