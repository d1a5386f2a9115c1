//! A tree whose shape the test chooses.
ghost use Rattle.std.specs.Prelude.{◌≡◌};
ghost use Rattle.core_tests.specs.Fans.{fan_tree};
ghost use Rattle.core_tests.specs.Laws.{fan_is_tree};

use adfs_base::CONTEXT_WORDS;
use match_context::{Context, Expand, Frame, Next};

/// A tree in which each context has so many places. Every third place gives nothing, and the others a child, dealt out
/// over the machines in turn. A context of the last stage is a row. All contexts are the root.
#[derive(Drop)]
pub struct Fan {
    pub stages: u32,
    pub machines: u32,
    /// The roots of each machine.
    pub roots: u64,
    pub children: u64,
    pub root: Context,
}

impl Fan {
    /// The fan with an empty root.
    pub fn new(stages: u32, machines: u32, roots: u64, children: u64) -> Fan
        ensures stages { result.stages ≡ stages }
        ensures machines { result.machines ≡ machines }
    {
        let root = Context {
            words: [0; CONTEXT_WORDS as usize],
        };
        Fan {
            stages,
            machines,
            roots,
            children,
            root,
        }
    }
}

impl Expand for Fan {
    ghost tree = { λ x. fan_tree (record { stages = x.stages; machines = x.machines; roots = x.roots; children = x.children; root = x.root }) };

    fn stages(&self) -> u32 {
        self.stages
    }

    fn machines(&self) -> u32 {
        self.machines
    }

    fn roots(&self, machine: u32) -> u64 {
        let _ = machine;
        self.roots
    }

    fn root(&self, machine: u32, place: u64) -> Context {
        let _ = (machine, place);
        self.root
    }

    fn next(&self, machine: u32, frame: &mut Frame) -> Next {
        let _ = machine;
        let place = frame.place;
        if frame.stage < self.stages - 1 {
            if place >= self.children {
                return Next::End;
            }
            frame.place = place + 1;
            if place % 3 == 2 {
                return Next::Skip;
            }
            Next::Child(frame.context, (place % u64::from(self.machines)) as u32)
        } else if place == 0 {
            frame.place = 1;
            Next::Row(frame.context)
        } else {
            Next::End
        }
    }

    ghost lawful = { λ x. fan_is_tree (record { stages = x.stages; machines = x.machines; roots = x.roots; children = x.children; root = x.root }) };
}
