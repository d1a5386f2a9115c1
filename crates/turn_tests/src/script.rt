//! A fabric that answers as it is told, and keeps the calls that it was asked.
ghost use Rattle.std.specs.Prelude.{◌≡◌, ◌<◌, ◌≤◌, ◌+◌, IfSome};
ghost use Rattle.adfs_base.specs.Shape.{IsShape};
ghost use Rattle.fabric.specs.Calls.{IsMessageOf, empty_buffer};
ghost use Rattle.fabric.specs.Fabric.{OnClaimed};
ghost use Rattle.turn_tests.specs.Scripts.{ScriptAgrees, ScriptDone, ScriptExcused, script_shape, script_roots};

use adfs_base::{Charge, Claimed, Closing, Marked, Pick, Shape, Word};
use fabric::Fabric;
use match_context::{Buffer, Context, Message};
use std::alloc::Global;
use std::marker::Model;

/// A call that was asked.
#[derive(Clone, Copy, Debug, PartialEq, Eq)]
pub enum Asked {
    Claim,
    Retire,
    Charge(u32, u32),
    Fetch,
    Post(u32, u32),
    Push(u32, u32),
    Pop(u32),
    Pick(u32, u32),
    Restore(u32),
    Discharge(u32, u32),
    Mark(u32, u32),
    Close,
    Look,
}

/// What is ready.
#[derive(Clone, Copy, Debug, PartialEq, Eq)]
pub struct Ready {
    /// A claim finds a chunk.
    pub chunk: bool,
    /// A claim finds the end.
    pub end: bool,
    pub charge: bool,
    pub fetch: bool,
    pub push: bool,
    /// The stage of which a message is there, 0 where none is.
    pub message: u32,
    /// How many contexts it has.
    pub items: u32,
    pub pick: bool,
    pub restore: bool,
    pub zero: bool,
    pub close: bool,
    /// What isn't ready moved under the call.
    pub moved: bool,
}

/// The fabric. A contract sees it as a `Stand`, which says nothing of when it is ready.
#[derive(Drop)]
pub struct Script {
    alloc: Global,
    shape: Shape,
    machine: u32,
    /// The machine from which messages come.
    sender: u32,
    roots: u64,
    closed: u32,
    context: Context,
    ready: Ready,
    asked: Vec<Asked>,
}

impl Model for Script {
    ghost use Rattle.std.specs.Prelude.{◌<◌, ◌≤◌};
    ghost use Rattle.turn_tests.specs.Scripts.{Stand};

    ghost Value = { Stand };

    ghost view = { λ s. record { shape = s.shape; machine = s.machine; roots = s.roots; closed = s.closed } };

    ghost invariant = { λ s. (s.closed ≤ s.shape.stages) × (s.machine < s.shape.machines) × (s.sender < s.shape.machines) };
}

impl Script {
    ghost use Rattle.turn_tests.specs.Scripts.{Stand};

    /// For the workers of machine 0, each of whose machines has so many roots.
    pub fn new(alloc: Global, shape: &Shape, roots: u64, context: Context, ready: Ready) -> Script
        ensures start { result ≡ record { shape = shape.now; machine = 0; roots = roots; closed = 0 } }
        ensures sound { IsShape shape.now }
    {
        Script {
            alloc,
            shape: *shape,
            machine: 0,
            sender: shape.machines() - 1,
            roots,
            closed: 0,
            context,
            ready,
            asked: Vec::new(alloc),
        }
    }

    /// From here on this is ready, and no call was asked.
    pub fn begin(&mut self, ready: Ready)
        ensures { self.new ≡ self.old }
    {
        self.ready = ready;
        self.asked.clear();
    }

    /// The calls since then.
    pub fn asked(&self) -> &[Asked] {
        self.asked.as_slice()
    }

    fn ask(&mut self, call: Asked)
        ensures { self.new ≡ self.old }
    {
        let _ = self.asked.push(call);
    }

    /// An empty buffer of its machine, if memory is left.
    fn buffer(&self) -> Option<Buffer>
        ensures { IfSome result (λ b. b ≡ empty_buffer self.now.machine self.now.shape.buffer) }
    {
        match Buffer::new(self.alloc, self.machine, self.shape.buffer()) {
            Ok(buffer) => Some(buffer),
            Err(_) => None,
        }
    }

    /// A message of that stage for its machine from the last one, if memory is left.
    fn message(&self, stage: u32) -> Option<Message>
        requires some_stage { 0 < stage }
        requires stage_in { stage < self.now.shape.stages }
        ensures { IfSome result (λ m. IsMessageOf self.now.shape m × (m.to ≡ self.now.machine) × (m.stage ≡ stage)) }
    {
        let from = self.sender;
        match Buffer::new(self.alloc, from, self.shape.buffer()) {
            Ok(mut items) => {
                items.put(self.context);
                if self.ready.items > 1 && self.shape.buffer() > 1 {
                    items.put(self.context);
                }
                Some(Message {
                    from,
                    stage,
                    to: self.machine,
                    items,
                })
            }
            Err(_) => None,
        }
    }
}

/// What a claim answers where the machine has so many roots.
fn claimed(ready: Ready, roots: u64) -> Claimed
    ensures { OnClaimed result (λ first end. (first < end) × (end ≤ roots)) (Unit {0}) (Unit {0}) }
{
    if ready.chunk && roots > 0 {
        Claimed::Chunk(0, roots)
    } else if ready.end {
        Claimed::Exhausted(roots)
    } else {
        Claimed::Moved(0, 1)
    }
}

fn charge(ready: Ready) -> Charge {
    if ready.charge {
        Charge::Charged
    } else if ready.moved {
        Charge::Moved(1, 2)
    } else {
        Charge::Full(2)
    }
}

fn pick(ready: Ready) -> Pick {
    if ready.pick {
        Pick::Picked
    } else if ready.moved {
        Pick::Moved(1, 0)
    } else {
        Pick::NoneFlying(0)
    }
}

fn asked_mark(word: Word) -> Asked {
    match word {
        Word::Enrolled(machine) => Asked::Mark(machine, 0),
        Word::Used { from, to, .. } => Asked::Mark(from, to),
    }
}

impl Fabric for Script {
    ghost agrees = { ScriptAgrees };

    ghost done = { ScriptDone };

    ghost excused = { ScriptExcused };

    ghost shape = { script_shape };

    ghost roots = { script_roots };

    fn claim(&mut self, w: u32) -> Claimed {
        let _ = w;
        self.ask(Asked::Claim);
        claimed(self.ready, self.roots)
    }

    fn retire(&mut self, w: u32) {
        let _ = w;
        self.ask(Asked::Retire);
    }

    fn charge(&mut self, w: u32, stage: u32, to: u32) -> Charge {
        let _ = w;
        self.ask(Asked::Charge(stage, to));
        charge(self.ready)
    }

    fn fetch(&mut self, w: u32) -> Option<Buffer> {
        let _ = w;
        self.ask(Asked::Fetch);
        if self.ready.fetch {
            self.buffer()
        } else {
            None
        }
    }

    fn post(&mut self, w: u32, stage: u32, to: u32) {
        let _ = w;
        self.ask(Asked::Post(stage, to));
    }

    fn push(&mut self, w: u32, message: Message) -> Result<(), Message> {
        let _ = w;
        self.ask(Asked::Push(message.stage, message.to));
        if self.ready.push {
            Ok(())
        } else {
            Err(message)
        }
    }

    fn pop(&mut self, w: u32, stage: u32) -> Option<Message> {
        let _ = w;
        self.ask(Asked::Pop(stage));
        if self.ready.message == stage {
            self.message(stage)
        } else {
            None
        }
    }

    fn pick(&mut self, w: u32, from: u32, stage: u32) -> Pick {
        let _ = w;
        self.ask(Asked::Pick(from, stage));
        pick(self.ready)
    }

    fn restore(&mut self, w: u32, buffer: Buffer) -> Result<(), Buffer> {
        let _ = w;
        self.ask(Asked::Restore(buffer.home()));
        if self.ready.restore {
            Ok(())
        } else {
            Err(buffer)
        }
    }

    fn discharge(&mut self, w: u32, from: u32, stage: u32) {
        let _ = w;
        self.ask(Asked::Discharge(from, stage));
    }

    fn mark(&mut self, w: u32, word: Word) -> Marked {
        let _ = w;
        self.ask(asked_mark(word));
        if self.ready.zero {
            Marked::Zero
        } else {
            Marked::Busy(1)
        }
    }

    fn close(&mut self, w: u32) -> Closing {
        let _ = w;
        self.ask(Asked::Close);
        if self.ready.close {
            self.closed += 1;
            Closing::Closed
        } else {
            Closing::Moved(0, 1)
        }
    }

    fn closed(&mut self, w: u32) -> u32 {
        let _ = w;
        self.ask(Asked::Look);
        self.closed
    }
}
