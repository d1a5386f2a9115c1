//! A worker's stack of frames.
ghost use Rattle.std.specs.Prelude.{◌≡◌, ◌+◌, ◌<◌, List, ◌≤◌, ◌↔◌, [], ◌∷◌, length, reverse, vec_len, vec_capacity, OnOk, OnErr, IfOk, IfSome, IfNone, MatchOption, IsTrue, Some, None};
ghost use Rattle.dfs_worker.specs.State.{next_stage};
ghost use Rattle.dfs_worker.specs.Own.{frames_after, rows_after, AddsRow};
ghost use Rattle.dfs_worker.specs.Passing.{TopBelow, TopPassed};
ghost use Rattle.dfs_worker.specs.Sound.{TopFits};
ghost use Rattle.match_context.specs.declared.context.Context.{Context};
ghost use Rattle.dfs_worker.specs.Tower.{with_frames, child_of, without_child, top_of};

use crate::frames;
use adfs_base::NoMemory;
use match_context::{Context, Expand, Frame};
use std::alloc::Global;
use std::marker::Model;

/// A worker's frames, with room for one of each stage from the start. A contract sees it as a `Tower`.
#[derive(Drop)]
pub struct Stack {
    room: u32,
    frames: Vec<Frame>,
}

impl Model for Stack {
    ghost use Rattle.std.specs.Prelude.{◌≤◌, length, vec_capacity, reverse};
    ghost use Rattle.dfs_worker.specs.Tower.{Tower};

    ghost Value = { Tower };

    ghost view = { λ s. record { room = s.room; frames = reverse s.frames.items } };

    ghost invariant = { λ s. (length s.frames.items ≤ s.room) × (s.room ≤ vec_capacity s.frames) };
}

impl Stack {
    /// An empty stack with room for so many frames.
    pub fn new(alloc: Global, room: u32) -> Result<Stack, NoMemory>
        ensures { IfOk result (λ s. s ≡ record { room = room; frames = [] }) }
    {
        let frames = Vec::with_capacity(alloc, room as usize)?;
        Ok(Stack { room, frames })
    }

    /// Puts a frame on top. It takes no memory.
    pub fn push(&mut self, frame: Frame)
        requires { length self.old.frames < self.old.room }
        ensures { self.new ≡ with_frames self.old (frame ∷ self.old.frames) }
    {
        let _ = self.frames.push(frame);
    }

    /// Takes the top off.
    pub fn pop(&mut self) -> Option<Frame>
        ensures some { IfSome result (λ f. self.old.frames ≡ f ∷ self.new.frames) }
        ensures none { IfNone result (self.old.frames ≡ []) }
        ensures kept { IfNone result (self.new ≡ self.old) }
        ensures room { self.new.room ≡ self.old.room }
    {
        self.frames.pop()
    }

    /// Whether it holds no frame.
    pub fn is_empty(&self) -> bool
        ensures { IsTrue result ↔ (self.now.frames ≡ []) }
    {
        self.frames.is_empty()
    }

    /// The top.
    pub fn top(&self) -> Option<&Frame>
        ensures { MatchOption result (self.now.frames ≡ []) (λ f. (fs : _) × (self.now.frames ≡ f.now ∷ fs)) }
    {
        self.frames.last()
    }

    /// The frames, the top last.
    pub fn frames(&self) -> &[Frame]
        ensures frames { reverse result.now ≡ self.now.frames }
        ensures within { length self.now.frames ≤ self.now.room }
    {
        self.frames.as_slice()
    }

    /// Makes the top's next answer, in place. A row goes to the rows, and after `NoMemory` all is as before.
    pub fn advance<X: Expand>(
        &mut self,
        x: &X,
        machine: u32,
        rows: &mut Vec<Context>,
    ) -> Result<(), NoMemory>
        requires machine_in { machine < (X.tree x.now).machines }
        requires fits { TopFits (X.tree x.now).stages ((X.tree x.now).roots machine) self.old.frames }
        ensures frames { OnOk result (self.new ≡ with_frames self.old (frames_after (X.tree x.now) machine self.old.frames)) }
        ensures rows { OnOk result (rows.new.items ≡ rows_after (X.tree x.now) machine rows.old.items self.old.frames) }
        ensures err { OnErr result ((self.new ≡ self.old) × (rows.new.items ≡ rows.old.items)) }
        ensures memory { OnErr result (AddsRow (X.tree x.now) machine self.old.frames) }
    {
        let count = self.frames.len();
        if count == 0 {
            return Ok(());
        }
        if !frames::step(x, machine, &mut self.frames[count - 1], rows)? {
            self.frames.truncate(count - 1);
        }
        Ok(())
    }

    /// Makes answers of the top, in place: before the last stage those of which nothing comes, and one more; at the last
    /// stage its next answer. It tells how many gave nothing. After `NoMemory` all is as before.
    #[inline]
    pub fn advance_on<X: Expand>(
        &mut self,
        x: &X,
        machine: u32,
        rows: &mut Vec<Context>,
    ) -> Result<u64, NoMemory>
        requires machine_in { machine < (X.tree x.now).machines }
        requires fits { TopFits (X.tree x.now).stages ((X.tree x.now).roots machine) self.old.frames }
        requires some { self.old.frames ≡ [] → ⊥ }
        ensures ok { IfOk result (λ passed. TopPassed (X.tree x.now) machine self.old.frames rows.old.items passed self.new.frames rows.new.items) }
        ensures room { self.new.room ≡ self.old.room }
        ensures err { OnErr result ((self.new ≡ self.old) × (rows.new.items ≡ rows.old.items)) }
    {
        if self.is_below(x.stages()) {
            return Ok(self.pass(x, machine));
        }
        self.advance(x, machine, rows)?;
        Ok(0)
    }

    /// Whether the top is of a stage before the last of so many.
    fn is_below(&self, stages: u32) -> bool
        ensures { IsTrue result ↔ TopBelow stages self.now.frames }
    {
        match self.frames.last() {
            Some(top) => top.stage < stages.saturating_sub(1),
            None => false,
        }
    }

    /// Makes answers of the top, in place: those of which nothing comes, and one more. It tells how many gave nothing.
    fn pass<X: Expand>(&mut self, x: &X, machine: u32) -> u64
        requires machine_in { machine < (X.tree x.now).machines }
        requires fits { TopFits (X.tree x.now).stages ((X.tree x.now).roots machine) self.old.frames }
        requires below { TopBelow (X.tree x.now).stages self.old.frames }
        ensures passed { (rows : List Context) → TopPassed (X.tree x.now) machine self.old.frames rows result self.new.frames rows }
        ensures room { self.new.room ≡ self.old.room }
    {
        let count = self.frames.len();
        if count == 0 {
            return 0;
        }
        let (passed, kept) = frames::pass(x, machine, &mut self.frames[count - 1]);
        if !kept {
            self.frames.truncate(count - 1);
        }
        passed
    }

    /// Takes the child with which the top waits.
    pub fn take_child(&mut self) -> Option<(Context, u32)>
        ensures child { result ≡ child_of self.old.frames }
        ensures taken { self.new ≡ with_frames self.old (without_child self.old.frames) }
    {
        let count = self.frames.len();
        if count == 0 {
            return None;
        }
        let frame = &mut self.frames[count - 1];
        let child = frame.wait;
        frame.wait = None;
        child
    }
}
