//! A worker's open buffers, by stage and machine.
ghost use Rattle.std.specs.Prelude.{◌≡◌, ◌<◌, ◌&&◌, nat_lt, length, Some, None, IfOk, MatchOption, true, replicate};
ghost use Rattle.dfs_worker.specs.Slots.{slot_of};

use adfs_base::{NoMemory, Shape};
use match_context::{Context, Message};
use std::alloc::Global;
use std::marker::Model;

/// The messages that a worker fills: a place for each stage and machine, all made at once. A contract sees it as
/// `Slots`.
#[derive(Drop)]
pub struct Outbox {
    stages: u32,
    machines: u32,
    messages: Vec<Option<Message>>,
}

impl Model for Outbox {
    ghost use Rattle.std.specs.Prelude.{◌≡◌, ◌*◌, ◌≤◌, length};
    ghost use Rattle.dfs_worker.specs.Slots.{Slots};

    ghost Value = { Slots };

    ghost view = { λ o. record { stages = o.stages; machines = o.machines; messages = o.messages.items } };

    ghost invariant = { λ o. (length o.messages.items ≡ o.stages * o.machines) × (o.stages ≤ 26) × (o.machines ≤ 8) };
}

impl Outbox {
    ghost use Rattle.dfs_worker.specs.Slots.{open_at, is_open, has_room, with_slot, with_context};
    ghost use Rattle.dfs_worker.specs.State.{no_slots};

    /// An outbox in which nothing is open.
    pub fn new(alloc: Global, shape: &Shape) -> Result<Outbox, NoMemory>
        ensures { IfOk result (λ o. o ≡ no_slots shape.now) }
    {
        let stages = shape.stages();
        let machines = shape.machines();
        let messages = no_messages(alloc, stages as usize * machines as usize)?;
        Ok(Outbox {
            stages,
            machines,
            messages,
        })
    }

    /// Whether there is such a stage and such a machine.
    fn has_place(&self, stage: u32, to: u32) -> bool
        ensures { result ≡ (nat_lt stage self.now.stages && nat_lt to self.now.machines) }
    {
        stage < self.stages && to < self.machines
    }

    /// The place of a stage and a machine.
    fn place(&self, stage: u32, to: u32) -> usize
        requires stage_in { stage < self.now.stages }
        requires to_in { to < self.now.machines }
        ensures at { result ≡ slot_of self.now.machines stage to }
        ensures within { result < length self.now.messages }
    {
        stage as usize * self.machines as usize + to as usize
    }

    /// The message that is open for a stage and a machine.
    pub fn message(&self, stage: u32, to: u32) -> Option<&Message>
        ensures { MatchOption result (open_at self.now stage to ≡ None) (λ m. open_at self.now stage to ≡ Some m.now) }
    {
        if !self.has_place(stage, to) {
            return None;
        }
        self.messages[self.place(stage, to)].as_ref()
    }

    /// Whether a buffer is open there.
    pub fn is_open(&self, stage: u32, to: u32) -> bool
        ensures { result ≡ is_open self.now stage to }
    {
        self.message(stage, to).is_some()
    }

    /// Whether a buffer with room is open there.
    pub fn has_room(&self, stage: u32, to: u32) -> bool
        ensures { result ≡ has_room self.now stage to }
    {
        match self.message(stage, to) {
            Some(message) => message.items.items().len() < message.items.size() as usize,
            None => false,
        }
    }

    /// Puts a context last in the buffer that is open there.
    pub fn put(&mut self, stage: u32, to: u32, context: Context)
        requires { has_room self.old stage to ≡ true }
        ensures { self.new ≡ with_context self.old stage to context }
    {
        if !self.has_place(stage, to) {
            return;
        }
        let at = self.place(stage, to);
        if let Some(message) = &mut self.messages[at] {
            message.items.put(context);
        }
    }

    /// Takes the message that is open there.
    pub fn take(&mut self, stage: u32, to: u32) -> Option<Message>
        ensures { MatchOption result ((open_at self.old stage to ≡ None) × (self.new ≡ self.old))
            (λ m. (open_at self.old stage to ≡ Some m) × (self.new ≡ with_slot self.old stage to None)) }
    {
        if !self.is_open(stage, to) {
            return None;
        }
        let at = self.place(stage, to);
        self.messages[at].take()
    }

    /// Opens a message for its stage and machine, or any other that is given.
    pub fn set(&mut self, stage: u32, to: u32, message: Message)
        requires stage_in { stage < self.old.stages }
        requires to_in { to < self.old.machines }
        ensures { self.new ≡ with_slot self.old stage to (Some message) }
    {
        let at = self.place(stage, to);
        self.messages[at] = Some(message);
    }
}

/// So many places with nothing in them.
fn no_messages(alloc: Global, count: usize) -> Result<Vec<Option<Message>>, NoMemory>
    ensures { IfOk result (λ v. v.items ≡ replicate count None) }
{
    let mut messages = Vec::with_capacity(alloc, count)?;
    for _ in 0..count {
        messages.push(None)?;
    }
    Ok(messages)
}
