//! The messages to one machine and stage.
ghost use Rattle.std.specs.Prelude.{◌≡◌, ◌<◌, [], ◌∷◌, ◌++◌, length, IfOk, Some, nat_lt, slice_get};
ghost use Rattle.fabric.specs.Calls.{first_of, rest_of};

use adfs_base::NoMemory;
use match_context::Message;
use std::alloc::Global;
use std::collections::VecDeque;
use std::marker::Model;

/// The messages for one stage of one machine, the oldest first, in a ring whose room is made at once. A contract
/// sees it as a `Queue`.
#[derive(Drop)]
pub struct Inbox {
    room: u32,
    messages: VecDeque<Message>,
}

impl Model for Inbox {
    ghost use Rattle.std.specs.Prelude.{◌≤◌, length};
    ghost use Rattle.std.specs.VecDeque.{deque_capacity};
    ghost use Rattle.fabric.specs.Queue.{Queue};

    ghost Value = { Queue };

    ghost view = { λ q. record { room = q.room; messages = q.messages.items } };

    ghost invariant = { λ q. (length q.messages.items ≤ q.room) × (q.room ≤ deque_capacity q.messages) };
}

impl Inbox {
    /// An empty inbox with room for so many messages.
    pub fn new(alloc: Global, room: u32) -> Result<Inbox, NoMemory>
        ensures { IfOk result (λ q. q ≡ record { room = room; messages = [] }) }
    {
        let messages = VecDeque::with_capacity(alloc, room as usize)?;
        Ok(Inbox { room, messages })
    }

    /// How many messages it holds.
    pub fn len(&self) -> usize
        ensures { result ≡ length self.now.messages }
    {
        self.messages.len()
    }

    /// A message by its place from the front.
    pub fn message(&self, place: usize) -> &Message
        requires { place < length self.now.messages }
        ensures { slice_get self.now.messages place ≡ Some result.now }
    {
        &self.messages[place]
    }

    /// Whether one more message fits.
    pub fn has_space(&self) -> bool
        ensures { result ≡ nat_lt (length self.now.messages) self.now.room }
    {
        self.messages.len() < self.room as usize
    }

    /// Puts a message last.
    pub fn push(&mut self, message: Message)
        requires { length self.old.messages < self.old.room }
        ensures { self.new ≡ record self.old { messages = self.old.messages ++ message ∷ [] } }
    {
        let _ = self.messages.push_back(message);
    }

    /// Takes the first message.
    pub fn pop(&mut self) -> Option<Message>
        ensures answer { result ≡ first_of self.old.messages }
        ensures change { self.new ≡ record self.old { messages = rest_of self.old.messages } }
    {
        self.messages.pop_front()
    }
}
