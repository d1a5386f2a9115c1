//! Room for contexts, which goes round between machines.
ghost use Rattle.std.specs.Prelude.{◌≡◌, ◌<◌, ◌≤◌, [], ◌∷◌, ◌++◌, length, IfOk};

use crate::Context;
use adfs_base::NoMemory;
use std::alloc::Global;
use std::marker::Model;

/// Room for contexts, and the machine that it belongs to. A contract sees it as a `Batch`.
///
/// It is made once and goes round between machines: all its room is there from the start, so that only `new`
/// takes memory, and it never holds more contexts than its size.
#[derive(Drop)]
pub struct Buffer {
    home: u32,
    size: u32,
    items: Vec<Context>,
}

impl Model for Buffer {
    ghost use Rattle.std.specs.Prelude.{◌≤◌, length, vec_capacity};
    ghost use Rattle.match_context.specs.Batch.{Batch};

    ghost Value = { Batch };

    ghost view = { λ b. record { home = b.home; size = b.size; items = b.items.items } };

    ghost invariant = { λ b. (length b.items.items ≤ b.size) × (b.size ≤ vec_capacity b.items) };
}

impl Buffer {
    /// An empty buffer of that machine with room for `size` contexts.
    pub fn new(alloc: Global, home: u32, size: u32) -> Result<Buffer, NoMemory>
        ensures { IfOk result (λ b. b ≡ record { home = home; size = size; items = [] }) }
    {
        let items = Vec::with_capacity(alloc, size as usize)?;
        Ok(Buffer { home, size, items })
    }

    /// Puts a context last.
    pub fn put(&mut self, context: Context)
        requires { length self.old.items < self.old.size }
        ensures { self.new ≡ record self.old { items = self.old.items ++ context ∷ [] } }
    {
        let _ = self.items.push(context);
    }

    /// Takes all contexts out. Its room stays.
    pub fn clear(&mut self)
        ensures { self.new ≡ record self.old { items = [] } }
    {
        self.items.clear();
    }

    /// The machine that it belongs to.
    pub fn home(&self) -> u32
        ensures { result ≡ self.now.home }
    {
        self.home
    }

    /// How many contexts it has room for.
    pub fn size(&self) -> u32
        ensures { result ≡ self.now.size }
    {
        self.size
    }

    /// Its contexts, in the order in which they were put.
    pub fn items(&self) -> &[Context]
        ensures items { result.now ≡ self.now.items }
        ensures within { length self.now.items ≤ self.now.size }
    {
        self.items.as_slice()
    }
}
