//! A machine's free buffers.
ghost use Rattle.std.specs.Prelude.{◌≡◌, ◌<◌, ◌+◌, ◌-◌, if◌then◌else◌, nat_lt, Some, None, IfOk};
ghost use Rattle.fabric.specs.Calls.{empty_buffer};

use adfs_base::NoMemory;
use match_context::Buffer;
use std::alloc::Global;
use std::marker::Model;

/// The empty buffers of one machine. The one that came last goes first, since its memory is the likeliest to be
/// near. All are alike, so a contract sees them as a `Stock`: how many there are.
#[derive(Drop)]
pub struct Pool {
    home: u32,
    size: u32,
    room: u32,
    buffers: Vec<Buffer>,
}

impl Model for Pool {
    ghost use Rattle.std.specs.Prelude.{◌≤◌, length, All, vec_capacity, ◌≡◌};
    ghost use Rattle.fabric.specs.Calls.{empty_buffer};
    ghost use Rattle.fabric.specs.Queue.{Stock};

    ghost Value = { Stock };

    ghost view = { λ p. record { home = p.home; size = p.size; room = p.room; count = length p.buffers.items } };

    ghost invariant = { λ p. (length p.buffers.items ≤ p.room) × (p.room ≤ vec_capacity p.buffers) × All (λ b. b ≡ empty_buffer p.home p.size) p.buffers.items };
}

impl Pool {
    /// A full pool of so many buffers of that home and size.
    pub fn new(alloc: Global, home: u32, size: u32, room: u32) -> Result<Pool, NoMemory>
        ensures { IfOk result (λ p. p ≡ record { home = home; size = size; room = room; count = room }) }
    {
        let mut buffers = Vec::with_capacity(alloc, room as usize)?;
        for i in 0..room {
            let _ = i;
            buffers.push(Buffer::new(alloc, home, size)?)?;
        }
        Ok(Pool {
            home,
            size,
            room,
            buffers,
        })
    }

    /// How many buffers it holds.
    pub fn count(&self) -> usize
        ensures { result ≡ self.now.count }
    {
        self.buffers.len()
    }

    /// Takes a buffer out, if there is one.
    pub fn take(&mut self) -> Option<Buffer>
        ensures answer { result ≡ (if nat_lt 0 self.old.count then Some (empty_buffer self.old.home self.old.size) else None) }
        ensures change { self.new ≡ record self.old { count = self.old.count - 1 } }
    {
        self.buffers.pop()
    }

    /// Puts an empty buffer back.
    pub fn put(&mut self, buffer: Buffer)
        requires room { self.old.count < self.old.room }
        requires alike { buffer ≡ empty_buffer self.old.home self.old.size }
        ensures { self.new ≡ record self.old { count = self.old.count + 1 } }
    {
        let _ = self.buffers.push(buffer);
    }
}
