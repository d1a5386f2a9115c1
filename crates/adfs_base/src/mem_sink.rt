//! A sink in memory, which tells what it took.
ghost use Rattle.std.specs.Prelude.{◌≡◌, ◌≤◌, ◌++◌, [], ℕ, Option, Some, None, IfOk, take, length};
ghost use Rattle.adfs_base.specs.Counts.{Rose};
ghost use Rattle.adfs_base.specs.MemSink.{put_of};

use crate::{NoMemory, Put, Sink};
use std::alloc::Global;
use std::marker::Model;

/// A sink in memory, for tests and for texts that are made in memory.
///
/// It tells what it holds. The puts that are listed fail, and so does each whose piece doesn't fit the room
/// that is left. Such a put takes what it can: a listed one the first `keep` bytes of its piece as far as
/// they fit, another one the bytes that fit. All its room is taken by `new`, so no put takes memory. A
/// contract sees it as a `SinkState`.
#[derive(Drop)]
pub struct MemSink {
    held: Vec<u8>,
    failing: Vec<u64>,
    keep: u64,
    room: u64,
    puts: u64,
    faults: u64,
}

impl Model for MemSink {
    ghost use Rattle.std.specs.Prelude.{◌≤◌, length, vec_capacity};
    ghost use Rattle.adfs_base.specs.MemSink.{SinkState};

    ghost Value = { SinkState };

    ghost view = { λ s. record { held = s.held.items; failing = s.failing.items; keep = s.keep; room = s.room; puts = s.puts; faults = s.faults } };

    ghost invariant = { λ s. (length s.held.items ≤ s.room) × (s.room ≤ vec_capacity s.held) };
}

impl MemSink {
    /// A sink with room for `room` bytes. The puts whose numbers are in `failing` fail; they are counted
    /// from 1.
    pub fn new(alloc: Global, failing: Vec<u64>, keep: u64, room: u64) -> Result<MemSink, NoMemory>
        ensures { IfOk result (λ sink. sink ≡ record { held = []; failing = failing.items; keep = keep; room = room; puts = 0; faults = 0 }) }
    {
        Ok(MemSink {
            held: Vec::with_capacity(alloc, room as usize)?,
            failing,
            keep,
            room,
            puts: 0,
            faults: 0,
        })
    }

    /// The bytes that were taken so far.
    pub fn held(&self) -> &[u8]
        ensures { result.now ≡ self.now.held }
    {
        &self.held
    }
}

impl Sink for MemSink {
    ghost held = { λ s. Some s.held };

    ghost pieces = { λ _. None };

    ghost faults = { λ s. s.faults };

    fn put(&mut self, bytes: &[u8]) -> Put
        ensures exact { put_of self.old bytes.now ≡ (result, self.new) }
        ensures counts { self.old.faults ≤ self.new.faults }
        ensures all { result ≡ Put.All → self.new.held ≡ self.old.held ++ bytes.now }
        ensures front { result ≡ Put.Failed → (n : ℕ) × (self.new.held ≡ self.old.held ++ take n bytes.now) }
        ensures failed { result ≡ Put.Failed → Rose self.old.faults self.new.faults }
    {
        self.puts = self.puts.saturating_add(1);
        let fails = self.failing.contains(&self.puts);
        let left = self.room - self.held.len() as u64;
        let most = if fails { self.keep.min(left) } else { left };
        let whole = !fails && bytes.len() as u64 <= most;
        let count = (bytes.len() as u64).min(most) as usize;
        if self.held.extend_from_slice(&bytes[..count]).is_ok() && whole {
            return Put::All;
        }
        self.faults = self.faults.saturating_add(1);
        Put::Failed
    }
}
