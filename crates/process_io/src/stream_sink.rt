//! A stream of the process, as a sink.
ghost use Rattle.std.specs.Prelude.{None};

use adfs_base::{Put, Sink};
use std::io::Write;

/// A stream of the process. Each piece is written and flushed. It tells nothing of what it holds.
#[derive(Drop)]
pub struct StreamSink<W: Write + Drop> {
    stream: W,
    faults: u64,
}

impl<W: Write + Drop> StreamSink<W> {
    pub fn new(stream: W) -> Self {
        StreamSink { stream, faults: 0 }
    }
}

impl<W: Write + Drop> Sink for StreamSink<W> {
    ghost held = { λ _. None };

    ghost pieces = { λ _. None };

    ghost faults = { λ s. s.faults };

    fn put(&mut self, bytes: &[u8]) -> Put {
        if self.stream.write_all(bytes).is_ok() && self.stream.flush().is_ok() {
            return Put::All;
        }
        self.faults = self.faults.saturating_add(1);
        Put::Failed
    }
}
