//! Real files by pieces, and streams that fail.
use super::*;
use adfs_base::{Loaded, Put, Sink, Store};
use std::io::Write;
use std::test::Fail;
use std::{fs, io};

fn load_by<S: Store>(store: &mut S, name: &str, most: u64, into: &mut Vec<u8>) -> Loaded {
    into.clear();
    store.load(name, most, into)
}

#[test]
fn a_file_of_many_pieces_is_read_to_its_end(rt: HostRuntime) -> Result<(), Fail> {
    let alloc = rt.alloc();
    let mut store = FileStore::new(rt.clone()?);
    let mut into = Vec::new(alloc);
    let long = vec![in alloc; b'x'; 40_000]?;
    fs::write(&rt, "long.txt", long.as_slice())?;
    for (most, len) in [
        (40_000, 40_000),
        (39_999, 40_000),
        (20_000, 20_001),
        // At the end of a piece.
        (16_384, 16_385),
    ] {
        assert_eq!(rt;
            load_by(&mut store, "long.txt", most, &mut into),
            Loaded::Whole
        );
        assert_eq!(rt; into.len(), len);
    }
    Ok(())
}

#[test]
fn a_file_is_read_to_its_end_or_until_it_is_too_long(rt: HostRuntime) -> Result<(), Fail> {
    let mut store = FileStore::new(rt.clone()?);
    let mut into = Vec::new(rt.alloc());
    fs::write(&rt, "digits.txt", b"0123456789".as_slice())?;
    assert_eq!(rt;
        load_by(&mut store, "digits.txt", 10, &mut into),
        Loaded::Whole
    );
    assert_eq!(rt; into.as_slice(), b"0123456789".as_slice());
    assert_eq!(rt;
        load_by(&mut store, "digits.txt", 3, &mut into),
        Loaded::Whole
    );
    assert_eq!(rt; into.as_slice(), b"0123".as_slice());
    assert_eq!(rt;
        load_by(&mut store, "letters.txt", 10, &mut into),
        Loaded::Missing
    );
    assert_eq!(rt; load_by(&mut store, ".", 10, &mut into), Loaded::Failed);
    assert_eq!(rt; into.len(), 0);
    Ok(())
}

// A writer with room for a few bytes, which may fail to flush.
#[derive(Drop)]
struct Small {
    room: usize,
    flushes: bool,
}

impl Write for Small {
    fn write(&mut self, buf: &[u8]) -> io::Result<usize> {
        let count = buf.len().min(self.room);
        self.room -= count;
        Ok(count)
    }

    fn flush(&mut self) -> io::Result<()> {
        if self.flushes {
            Ok(())
        } else {
            Err(io::Error::from(io::ErrorKind::BrokenPipe))
        }
    }
}

fn put_by<O: Sink>(sink: &mut O, bytes: &[u8]) -> Put {
    sink.put(bytes)
}

#[test]
fn a_stream_that_takes_no_more_is_a_fault(rt: HostRuntime) {
    let mut sink = StreamSink::new(Small {
        room: 4,
        flushes: true,
    });
    assert_eq!(rt; put_by(&mut sink, b"abc"), Put::All);
    assert_eq!(rt; put_by(&mut sink, b"de"), Put::Failed);
}

#[test]
fn a_piece_that_is_not_flushed_is_a_fault(rt: HostRuntime) {
    let mut sink = StreamSink::new(Small {
        room: 4,
        flushes: false,
    });
    assert_eq!(rt; put_by(&mut sink, b"abc"), Put::Failed);
}
