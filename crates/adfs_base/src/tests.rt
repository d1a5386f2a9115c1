//! Each public call once with ample memory, and the forms in memory as their lists say.
use super::*;
use std::alloc::Global;
use std::test::Fail;

fn file(alloc: Global, name: &str, text: &str) -> Result<(Name, Vec<u8>), NoMemory> {
    Ok((Name::new(alloc, name)?, text.as_bytes().to_vec(alloc)?))
}

fn load_by<S: Store>(store: &mut S, name: &str, most: u64, into: &mut Vec<u8>) -> Loaded {
    into.clear();
    store.load(name, most, into)
}

#[test]
fn a_store_in_memory_reads_the_first_file_of_a_name(rt: HostRuntime) -> Result<(), Fail> {
    let alloc = rt.alloc();
    let mut files = Vec::new(alloc);
    files.push(file(alloc, "a", "first")?)?;
    files.push(file(alloc, "a", "second")?)?;
    let mut store = MemStore::new(files, vec![in alloc; 3]?);
    let mut into = Vec::new(alloc);
    assert_eq!(rt; load_by(&mut store, "a", 10, &mut into), Loaded::Whole);
    assert_eq!(rt; into.as_slice(), b"first".as_slice());
    assert_eq!(rt; load_by(&mut store, "b", 10, &mut into), Loaded::Missing);
    assert_eq!(rt; load_by(&mut store, "a", 10, &mut into), Loaded::Failed);
    assert_eq!(rt; load_by(&mut store, "a", 3, &mut into), Loaded::Whole);
    assert_eq!(rt; into.as_slice(), b"firs".as_slice());
    Ok(())
}

fn put_by<O: Sink>(sink: &mut O, bytes: &[u8]) -> Put {
    sink.put(bytes)
}

#[test]
fn a_sink_in_memory_fails_where_it_is_told_and_where_it_is_full(
    rt: HostRuntime,
) -> Result<(), Fail> {
    let alloc = rt.alloc();
    let mut sink = MemSink::new(alloc, vec![in alloc; 2]?, 1, 6)?;
    assert_eq!(rt; put_by(&mut sink, b"ab"), Put::All);
    assert_eq!(rt; put_by(&mut sink, b"cd"), Put::Failed);
    assert_eq!(rt; put_by(&mut sink, b"efgh"), Put::Failed);
    assert_eq!(rt; put_by(&mut sink, b""), Put::All);
    assert_eq!(rt; sink.held(), b"abcefg".as_slice());
    Ok(())
}
