//! Runs whose nth load or nth put fails, and what they come to.
use adfs_base::{MemSink, MemStore, Name, NoMemory};
use adfs_top::adfs_run_serial;
use std::alloc::Global;
use std::test::Fail;

const ROOM: u64 = 4096;

const MANIFEST: &str = "adfs 1\nvertices person people.csv\nedges knows knows.csv\n";

const PEOPLE: &str = "id:int,name:text,age:int\n1,Ann,30\n2,Bob,25\n3,Cy,\n4,Dee,41\n";

const KNOWS: &str = "id:int,source:int,target:int\n10,1,2\n11,1,2\n12,2,3\n13,3,1\n14,4,4\n";

const KEYS: &str = "SELECT id(a), id(b) MATCH (a)-[e]->(b);\n";

const TWICE: &str = "SELECT a.name MATCH (a) LIMIT 1;SELECT a.name MATCH (a) LIMIT 2;";

fn file(alloc: Global, name: &str, text: &str) -> Result<(Name, Vec<u8>), NoMemory> {
    Ok((Name::new(alloc, name)?, text.as_bytes().to_vec(alloc)?))
}

// The files of a run, and the number of the load that fails; 0 is none.
fn store(alloc: Global, failing: u64) -> Result<MemStore, NoMemory> {
    let mut files = Vec::new(alloc);
    for (name, text) in [
        ("graph.txt", MANIFEST),
        ("people.csv", PEOPLE),
        ("knows.csv", KNOWS),
        ("own.txt", "1 9\n"),
        ("keys.txt", KEYS),
        ("twice.txt", TWICE),
    ] {
        files.push(file(alloc, name, text)?)?;
    }
    Ok(MemStore::new(files, vec![in alloc; failing]?))
}

fn words(alloc: Global, text: &str) -> Result<Vec<String>, NoMemory> {
    let mut words = Vec::new(alloc);
    for word in text.split(' ') {
        words.push(String::from_str(alloc, word)?)?;
    }
    Ok(words)
}

// Whether a run of these words puts these bytes and then ends with this line on standard error.
fn comes_to(
    alloc: Global,
    text: &str,
    mut store: MemStore,
    mut sink: MemSink,
    held: &str,
    line: &str,
) -> Result<bool, NoMemory> {
    let words = words(alloc, text)?;
    let status = adfs_run_serial(alloc, &words, &mut store, &mut sink);
    let mut said = b"before ".as_slice().to_vec(alloc)?;
    status.put_line(alloc, &mut said)?;
    Ok(sink.held() == held.as_bytes() && said.strip_prefix(b"before ") == Some(line.as_bytes()))
}

// Whether a run whose load of this number fails ends with this line and puts nothing.
fn fails_at(alloc: Global, text: &str, load: u64, line: &str) -> Result<bool, NoMemory> {
    let sink = MemSink::new(alloc, Vec::new(alloc), 0, ROOM)?;
    comes_to(alloc, text, store(alloc, load)?, sink, "", line)
}

// Whether a run whose put of this number fails, and keeps four bytes, leaves these bytes.
fn leaves(alloc: Global, text: &str, put: u64, held: &str) -> Result<bool, NoMemory> {
    let sink = MemSink::new(alloc, vec![in alloc; put]?, 4, ROOM)?;
    comes_to(
        alloc,
        text,
        store(alloc, 0)?,
        sink,
        held,
        "adfs: write fault\n",
    )
}

// Whether a run comes to its end without a put of this number, which would fail, and leaves these bytes.
fn ends_before(alloc: Global, text: &str, put: u64, held: &str) -> Result<bool, NoMemory> {
    let sink = MemSink::new(alloc, vec![in alloc; put]?, 4, ROOM)?;
    comes_to(alloc, text, store(alloc, 0)?, sink, held, "")
}

#[test]
fn failing_load(rt: HostRuntime) -> Result<(), Fail> {
    let listed = "run graph.txt keys.txt --part listed:own.txt --machines 2";
    for (text, load, line) in [
        ("run graph.txt keys.txt", 1, "adfs: file 0 read fault\n"),
        ("run graph.txt keys.txt", 2, "adfs: file 1 read fault\n"),
        ("run graph.txt keys.txt", 3, "adfs: file 2 read fault\n"),
        ("run graph.txt keys.txt", 4, "adfs: file 257 read fault\n"),
        (listed, 4, "adfs: file 259 read fault\n"),
    ] {
        assert!(rt; fails_at(rt.alloc(), text, load, line)?, "at {line:?}");
    }
    Ok(())
}

#[test]
fn failing_put(rt: HostRuntime) -> Result<(), Fail> {
    for (text, put, held) in [
        ("run graph.txt keys.txt", 1, "quer"),
        ("run graph.txt twice.txt", 1, "quer"),
        (
            "run graph.txt twice.txt",
            2,
            "query 1 rows 1\na.name\nAnn\nquer",
        ),
        ("help", 1, "run "),
    ] {
        assert!(rt; leaves(rt.alloc(), text, put, held)?, "at {held:?}");
    }
    Ok(())
}

#[test]
fn one_put_for_each_query(rt: HostRuntime) -> Result<(), Fail> {
    for (text, put, held) in [
        (
            "run graph.txt keys.txt",
            2,
            "query 1 rows 5\nid(a),id(b)\n1,2\n1,2\n2,3\n3,1\n4,4\n",
        ),
        (
            "run graph.txt twice.txt",
            3,
            "query 1 rows 1\na.name\nAnn\nquery 2 rows 2\na.name\nAnn\nBob\n",
        ),
    ] {
        assert!(rt; ends_before(rt.alloc(), text, put, held)?, "at {held:?}");
    }
    Ok(())
}

#[test]
fn a_sink_that_is_full(rt: HostRuntime) -> Result<(), Fail> {
    let alloc = rt.alloc();
    let sink = MemSink::new(alloc, Vec::new(alloc), 0, 9)?;
    let line = "adfs: write fault\n";
    let text = "run graph.txt keys.txt";
    assert!(rt; comes_to(alloc, text, store(alloc, 0)?, sink, "query 1 r", line)?);
    Ok(())
}

#[test]
fn memory_serves(rt: HostRuntime) -> Result<(), Fail> {
    let alloc = rt.alloc();
    let sink = MemSink::new(alloc, Vec::new(alloc), 0, ROOM)?;
    let held = "query 1 rows 5\nid(a),id(b)\n1,2\n1,2\n2,3\n3,1\n4,4\n";
    let text = "run graph.txt keys.txt";
    assert!(rt; comes_to(alloc, text, store(alloc, 0)?, sink, held, "")?);
    Ok(())
}
