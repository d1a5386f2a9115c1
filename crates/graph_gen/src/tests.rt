//! A graph of a known seed, and its files.
use super::*;
use adfs_base::{Loaded, Store};
use std::test::Fail;

const NAMES: &[u8] = b"adfs 1\nvertices node nodes.csv\nedges link links.csv\n";

#[test]
fn three_vertices_and_a_loop(rt: HostRuntime) -> Result<(), Fail> {
    let tables = generate(rt.alloc(), 0, 3, 1)?;
    assert!(rt; tables.manifest.as_slice() == NAMES);
    assert!(rt; tables.nodes.as_slice() == b"id:int,w:int\n1,535\n2,700\n3,679\n".as_slice());
    assert!(rt; tables.links.as_slice() == b"id:int,source:int,target:int\n1,2,2\n".as_slice());
    Ok(())
}

#[test]
fn a_file_is_read_up_to_a_byte_past_the_most(rt: HostRuntime) -> Result<(), Fail> {
    let mut tables = generate(rt.alloc(), 0, 3, 1)?;
    let mut bytes = Vec::new(rt.alloc());
    assert!(rt; tables.load("other.csv", 9, &mut bytes) == Loaded::Missing);
    assert!(rt; tables.load("nodes.csv", 9, &mut bytes) == Loaded::Whole);
    assert!(rt; bytes.as_slice() == b"id:int,w:i".as_slice());
    Ok(())
}
