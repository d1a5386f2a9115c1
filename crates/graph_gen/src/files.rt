//! The tables of a seed as the files of a store.
ghost use Rattle.std.specs.Prelude.{◌≡◌, ◌≢◌, ◌+◌, ◌≤◌, [], Some, None, length, take};
ghost use Rattle.std.specs.Option.{option_copied};
ghost use Rattle.adfs_base.specs.Files.{Reads, file_of};
ghost use Rattle.graph_gen.specs.Files.{files_of};

use crate::tables::Tables;
use adfs_base::{Loaded, Store};

impl Tables {
    // The bytes of the file of that name.
    fn file(&self, name: &str) -> Option<&[u8]>
        ensures { option_copied result ≡ file_of name.now (files_of self.now) }
    {
        if MANIFEST == name {
            return Some(self.manifest.as_slice());
        }
        if NODES == name {
            return Some(self.nodes.as_slice());
        }
        if LINKS == name {
            return Some(self.links.as_slice());
        }
        None
    }
}

// Appends the first `most + 1` bytes, or all if there are fewer.
fn append_front(bytes: &[u8], most: u64, into: &mut Vec<u8>) -> Loaded
    requires { into.old.items ≡ [] }
    ensures whole { result ≡ Loaded.Whole → into.new.items ≡ take (most + 1) bytes.now }
    ensures other { result ≢ Loaded.Whole → into.new.items ≡ [] }
    ensures answer { result ≢ Loaded.NoMemory → result ≡ Loaded.Whole }
{
    let front = if most < bytes.len() as u64 {
        &bytes[..most as usize + 1]
    } else {
        bytes
    };
    match into.extend_from_slice(front) {
        Ok(()) => Loaded::Whole,
        Err(_) => Loaded::NoMemory,
    }
}

/// The name of the manifest.
pub const MANIFEST: &str = "graph.txt";

/// The name of the vertices' table.
const NODES: &str = "nodes.csv";

/// The name of the edges' table.
const LINKS: &str = "links.csv";

/// A store of these three files, which never fails.
impl Store for Tables {
    ghost files = { λ t. Some (files_of t) };

    ghost faults = { λ _. 0 };

    ghost misses = { λ _. 0 };

    fn load(&mut self, name: &str, most: u64, into: &mut Vec<u8>) -> Loaded {
        match self.file(name) {
            Some(bytes) => append_front(bytes, most, into),
            None => Loaded::Missing,
        }
    }
}
