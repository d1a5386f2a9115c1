//! A store in memory, which tells its files.
ghost use Rattle.std.specs.Prelude.{◌≡◌, ◌≢◌, ◌≤◌, ◌+◌, [], Option, Some, None, map, take, length};
ghost use Rattle.std.specs.Option.{option_copied};
ghost use Rattle.adfs_base.specs.Counts.{counted, Rose};
ghost use Rattle.adfs_base.specs.Files.{file_of, Reads};
ghost use Rattle.adfs_base.specs.MemStore.{answer_of, load_of};

use crate::{Loaded, Name, Store};
use std::marker::Model;

/// Files in memory, for tests and for tables that were made in memory.
///
/// It tells its files, and the loads that are listed fail. A load that isn't listed answers `Whole` or
/// `Missing` by the files alone, if memory doesn't run out. A contract sees it as a `StoreState`.
#[derive(Drop)]
pub struct MemStore {
    files: Vec<(Name, Vec<u8>)>,
    failing: Vec<u64>,
    loads: u64,
    faults: u64,
}

impl Model for MemStore {
    ghost use Rattle.std.specs.Prelude.{map};
    ghost use Rattle.adfs_base.specs.MemStore.{StoreState};

    ghost Value = { StoreState };

    ghost view = { λ s. record { files = map (λ f. (f.0, f.1.items)) s.files.items; failing = s.failing.items; loads = s.loads; faults = s.faults } };
}

impl MemStore {
    /// A store with these files. The first of a name counts. The loads whose numbers are in `failing`
    /// fail; they are counted from 1.
    pub fn new(files: Vec<(Name, Vec<u8>)>, failing: Vec<u64>) -> MemStore
        ensures { result ≡ record { files = map (λ f. (f.0, f.1.items)) files.items; failing = failing.items; loads = 0; faults = 0 } }
    {
        MemStore {
            files,
            failing,
            loads: 0,
            faults: 0,
        }
    }
}

// The bytes of the first file of that name.
fn find<'a>(files: &'a [(Name, Vec<u8>)], name: &str) -> Option<&'a [u8]>
    ensures { option_copied result ≡ file_of name.now (map (λ f. (f.0, f.1.items)) files.now) }
{
    for file in files {
        if file.0.text() == name {
            return Some(file.1.as_slice());
        }
    }
    None
}

// Appends the first `most + 1` bytes, or all if there are fewer.
fn append_front(bytes: &[u8], most: u64, into: &mut Vec<u8>) -> Loaded
    requires { into.old.items ≡ [] }
    ensures whole { result ≡ Loaded.Whole → into.new.items ≡ take (most + 1) bytes.now }
    ensures other { result ≢ Loaded.Whole → into.new.items ≡ [] }
    ensures answer { result ≢ Loaded.NoMemory → result ≡ Loaded.Whole }
{
    let front = if most < bytes.len() as u64 {
        &bytes[..most as usize + 1]
    } else {
        bytes
    };
    match into.extend_from_slice(front) {
        Ok(()) => Loaded::Whole,
        Err(_) => Loaded::NoMemory,
    }
}

// Loads the first file of that name.
fn load_found(files: &[(Name, Vec<u8>)], name: &str, most: u64, into: &mut Vec<u8>) -> Loaded
    requires { into.old.items ≡ [] }
    ensures answer { result ≢ Loaded.NoMemory → result ≡ answer_of (file_of name.now (map (λ f. (f.0, f.1.items)) files.now)) }
    ensures failed { result ≢ Loaded.Failed }
    ensures whole { result ≡ Loaded.Whole → Reads (Some (map (λ f. (f.0, f.1.items)) files.now)) name.now most into.new.items }
    ensures length { length into.new.items ≤ most + 1 }
    ensures other { result ≢ Loaded.Whole → into.new.items ≡ [] }
    ensures missing { result ≡ Loaded.Missing → file_of name.now (map (λ f. (f.0, f.1.items)) files.now) ≡ None }
{
    match find(files, name) {
        Some(bytes) => append_front(bytes, most, into),
        None => Loaded::Missing,
    }
}

impl Store for MemStore {
    ghost files = { λ s. Some s.files };

    ghost faults = { λ s. s.faults };

    ghost misses = { λ _. 0 };

    fn load(&mut self, name: &str, most: u64, into: &mut Vec<u8>) -> Loaded
        requires { into.old.items ≡ [] }
        ensures exact { result ≢ Loaded.NoMemory → load_of self.old name.now ≡ (result, self.new) }
        ensures out_of_memory { result ≡ Loaded.NoMemory → self.new ≡ record self.old { loads = counted self.old.loads } }
        ensures files { self.new.files ≡ self.old.files }
        ensures counts { self.old.faults ≤ self.new.faults }
        ensures whole { result ≡ Loaded.Whole → Reads (Some self.old.files) name.now most into.new.items }
        ensures length { length into.new.items ≤ most + 1 }
        ensures other { result ≢ Loaded.Whole → into.new.items ≡ [] }
        ensures missing { result ≡ Loaded.Missing → file_of name.now self.old.files ≡ None }
        ensures failed { result ≡ Loaded.Failed → Rose self.old.faults self.new.faults }
    {
        self.loads = self.loads.saturating_add(1);
        if self.failing.contains(&self.loads) {
            self.faults = self.faults.saturating_add(1);
            return Loaded::Failed;
        }
        load_found(&self.files, name, most, into)
    }
}
