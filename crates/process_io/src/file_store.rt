//! Real files, as a store.
ghost use Rattle.std.specs.Prelude.{◌≡◌, ◌≢◌, ◌≤◌, ◌+◌, [], None, length};

use adfs_base::{Loaded, Store};
use std::fs;
use std::io::{ErrorKind, Read};
use std::rt::Files;

/// The files of the system, by their paths from the current folder. It tells no content.
#[derive(Drop)]
pub struct FileStore<R: Files + Drop> {
    rt: R,
    faults: u64,
    misses: u64,
}

impl<R: Files + Drop> FileStore<R> {
    pub fn new(rt: R) -> Self {
        FileStore {
            rt,
            faults: 0,
            misses: 0,
        }
    }
}

// How a piece was read.
enum Piece {
    More,
    End,
    NoMemory,
    Failed,
}

// Reads at most `room` bytes to the end of `into`.
fn read_piece<F: Read>(file: &mut F, room: u64, into: &mut Vec<u8>) -> Piece
    ensures { length into.new.items ≤ length into.old.items + room }
{
    let mut piece = [0u8; 16384];
    let most = room.min(16384) as usize;
    match file.read(&mut piece[..most]) {
        Ok(0) => Piece::End,
        Ok(count) => match into.extend_from_slice(&piece[..count]) {
            Ok(()) => Piece::More,
            Err(_) => Piece::NoMemory,
        },
        Err(_) => Piece::Failed,
    }
}

// Reads at most `most + 1` bytes, or all if there are fewer. Each turn takes a byte at least, or is the last.
fn read_front<F: Read>(file: &mut F, most: u64, into: &mut Vec<u8>) -> Loaded
    requires { into.old.items ≡ [] }
    ensures length { length into.new.items ≤ most + 1 }
    ensures other { result ≢ Loaded.Whole → into.new.items ≡ [] }
    ensures missing { result ≢ Loaded.Missing }
{
    for _ in 0..u64::MAX {
        if most < into.len() as u64 {
            return Loaded::Whole;
        }
        match read_piece(file, (most - into.len() as u64).saturating_add(1), into) {
            Piece::More => {}
            Piece::End => return Loaded::Whole,
            Piece::NoMemory => {
                into.clear();
                return Loaded::NoMemory;
            }
            Piece::Failed => {
                into.clear();
                return Loaded::Failed;
            }
        }
    }
    Loaded::Whole
}

impl<R: Files + Drop> Store for FileStore<R> {
    ghost files = { λ _. None };

    ghost faults = { λ s. s.faults };

    ghost misses = { λ s. s.misses };

    fn load(&mut self, name: &str, most: u64, into: &mut Vec<u8>) -> Loaded {
        let mut file = match fs::open(&self.rt, name) {
            Ok(file) => file,
            Err(error) if error.kind() == ErrorKind::NotFound => {
                self.misses = self.misses.saturating_add(1);
                return Loaded::Missing;
            }
            Err(_) => {
                self.faults = self.faults.saturating_add(1);
                return Loaded::Failed;
            }
        };
        let loaded = read_front(&mut file, most, into);
        if let Loaded::Failed = loaded {
            self.faults = self.faults.saturating_add(1);
        }
        loaded
    }
}
