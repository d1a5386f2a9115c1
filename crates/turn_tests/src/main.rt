//! Tests of a worker's turn: scenes that a worker plays over a fabric that answers as it is told, and whole runs over plain tables.
//!
//! Each line of the input has a name, the numbers of a tree and a shape, and what is played, parted by `|`. What is played is
//! `run` with a seed (0 begins each turn at its first attempt), or turns, parted by commas. A turn has the number that the
//! policy answers and the words for what is ready. Of each turn the program writes what it answered, what its policy was
//! shown and how often, and which calls were made. What must come out stands in the file `stdout`. It was worked out by
//! hand, from the order of attempts and the sizes of the trees.
#![tactic(auto)]

mod climb;
mod fan;
mod runs;
mod scene;
mod script;
mod told;
mod words;

use adfs_base::NoMemory;
use std::alloc::Global;
use std::io;

/// Plays a line, and gives what is to be written.
fn play(alloc: Global, line: &str, shown: &mut String) -> Result<(), NoMemory> {
    let mut parts = line.split('|');
    let name = parts.next().unwrap_or("");
    shown.push_str(name)?;
    shown.push('\n')?;
    let numbers = parts.next().unwrap_or("");
    let played = parts.next().unwrap_or("");
    match played.trim().strip_prefix("run ") {
        Some(seed) => runs::run(alloc, numbers, seed, shown),
        None => scene::play(alloc, numbers, played, shown),
    }
}

fn main(rt: HostRuntime) -> io::Result<()> {
    let alloc = rt.alloc();
    for line in rt.lines(alloc) {
        let line = line?;
        let mut shown = String::new(alloc);
        match play(alloc, line.as_str(), &mut shown) {
            Ok(()) => print!(rt; "{shown}")?,
            Err(_) => println!(rt; "out of memory")?,
        }
    }
    Ok(())
}
