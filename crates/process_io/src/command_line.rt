//! The words with which the process was begun.
use adfs_base::NoMemory;
use std::alloc::Global;
use std::env::FillError;
use std::rt::Env;

// The most bytes that Linux lets one word have.
const LONGEST: usize = 131_072;

// No command takes this word, wherever it stands. It stands for one that isn't UTF-8.
const FOREIGN: &str = "\u{1}";

fn word(alloc: Global, bytes: &[u8]) -> Result<String, NoMemory> {
    let text = str::from_utf8(bytes).unwrap_or(FOREIGN);
    Ok(String::from_str(alloc, text)?)
}

/// The words after the program's name. One that isn't UTF-8 is replaced by one that no command takes, so that
/// it is refused at its place.
pub fn words(rt: &impl Env, alloc: Global) -> Result<Vec<String>, NoMemory> {
    let mut buffer = vec![in alloc; 0u8; LONGEST]?;
    let mut words = Vec::new(alloc);
    for place in 1..usize::MAX {
        match rt.arg(place, &mut buffer) {
            Ok(len) => words.push(word(alloc, &buffer[..len])?)?,
            Err(FillError::TooLong) => words.push(word(alloc, FOREIGN.as_bytes())?)?,
            Err(FillError::NotPresent) => break,
        }
    }
    Ok(words)
}
