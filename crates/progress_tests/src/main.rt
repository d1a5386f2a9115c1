//! Tests of whole runs of the core: small trees, many shapes, and both policies.
//!
//! Each line of the input has a name, and after `|` the numbers of a tree, of a shape, and of seeds (words.rt). The tree is run from
//! the first attempts and by each seed, in one call and event by event. Of each line the program writes how many leaves
//! there are, and of how many runs the rows were these, each once, and the events within the work, the last of them
//! just when all stages were closed. Leaves and work are counted here by plain sums.
#![tactic(auto)]

mod leaves;
mod runs;
mod tree;
mod words;

use adfs_base::NoMemory;
use std::alloc::Global;
use std::io;

/// Runs what a line says, and shows what came of it.
fn play(alloc: Global, line: &str) -> Result<String, NoMemory> {
    let mut parts = line.split('|');
    let name = parts.next().unwrap_or("").trim();
    let Some(scene) = words::setting(parts.next().unwrap_or("")) else {
        return Ok(format!(in alloc; "{name}: no such shape")?);
    };
    let tally = runs::run(alloc, &scene)?;
    let leaves = leaves::count(&scene.fan);
    let (runs, at_once, by_events, ended) = (
        tally.runs,
        tally.at_once,
        tally.by_events,
        tally.ended,
    );
    Ok(format!(in alloc;
        "{name}: {leaves} leaves; {runs} runs: {at_once} at once, {by_events} by events, {ended} to the end"
    )?)
}

fn main(rt: HostRuntime) -> io::Result<()> {
    let alloc = rt.alloc();
    for line in rt.lines(alloc) {
        let line = line?;
        match play(alloc, line.as_str()) {
            Ok(text) => println!(rt; "{text}")?,
            Err(_) => println!(rt; "out of memory")?,
        }
    }
    Ok(())
}
