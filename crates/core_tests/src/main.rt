//! The core, driven by a script: trees, events and questions by line, and what came of each.
//!
//! A line is one of these, with numbers between 0 and 2^32:
//! - `tree MACHINES WORKERS STAGES CREDIT BROAD BUFFER ROOTS CHILDREN` begins a world over a fan (tree.rt);
//! - an event, as `post 0 1 2`, is made, and `? EVENT` asks for the first of its guards that fails;
//! - `counts` tells all numbers of the world;
//! - a heading begins with `#` and is written as it is.
//!
//! After each event that was made come the sums of the world, and how many of its sums don't hold (sums.rt). What the
//! script answers is computed by tests/core_cases, a program of its own written from the table of events alone.
#![tactic(auto)]

mod bench;
mod counts;
mod report;
mod script;
mod sums;
mod tree;

use bench::Bench;
use counts::Counts;
use report::Report;
use std::alloc::Global;
use std::io;

// What a line comes to. The bench is the world that the last `tree` began.
fn answer(alloc: Global, bench: &mut Option<Bench>, line: &str) -> Report {
    if line.starts_with("tree ") {
        *bench = script::bench(alloc, line);
        return Report::Begun(bench.is_some());
    }
    let Some(bench) = bench else {
        return Report::NoWorld;
    };
    if line == "counts" {
        return Report::Counts;
    }
    if let Some(event) = line.strip_prefix("? ") {
        return script::asked(bench, event);
    }
    script::made(bench, line)
}

fn main(rt: HostRuntime) -> io::Result<()> {
    let alloc = rt.alloc();
    let mut bench = None;
    for line in rt.lines(alloc) {
        let line = line?;
        if line.as_str().starts_with('#') {
            println!(rt; "{line}")?;
            continue;
        }
        let report = answer(alloc, &mut bench, line.as_str());
        match (report, &bench) {
            (Report::Counts, Some(bench)) => println!(rt;
                "{}",
                Counts {
                    world: bench.world()
                }
            )?,
            _ => println!(rt; "{report}")?,
        }
    }
    Ok(())
}
