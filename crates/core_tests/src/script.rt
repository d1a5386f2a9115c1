//! The lines of the script.
use crate::bench::Bench;
use crate::report::Report;
use crate::sums::sum_up;
use adfs_base::Shape;
use dfs_worker::Event;
use std::alloc::Global;
use std::str::Split;
use world_core::Stepped;

// The next word as a number.
fn number(words: &mut Split<char>) -> Option<u32> {
    words.next()?.parse::<u32>().ok()
}

// The shape of the next six words: machines, workers, stages, credit, broad and buffer.
fn shape(words: &mut Split<char>) -> Option<Shape> {
    let machines = number(words)?;
    let workers = number(words)?;
    let stages = number(words)?;
    let credit = number(words)?;
    let broad = number(words)?;
    Shape::new(machines, workers, stages, credit, broad, number(words)?)
}

/// The world that a line `tree ..` begins.
pub fn bench(alloc: Global, line: &str) -> Option<Bench> {
    let mut words = line.split(' ');
    let _ = words.next();
    let shape = shape(&mut words)?;
    let roots = number(&mut words)?;
    let children = number(&mut words)?;
    Bench::new(alloc, &shape, u64::from(roots), u64::from(children)).ok()
}

// An event without further numbers.
fn plain(kind: &str, w: u32) -> Option<Event> {
    match kind {
        "claim" => Some(Event::Claim { w }),
        "retire" => Some(Event::Retire { w }),
        "advance" => Some(Event::Advance { w }),
        "descend" => Some(Event::Descend { w }),
        "append" => Some(Event::Append { w }),
        "charge" => Some(Event::Charge { w }),
        "fetch" => Some(Event::Fetch { w }),
        "push" => Some(Event::Push { w }),
        "pick" => Some(Event::Pick { w }),
        "restore" => Some(Event::Restore { w }),
        "discharge" => Some(Event::Discharge { w }),
        "close" => Some(Event::Close { w }),
        _ => None,
    }
}

// The event of a line.
fn event(line: &str) -> Option<Event> {
    let mut words = line.split(' ');
    let kind = words.next()?;
    let w = number(&mut words)?;
    if kind == "post" {
        let stage = number(&mut words)?;
        let to = number(&mut words)?;
        return Some(Event::Post { w, stage, to });
    }
    if kind == "pop" {
        let stage = number(&mut words)?;
        return Some(Event::Pop { w, stage });
    }
    if kind == "mark" {
        let a = number(&mut words)?;
        let b = number(&mut words)?;
        return Some(Event::Mark { w, a, b });
    }
    plain(kind, w)
}

/// The first guard that the event of a line fails.
pub fn asked(bench: &Bench, line: &str) -> Report {
    match event(line) {
        Some(event) => match bench.enabled(&event) {
            Some(guard) => Report::Barred(guard),
            None => Report::Free,
        },
        None => Report::Unread,
    }
}

/// Makes the event of a line.
pub fn made(bench: &mut Bench, line: &str) -> Report {
    match event(line) {
        Some(event) => match bench.step(&event) {
            Stepped::Done => Report::Made(sum_up(bench.world())),
            Stepped::NotEnabled(guard) => Report::Barred(guard),
            Stepped::NoMemory => Report::NoMemory,
        },
        None => Report::Unread,
    }
}
