//! The line of an event, written and read.
ghost use Rattle.std.specs.Prelude.{◌≡◌, ◌<◌, ◌^◌, ◌++◌, ◌*◌, ◌↔◌, OnOk, Some};
ghost use Rattle.trace_text.specs.EventLines.{IsEvent, event_line, next_number};
ghost use Rattle.dfs_worker.specs.declared.event.Event.TheVariants as event;
ghost use Rattle.trace_text.specs.Reading.{event_of, event_said};

use crate::kind::{Kind, kind_named};
use crate::number::{number, pair, put_next, triple};
use adfs_base::NoMemory;
use dfs_worker::Event;
use text_lines::cut;

fn put_one(kind: &str, w: u32, out: &mut Vec<u8>) -> Result<(), NoMemory>
    ensures number { w < 2 ^ 32 }
    ensures line { OnOk result (out.new.items ≡ out.old.items ++ (kind.now ++ next_number w)) }
{
    out.extend_from_slice(kind.as_bytes())?;
    put_next(w, out)
}

fn put_two(kind: &str, w: u32, stage: u32, out: &mut Vec<u8>) -> Result<(), NoMemory>
    ensures numbers { (w < 2 ^ 32) × (stage < 2 ^ 32) }
    ensures line { OnOk result (out.new.items ≡ out.old.items ++ (kind.now ++ (next_number w ++ next_number stage))) }
{
    put_one(kind, w, out)?;
    put_next(stage, out)
}

fn put_three(kind: &str, w: u32, a: u32, b: u32, out: &mut Vec<u8>) -> Result<(), NoMemory>
    ensures numbers { (w < 2 ^ 32) × (a < 2 ^ 32) × (b < 2 ^ 32) }
    ensures line { OnOk result (out.new.items ≡ out.old.items ++ (kind.now ++ (next_number w ++ (next_number a ++ next_number b)))) }
{
    put_two(kind, w, a, out)?;
    put_next(b, out)
}

/// Writes the event's line after what is there, without a line feed.
///
/// After `NoMemory` a front of the line may stand there, so what was written is of no use.
pub fn put_event(event: &Event, out: &mut Vec<u8>) -> Result<(), NoMemory>
    ensures numbers { IsEvent event.now }
    ensures line { OnOk result (out.new.items ≡ out.old.items ++ event_line event.now) }
{
    match *event {
        Event::Claim { w } => put_one("claim", w, out),
        Event::Retire { w } => put_one("retire", w, out),
        Event::Advance { w } => put_one("advance", w, out),
        Event::Descend { w } => put_one("descend", w, out),
        Event::Append { w } => put_one("append", w, out),
        Event::Charge { w } => put_one("charge", w, out),
        Event::Fetch { w } => put_one("fetch", w, out),
        Event::Post { w, stage, to } => put_three("post", w, stage, to, out),
        Event::Push { w } => put_one("push", w, out),
        Event::Pop { w, stage } => put_two("pop", w, stage, out),
        Event::Pick { w } => put_one("pick", w, out),
        Event::Restore { w } => put_one("restore", w, out),
        Event::Discharge { w } => put_one("discharge", w, out),
        Event::Mark { w, a, b } => put_three("mark", w, a, b, out),
        Event::Close { w } => put_one("close", w, out),
    }
}

fn post(numbers: (u32, u32, u32)) -> Event
    ensures { result ≡ event.Post numbers.0 numbers.1 numbers.2 }
{
    let (w, stage, to) = numbers;
    Event::Post { w, stage, to }
}

fn pop(numbers: (u32, u32)) -> Event
    ensures { result ≡ event.Pop numbers.0 numbers.1 }
{
    let (w, stage) = numbers;
    Event::Pop { w, stage }
}

fn mark(numbers: (u32, u32, u32)) -> Event
    ensures { result ≡ event.Mark numbers.0 numbers.1 numbers.2 }
{
    let (w, a, b) = numbers;
    Event::Mark { w, a, b }
}

// The event of this kind with the numbers that the text is.
fn event_said(kind: Kind, text: &[u8]) -> Option<Event>
    ensures { result ≡ event_said kind text.now }
{
    match kind {
        Kind::Claim => number(text).map(|w| Event::Claim { w }),
        Kind::Retire => number(text).map(|w| Event::Retire { w }),
        Kind::Advance => number(text).map(|w| Event::Advance { w }),
        Kind::Descend => number(text).map(|w| Event::Descend { w }),
        Kind::Append => number(text).map(|w| Event::Append { w }),
        Kind::Charge => number(text).map(|w| Event::Charge { w }),
        Kind::Fetch => number(text).map(|w| Event::Fetch { w }),
        Kind::Post => triple(text).map(|numbers| post(numbers)),
        Kind::Push => number(text).map(|w| Event::Push { w }),
        Kind::Pop => pair(text).map(|numbers| pop(numbers)),
        Kind::Pick => number(text).map(|w| Event::Pick { w }),
        Kind::Restore => number(text).map(|w| Event::Restore { w }),
        Kind::Discharge => number(text).map(|w| Event::Discharge { w }),
        Kind::Mark => triple(text).map(|numbers| mark(numbers)),
        Kind::Close => number(text).map(|w| Event::Close { w }),
    }
}

// The event that a line says.
fn event_of(line: &[u8]) -> Option<Event>
    ensures { result ≡ event_of line.now }
{
    let (word, numbers) = cut(line)?;
    let kind = kind_named(word)?;
    event_said(kind, numbers)
}

/// The event whose line this is, without a line feed. None exactly where it is no event's line.
pub fn read_event(line: &[u8]) -> Option<Event>
    ensures exact { (event : _) → (result ≡ Some event) ↔ (IsEvent event × (line.now ≡ event_line event)) }
    ensures said { result ≡ event_of line.now }
{
    event_of(line)
}
