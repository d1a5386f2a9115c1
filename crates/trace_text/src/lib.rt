//! The text of a trace, line by line.
//!
//! A run of the engine can be written down: first what it was run on (`Header`), then one line for each event.
//! `put_event` writes an event as a line, exactly `event_line` (specs/EventLines.antt), and `read_event` is its
//! inverse: it gives the event whose line a text is, and none exactly where it is no event's line. A number in a line is
//! decimal, without leading zeros, and below 2^32; words are parted by one space.
//!
//! Nothing here knows which events can follow one another.
#![tactic(auto)]

mod event_line;
mod fault;
mod header;
mod kind;
pub mod laws;
mod number;
mod said;
mod written;

pub use adfs_base::PartWord;
pub use dfs_worker::{Event, Guard};
pub use event_line::{put_event, read_event};
pub use fault::ReplayFault;
pub use header::{Header, read_header};
pub use written::put_header;
