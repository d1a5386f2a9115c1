//! The outside of the process: files by their paths, a stream to write to, and the words of its command line.
//!
//! `FileStore` and `StreamSink` are the real forms of the traits `Store` and `Sink`. They tell nothing of what a file or
//! a stream holds, since no contract can; they count their faults and misses as the traits ask, so a caller's clauses about
//! causes hold over them. `FileStore::load` reads at most one byte more than it is asked for. That the operating
//! system does what it is asked is trusted.
#![tactic(auto)]

mod command_line;
mod file_store;
mod stream_sink;

pub use command_line::words;
pub use file_store::FileStore;
pub use stream_sink::StreamSink;

#[cfg(test)]
mod tests;
