//! The program: the top call over the real files and standard output.
//!
//! All that it does stands in `adfs_top::adfs_run_serial`, whose contract says what a run comes to. The two ends
//! that no proof can see through are `FileStore` and `StreamSink` of `process_io`.
#![tactic(auto)]

use adfs_top::{Status, adfs_run_serial};
use process_io::{FileStore, StreamSink, words};
use std::io;
use std::process::ExitCode;

fn main(rt: HostRuntime) -> io::Result<ExitCode> {
    let alloc = rt.alloc();
    let mut store = FileStore::new(rt.clone()?);
    let mut sink = StreamSink::new(rt.stdout());
    let status = match words(&rt, alloc) {
        Ok(words) => adfs_run_serial(alloc, &words, &mut store, &mut sink),
        Err(_) => Status::NoMemory,
    };
    let mut line = Vec::new(alloc);
    if status.put_line(alloc, &mut line).is_ok() {
        let _ = rt.stderr().write_all(&line);
    }
    Ok(ExitCode::from(status.number() as u8))
}
