//! How a run ends: its status, the number and the line of it, and the statuses of the faults below.
//!
//! `Status` has a variant for each way in which a run may end. Its number is the program's exit status, and its line is
//! what a user reads (`status_number` and `status_line`, specs/StatusLine.antt). A fault of the manifest, of a table, of
//! the owner file or of a trace comes to exactly one status (specs/Faults.antt), and running out of memory is never told as a fault of a file.
#![tactic(auto)]

mod faults;
mod limits;
mod status;

pub use faults::{status_of, status_of_owners, status_of_replay};
pub use limits::passed;
pub use status::Status;
