//! What a line of the script comes to.
use crate::sums::Sums;
use dfs_worker::Guard;
use std::fmt;

/// The answer to a line.
#[derive(Clone, Copy, Debug)]
pub enum Report {
    /// A world began, if the numbers are a shape's.
    Begun(bool),
    /// There is no world yet.
    NoWorld,
    /// The line is none of the script's.
    Unread,
    /// The event was made, and these are the sums since.
    Made(Sums),
    /// The first guard that fails.
    Barred(Guard),
    /// All guards of the event hold.
    Free,
    /// Memory ran out for the event's row.
    NoMemory,
    /// All numbers of the world are asked for.
    Counts,
}

// The number of a guard.
fn number(guard: Guard) -> u32 {
    match guard {
        Guard::Worker => 1,
        Guard::Hand => 2,
        Guard::Stack => 3,
        Guard::Child => 4,
        Guard::Over => 5,
        Guard::Local => 6,
        Guard::Room => 7,
        Guard::Open => 8,
        Guard::Limit => 9,
        Guard::Enrolled => 10,
        Guard::Roots => 11,
        Guard::Pool => 12,
        Guard::Inbox => 13,
        Guard::Above => 14,
        Guard::Word => 15,
        Guard::Marks => 16,
        Guard::Flying => 17,
    }
}

impl fmt::Display for Report {
    fn fmt<W: fmt::Write>(&self, f: &mut fmt::Formatter<W>) -> fmt::Result {
        match self {
            Report::Begun(true) => write!(f, "begun"),
            Report::Begun(false) => write!(f, "no shape"),
            Report::NoWorld => write!(f, "no world"),
            Report::Unread => write!(f, "no event"),
            Report::Made(sums) => write!(f, "{sums}"),
            Report::Barred(guard) => write!(f, "guard {}", number(*guard)),
            Report::Free => write!(f, "free"),
            Report::NoMemory => write!(f, "no memory"),
            Report::Counts => write!(f, "counts"),
        }
    }
}
