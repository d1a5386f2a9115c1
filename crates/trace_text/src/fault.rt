//! Why a trace is refused.

use adfs_base::NoMemory;
use dfs_worker::Guard;

/// Why a trace can't be taken again. Lines are counted from 1.
#[derive(Clone, Copy, Debug, PartialEq, Eq)]
pub enum ReplayFault {
    /// The line of this number isn't of the form that its place asks for.
    BadLine(u32),
    /// At the line of this number the event isn't enabled: this guard is the first that fails.
    NotEnabled(u32, Guard),
    /// The text ends, or says that the run is finished, before it is.
    NotFinished,
    /// There was no memory.
    NoMemory,
}

impl From<NoMemory> for ReplayFault {
    ghost use Rattle.std.specs.Prelude.{◌≡◌};
    ghost use Rattle.trace_text.specs.declared.fault.ReplayFault.TheVariants as fault;

    ghost from_gives = { λ _ e. e ≡ fault.NoMemory };

    fn from(_: NoMemory) -> ReplayFault {
        ReplayFault::NoMemory
    }
}
