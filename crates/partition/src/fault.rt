//! Why an owner file isn't accepted.
use adfs_base::NoMemory;
use std::alloc::{AllocError, AllocFailed};

/// Why an owner file isn't accepted.
#[derive(Clone, Copy, Debug, PartialEq, Eq)]
pub enum PartFault {
    /// The line of this number isn't a vertex's key, a space and a number, or an earlier line has that key.
    BadOwnerLine(u32),
    /// The line of this number names a machine that there isn't.
    OwnerOutOfRange(u32),
    /// No line has this key, and each vertex with a lower number has a line.
    OwnerMissing(i64),
    /// Memory ran out.
    NoMemory,
}

impl From<AllocError> for PartFault {
    ghost use Rattle.std.specs.Prelude.{◌≡◌};
    ghost use Rattle.partition.specs.declared.fault.PartFault.TheVariants as fault;

    ghost from_gives = { λ _ e. e ≡ fault.NoMemory };

    fn from(_: AllocError) -> PartFault {
        PartFault::NoMemory
    }
}

impl<T: Drop> From<AllocFailed<T>> for PartFault {
    ghost use Rattle.std.specs.Prelude.{◌≡◌};
    ghost use Rattle.partition.specs.declared.fault.PartFault.TheVariants as fault;

    ghost from_gives = { λ _ e. e ≡ fault.NoMemory };

    fn from(_: AllocFailed<T>) -> PartFault {
        PartFault::NoMemory
    }
}

impl From<NoMemory> for PartFault {
    ghost use Rattle.std.specs.Prelude.{◌≡◌};
    ghost use Rattle.partition.specs.declared.fault.PartFault.TheVariants as fault;

    ghost from_gives = { λ _ e. e ≡ fault.NoMemory };

    fn from(_: NoMemory) -> PartFault {
        PartFault::NoMemory
    }
}
