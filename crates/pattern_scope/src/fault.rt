//! Why a query means nothing.

use adfs_base::NoMemory;
use std::alloc::AllocError;

/// Why a query means nothing, and where in the file. Of several reasons it is the one of the least place,
/// and of several there the one that stands first here.
#[derive(Clone, Copy, Debug, PartialEq, Eq)]
pub enum TypeFault {
    /// A name in an expression is no variable and, alone in an order key, no AS name; the name's place.
    UnknownName(u32),
    /// No vertex table (for a vertex) or edge table (for an edge) has the property; the place of the use.
    UnknownProperty(u32),
    /// An operand has a wrong kind, or the condition isn't a truth value. The place is that of the first
    /// wrong operand of arithmetic or logic, of a comparison's right side, or of the condition.
    KindMismatch(u32),
    /// An edge name on a second edge pattern, or a second equal AS name; the second name's place.
    DoubleName(u32),
    /// The pattern here brings the 11th vertex or the 13th edge variable.
    TooManyVariables(u32),
    /// The vertex that this pattern is the first of isn't joined with the first one by edge patterns.
    Disconnected(u32),
    /// A vertex name on an edge pattern or the reverse, at the later name; or a variable alone as a value.
    VariableKind(u32),
    /// With DISTINCT an order key is no select item's expression; the key's place.
    KeyNotSelected(u32),
    /// The text after DATE isn't ten bytes `DDDD-DD-DD` that name a civil date; the place of DATE.
    BadDate(u32),
    /// Memory ran out.
    NoMemory,
}

impl From<AllocError> for TypeFault {
    ghost use Rattle.std.specs.Prelude.{◌≡◌};
    ghost use Rattle.pattern_scope.specs.declared.fault.TypeFault.TheVariants.{NoMemory};

    ghost from_gives = { λ _ e. e ≡ NoMemory };

    fn from(_: AllocError) -> TypeFault {
        TypeFault::NoMemory
    }
}

impl From<NoMemory> for TypeFault {
    ghost use Rattle.std.specs.Prelude.{◌≡◌};
    ghost use Rattle.pattern_scope.specs.declared.fault.TypeFault.TheVariants as fault;

    ghost from_gives = { λ _ e. e ≡ fault.NoMemory };

    fn from(_: NoMemory) -> TypeFault {
        TypeFault::NoMemory
    }
}
