//! Expressions after typing.

use adfs_base::Value;
use pgql_tree::Op;
use sqlite_items::Boxed;

/// An expression over captured values. Its names are gone: a use of a variable is the place of its value
/// among the captures.
#[derive(Drop)]
pub enum Expr {
    /// A literal.
    Constant(Value),
    /// The captured value of this place.
    Captured(u32),
    Not(Boxed<Expr>),
    /// A sign minus.
    Neg(Boxed<Expr>),
    /// `IS NULL`, or `IS NOT NULL` where the truth value is true.
    IsNull(Boxed<Expr>, bool),
    /// An operator with its left and its right side.
    Binary(Op, Boxed<Expr>, Boxed<Expr>),
}
