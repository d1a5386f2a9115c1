//! The operators with two sides.

ghost use Rattle.std.specs.Prelude.{◌≡◌};
ghost use Rattle.pgql_lexemes.specs.Operators as spec;

use crate::kind::Kind;
use pgql_tree::{Level, Op};

/// The operator of a chain of this level that tokens of this kind are.
pub fn operator(level: Level, kind: Kind) -> Option<Op>
    ensures { result ≡ spec.operator level kind }
{
    match level {
        Level::Or => match kind {
            Kind::Or => Some(Op::Or),
            _ => None,
        },
        Level::And => match kind {
            Kind::And => Some(Op::And),
            _ => None,
        },
        Level::Sum => match kind {
            Kind::Plus => Some(Op::Add),
            Kind::Minus => Some(Op::Subtract),
            _ => None,
        },
        Level::Product => match kind {
            Kind::Star => Some(Op::Multiply),
            Kind::Slash => Some(Op::Divide),
            Kind::Percent => Some(Op::Remainder),
            _ => None,
        },
        _ => None,
    }
}

/// The comparison that tokens of this kind are.
pub fn comparison(kind: Kind) -> Option<Op>
    ensures { result ≡ spec.comparison kind }
{
    match kind {
        Kind::Equal => Some(Op::Equal),
        Kind::Unequal => Some(Op::Unequal),
        Kind::Less => Some(Op::Less),
        Kind::LessEqual => Some(Op::LessEqual),
        Kind::Greater => Some(Op::Greater),
        Kind::GreaterEqual => Some(Op::GreaterEqual),
        _ => None,
    }
}
