//! Expressions after typing.

pub use typed_query::expr::Expr;
