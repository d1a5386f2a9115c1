//! Queries whose names are resolved, and the values of their expressions.
//!
//! A query is plain data: variables and captures go by their numbers, and an expression's use of a variable is
//! the place of its captured value. What each query keeps to, whoever takes it, is `IsWellFormed`
//! (specs/WellFormed.antt); who makes a query from a text's tree, makes such a one.
//!
//! An expression is seen as the tree that it is. `value` gives exactly its value (`val`, specs/Val.antt) over
//! captured values: SQL's three-valued logic, whole numbers of 64 bits where a result that they lack is null,
//! and comparisons of two values of one kind. It answers for every tree and takes no memory, and what it gives
//! is valid under the texts if the tree's constants and the captured values are (`laws::values_are_valid`).
#![tactic(auto)]

mod evaluate;
pub mod expr;
pub mod laws;
pub mod query;

pub use evaluate::{passes, value};
pub use expr::Expr;
pub use query::{Capture, EdgeJoin, Query, Variable, What};
