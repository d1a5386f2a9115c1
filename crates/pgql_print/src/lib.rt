//! Queries written back as text.
//!
//! `print` and `print_expr` write the one text that specs/Printing.antt gives a tree. An expression stands in
//! parentheses only where it binds less tightly than its place needs (`spelled`).
#![tactic(auto)]

mod write;
mod write_expr;
mod written;

pub use write::{print, print_expr};
