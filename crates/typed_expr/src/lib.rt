//! What queries mean: the variables and properties that their names stand for.
//!
//! `type_query` gives exactly the query that a tree means, or the first reason why it means nothing (`typed`,
//! specs/Typed.antt). A query's faults are a list: those of its patterns and of vertices that no edge joins (both of
//! `pattern_scope`), of its expressions (specs/Kinds.antt), and of its AS names and order keys. The one of the least
//! place is told, and of several there the one of the least number. Where there is none, names give way to numbers:
//! an expression's use of a variable is the place of its captured value (specs/Uses.antt, specs/Meaning.antt).
//!
//! Queries after typing and the values of their expressions are those of `typed_query`, and go by the same
//! names here. What `type_query` gives is well formed (`IsWellFormed`), its constants are valid under the texts, so
//! that `value` may take each of its expressions, and its captures have the schema's kinds (`HaveKinds`).
#![tactic(auto)]

mod build;
mod capture_set;
mod captures;
mod environment;
pub mod expr;
pub mod fault;
mod faults;
mod items;
mod kinds;
pub mod laws;
mod meaning;
mod printed;
pub mod query;
pub mod scope;
mod selected;
mod typing;
mod uses;

pub use expr::Expr;
pub use fault::TypeFault;
pub use literal_texts::literal_count;
pub use query::{Capture, EdgeJoin, Query, Variable, What};
pub use typed_query::{passes, value};
pub use typing::type_query;
