//! The syntax of queries: their trees, read from text.
//!
//! `parse` gives the tree of a query's text, or says where and why there is none. The grammar is
//! `specs/Grammar.antt`, a case for each production; a tree of a text is what it relates to the text's
//! tokens (`IsTree`), within a bound of 64 on the height of expressions. There is at most one.
//!
//! What is refused is refused at the first token with which no query goes on, where the end of the text
//! counts as a token (`IsRefused`, specs/Places.antt): as too deep, where a query without the bound goes on
//! so, and else as unexpected. The contract of `parse` says this in both directions: an answer has its cause,
//! and a cause its answer, unless memory runs out.
//!
//! Inside, reading is recursive descent with a budget of height (`pgql_expr/specs/Reading.antt`, `Patterns.antt`,
//! `Queries.antt` say it over lists of tokens, and each function of the code ensures its part).
//!
//! The types of trees come from `pgql_tree`, and what writes them back from `pgql_print`; both are named here
//! too, so that who reads and writes queries names one crate. What `print` writes of the tree of a text is
//! read back as the same tree, apart from places, and within the same bound: that is the law
//! `printed_is_read_back` (`IsReadBack`, specs/RoundTrip.antt).
#![tactic(auto)]

mod part;
mod pattern;
mod query;
mod round_trip;
mod tree;

pub use pgql_print::{print, print_expr};
pub use pgql_tree::{Ast, AstExpr, EdgePat, Item, Key, Op, Path, Placed, VertexPat};
pub use round_trip::printed_is_read_back;
pub use tree::{SyntaxFault, parse};
