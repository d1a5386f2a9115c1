//! The trees of queries.
//!
//! A tree is plain data: `Ast` has the parts of a query in the order in which they are written, and an
//! `AstExpr` is an expression. Each node and each name knows its place, the byte of the file of queries at
//! which its first token stands, for those who tell where a fault is.
//!
//! `Ast::same` compares two trees apart from their places (`AreSame`, specs/Same.antt), and `same_expr` two expressions. What a tree holds is
//! counted by `query_literals` (its text literals, specs/Literals.antt) and `query_places` (its places,
//! specs/AllPlaces.antt).
#![tactic(auto)]

mod ast;
mod content;
mod labels;
mod level;
mod same;

pub use ast::{Ast, AstExpr, EdgePat, Item, Key, Op, Path, Placed, VertexPat};
pub use content::Content;
pub use labels::Labels;
pub use level::Level;
pub use same::same_expr;
