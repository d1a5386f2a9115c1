//! What reading an expression gives.

use pgql_tree::AstExpr;

/// An expression, and the least height that its tokens have.
#[derive(Drop)]
pub struct Found {
    pub expr: AstExpr,
    pub height: u32,
}
