//! Trees of queries.
//!
//! An `at` is a place: a byte of the file of queries, counted from 0. A node's place is that of its first
//! token; parentheses leave no node, and those round a node are not counted.

use crate::content::Content;
use crate::labels::Labels;
use adfs_base::Name;
use sqlite_items::{Boxed, Items};

/// A query: `SELECT [DISTINCT] items MATCH paths [WHERE condition] [ORDER BY keys] [LIMIT limit]`.
#[derive(Drop)]
pub struct Ast {
    pub distinct: bool,
    /// At least one.
    pub items: Items<Item>,
    /// At least one.
    pub paths: Items<Path>,
    pub condition: Option<AstExpr>,
    /// Empty where there is no ORDER BY.
    pub keys: Items<Key>,
    pub limit: Option<u64>,
}

/// A name, and the place of its token.
#[derive(Drop)]
pub struct Placed {
    pub name: Name,
    pub at: u32,
}

/// A select item, with its AS name where it has one. Its place is that of its expression.
#[derive(Drop)]
pub struct Item {
    pub expr: AstExpr,
    pub name: Option<Boxed<Placed>>,
    pub at: u32,
}

/// A vertex pattern, and each further one with the edge pattern before it. Its place is that of `first`.
#[derive(Drop)]
pub struct Path {
    pub first: VertexPat,
    pub steps: Items<(EdgePat, VertexPat)>,
}

/// `(name:label|label ..)`. Its place is that of its opening parenthesis.
#[derive(Drop)]
pub struct VertexPat {
    pub name: Option<Boxed<Placed>>,
    /// Empty where any label will do.
    pub labels: Labels,
    pub at: u32,
}

/// `-[name:label|label ..]->`, or `<-[..]-` where `out` is false. Its place is that of its first token.
#[derive(Drop)]
pub struct EdgePat {
    pub name: Option<Boxed<Placed>>,
    /// Empty where any label will do.
    pub labels: Labels,
    /// Whether the edge leads from the vertex on its left to that on its right.
    pub out: bool,
    pub at: u32,
}

/// An order key: down where DESC stands, else up. Its place is that of its expression.
#[derive(Drop)]
pub struct Key {
    pub expr: AstExpr,
    pub down: bool,
    pub at: u32,
}

/// An expression.
///
/// A node takes 24 bytes: fields lie in this order, small ones first where there are two others, and what is greater
/// stands in memory of its own.
#[derive(Drop)]
pub enum AstExpr {
    /// A number as it is written, so never below 0.
    Int {
        number: i64,
        at: u32,
    },
    /// A text literal. `content` is UTF-8, with each doubled quote as one.
    Text {
        content: Content,
        at: u32,
    },
    /// `DATE 'content'`. Whether it is the date of a day is not looked at here.
    Date {
        content: Content,
        at: u32,
    },
    Bool {
        truth: bool,
        at: u32,
    },
    /// A variable or an AS name, alone.
    Name {
        at: u32,
        name: Name,
    },
    /// `variable.property`
    Property {
        at: u32,
        variable: Boxed<Name>,
        property: Boxed<Name>,
    },
    /// `id(variable)`
    Id {
        variable: Boxed<Placed>,
        at: u32,
    },
    /// `label(variable)`
    Label {
        variable: Boxed<Placed>,
        at: u32,
    },
    Not {
        inside: Boxed<AstExpr>,
        at: u32,
    },
    /// A sign minus.
    Neg {
        inside: Boxed<AstExpr>,
        at: u32,
    },
    /// `inside IS NULL`, or `inside IS NOT NULL` where `negated`.
    IsNull {
        inside: Boxed<AstExpr>,
        negated: bool,
        at: u32,
    },
    /// Two sides with an operator between them.
    Binary {
        op: Op,
        at: u32,
        left: Boxed<AstExpr>,
        right: Boxed<AstExpr>,
    },
}

/// The operators with two sides.
#[derive(Clone, Copy, Debug, PartialEq, Eq)]
pub enum Op {
    Or,
    And,
    Equal,
    Unequal,
    Less,
    LessEqual,
    Greater,
    GreaterEqual,
    Add,
    Subtract,
    Multiply,
    Divide,
    Remainder,
}
