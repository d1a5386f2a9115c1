//! Queries after typing.

use crate::expr::Expr;
use adfs_base::{Kind, Name};
use sqlite_items::Items;

/// A query, whose names are resolved.
#[derive(Drop)]
pub struct Query {
    /// In order of first appearance. The first is a vertex.
    pub variables: Items<Variable>,
    /// One for each edge variable, in their order.
    pub edges: Items<EdgeJoin>,
    /// The distinct uses of variables in the select list, the condition and the order keys, in order of
    /// first appearance.
    pub captures: Items<Capture>,
    /// The parts of the condition at its top-level ANDs; it is true where all are.
    pub conjuncts: Items<Expr>,
    /// The expressions of the select list with the names of their columns.
    pub select: Items<(Expr, Name)>,
    /// The order keys; the truth value says whether the order goes down.
    pub keys: Items<(Expr, bool)>,
    pub distinct: bool,
    pub limit: Option<u64>,
}

/// A variable of the pattern: a vertex or an edge.
#[derive(Drop)]
pub struct Variable {
    pub name: Option<Name>,
    pub edge: bool,
    /// The label lists of its patterns, as written. An element fits where each of them has its label.
    pub labels: Items<Items<Name>>,
}

/// The edge of the first number leads from the vertex `source` to the vertex `target`.
#[derive(Clone, Copy, Debug, PartialEq, Eq)]
pub struct EdgeJoin {
    pub edge: u32,
    pub source: u32,
    pub target: u32,
}

/// A use of a variable.
#[derive(Clone, Copy, Debug, PartialEq, Eq)]
pub struct Capture {
    pub variable: u32,
    pub what: What,
}

/// What is used of a variable.
#[derive(Clone, Copy, Debug, PartialEq, Eq)]
pub enum What {
    /// A property, by the schema's number and kind.
    Property(u32, Kind),
    /// Its key.
    Id,
    /// Its label's text.
    Label,
}
