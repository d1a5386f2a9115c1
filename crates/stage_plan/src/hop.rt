//! The kinds of hops.

/// What is done at a stage. A variable stands by its number.
#[derive(Clone, Copy, Debug, PartialEq, Eq)]
pub enum Hop {
    /// Begins at each vertex, for the variable.
    Root(u32),
    /// Goes along each edge from the current vertex, out or in, to a vertex that isn't bound yet.
    Neighbour { out: bool, edge: u32, to: u32 },
    /// Goes along each edge from the current vertex, out or in, that leads to a vertex which is bound already.
    Edge { out: bool, edge: u32, to: u32 },
    /// Goes to a vertex that is bound already.
    Inspect(u32),
    /// Gives the match.
    Output,
}
