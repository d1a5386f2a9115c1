//! An edge in the list of one of its ends.

/// An edge in the list of one of its ends.
#[derive(Clone, Copy, Debug, PartialEq, Eq)]
pub struct Adjacent {
    /// The edge's number.
    pub edge: u32,
    /// The edge's key.
    pub key: i64,
    /// The number of its other end.
    pub other: u32,
    /// The machine that has the other end.
    pub machine: u32,
    /// The number of the edge's label.
    pub label: u32,
}
