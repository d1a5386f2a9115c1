//! An edge in the list of one of its ends, as lists keep it.

/// An edge in the list of one of its ends, without its key: 16 bytes, side by side with the others of the list.
#[derive(Clone, Copy, Debug, PartialEq, Eq)]
pub struct Link {
    /// The number of its other end.
    pub other: u32,
    /// The edge's number.
    pub edge: u32,
    /// The machine that has the other end.
    pub machine: u32,
    /// The number of the edge's label.
    pub label: u32,
}
