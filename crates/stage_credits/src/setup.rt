//! The numbers that no step changes.
use adfs_base::Shape;

/// The numbers that no step changes: the shape of the run, and how many roots each machine has.
#[derive(Drop)]
pub struct Setup {
    pub shape: Shape,
    /// 0 past the machines.
    pub roots: [u64; 8],
}
