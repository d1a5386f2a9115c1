//! Contexts on their way from one machine to a stage of another.
use crate::Buffer;

/// Contexts on their way from one machine to a stage of another.
///
/// The buffer's home is the sender, to which it goes back when all its contexts are done with.
#[derive(Drop)]
pub struct Message {
    /// The machine that sent it.
    pub from: u32,
    /// The stage of its contexts.
    pub stage: u32,
    /// The machine that is to go on with them.
    pub to: u32,
    pub items: Buffer,
}
