//! A level of a worker's stack.
use crate::{Context, Message};

/// One level of a worker's stack: a context, and how far the worker has come with it.
#[derive(Drop)]
pub struct Frame {
    /// The stage of its context.
    pub stage: u32,
    /// The context that is being expanded.
    pub context: Context,
    /// How many answers the context has given, as `Expand::next` counts them.
    pub place: u64,
    /// The child that waits to be taken on, and its machine. It is of the following stage.
    pub wait: Option<(Context, u32)>,
    /// What follows when the context has ended.
    pub rest: Rest,
}

/// What a frame goes on with when its context has ended.
#[derive(Drop)]
pub enum Rest {
    /// Nothing: it is a child of the frame below, and goes when its context has ended.
    None,
    /// The roots of the worker's machine from `next` up to `end`, of a chunk that the worker claimed.
    Roots {
        next: u64,
        end: u64,
    },
    /// The contexts of a message from place `next` on. It is over when the last of them has ended, and then
    /// stays until its buffer is given back.
    Items {
        message: Message,
        next: u32,
        over: bool,
    },
}
