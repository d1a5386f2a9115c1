//! A stage, and what becomes known at it.
use crate::hop::Hop;
use crate::numbers::Numbers;

/// What becomes known at a moment. All numbers are places in the query.
#[derive(Drop)]
pub struct Gains {
    /// The captures of a variable, which are then written.
    pub captures: Numbers,
    /// The conjuncts that can then be tested.
    pub conjuncts: Numbers,
    /// The captures that these conjuncts use.
    pub reads: Numbers,
}

/// A stage of a plan.
#[derive(Drop)]
pub struct Stage {
    /// The variable whose vertex one comes to here for the first time.
    pub arriving: Option<u32>,
    /// What becomes known on arrival.
    pub arrival: Gains,
    /// The hop that is taken then.
    pub hop: Hop,
    /// The variable of the vertex from which the hop goes.
    pub current: u32,
    /// What becomes known along the hop's edge.
    pub passage: Gains,
}
