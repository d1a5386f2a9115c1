//! The shape of a run: its machines, workers, stages, credits and buffers.
ghost use Rattle.std.specs.Prelude.{◌≡◌, ◌≤◌, ◌↔◌, Option, IsSome, IfSome};
ghost use Rattle.adfs_base.specs.Shape.{IsShape, limit_of, pool_of, need_of, contexts_of};

use crate::{BROAD_BUDGET, BUFFER_CONTEXTS, CREDITS, MACHINES, MOST_STAGES, WORKERS};
use std::marker::Model;

/// The numbers of a run: how many machines, workers and stages there are, and what may be under way between them.
///
/// They are within their limits. A contract sees them as `Extents`.
#[derive(Clone, Copy, Debug)]
pub struct Shape {
    machines: u32,
    workers: u32,
    stages: u32,
    credit: u32,
    broad: u32,
    buffer: u32,
}

impl Model for Shape {
    ghost use Rattle.adfs_base.specs.Shape.{Extents, IsShape};

    ghost Value = { Extents };

    ghost view = { λ s. record { machines = s.machines; workers = s.workers; stages = s.stages; credit = s.credit; broad = s.broad; buffer = s.buffer } };

    ghost invariant = { λ s. IsShape (record { machines = s.machines; workers = s.workers; stages = s.stages; credit = s.credit; broad = s.broad; buffer = s.buffer }) };

    ghost inverse = { λ s. record { machines = s.machines; workers = s.workers; stages = s.stages; credit = s.credit; broad = s.broad; buffer = s.buffer } };
}

impl Shape {
    /// The shape of these numbers; none where one of them is outside its limit.
    ///
    /// There are 1 to 8 machines with 1 to 8 workers each, and 1 to 26 stages. A machine may have 1 to 8 buffers
    /// (`credit`) under way to each later stage of each other machine, and 0 to 16 (`broad`) to each of its own. A
    /// buffer has room for 1 to 64 contexts.
    pub fn new(
        machines: u32,
        workers: u32,
        stages: u32,
        credit: u32,
        broad: u32,
        buffer: u32,
    ) -> Option<Shape>
        ensures some { IfSome result (λ shape. shape ≡ record { machines = machines; workers = workers; stages = stages; credit = credit; broad = broad; buffer = buffer }) }
        ensures within { IsSome result ↔ IsShape (record { machines = machines; workers = workers; stages = stages; credit = credit; broad = broad; buffer = buffer }) }
    {
        let tables = 1 <= machines && machines <= MACHINES && 1 <= workers && workers <= WORKERS;
        let budgets = 1 <= credit && credit <= CREDITS && broad <= BROAD_BUDGET;
        let stacks = 1 <= stages
            && stages <= MOST_STAGES
            && 1 <= buffer
            && buffer <= BUFFER_CONTEXTS;
        if tables && budgets && stacks {
            Some(Shape {
                machines,
                workers,
                stages,
                credit,
                broad,
                buffer,
            })
        } else {
            None
        }
    }

    /// The number of machines, 1 to 8.
    pub fn machines(&self) -> u32
        ensures number { result ≡ self.now.machines }
        ensures sound { IsShape self.now }
    {
        self.machines
    }

    /// The workers of each machine, 1 to 8.
    pub fn workers(&self) -> u32
        ensures number { result ≡ self.now.workers }
        ensures sound { IsShape self.now }
    {
        self.workers
    }

    /// The number of stages, 1 to 26.
    pub fn stages(&self) -> u32
        ensures number { result ≡ self.now.stages }
        ensures sound { IsShape self.now }
    {
        self.stages
    }

    /// The buffers that a machine may have under way to a stage of another machine, 1 to 8.
    pub fn credit(&self) -> u32
        ensures number { result ≡ self.now.credit }
        ensures sound { IsShape self.now }
    {
        self.credit
    }

    /// The buffers that a machine may have under way to a stage of its own, 0 to 16.
    pub fn broad(&self) -> u32
        ensures number { result ≡ self.now.broad }
        ensures sound { IsShape self.now }
    {
        self.broad
    }

    /// The contexts that a buffer has room for, 1 to 64.
    pub fn buffer(&self) -> u32
        ensures number { result ≡ self.now.buffer }
        ensures sound { IsShape self.now }
    {
        self.buffer
    }

    /// How many buffers one machine may have under way to one stage of another, or of its own.
    pub fn limit(&self, from: u32, to: u32) -> u32
        ensures { result ≡ limit_of self.now from to }
    {
        if from == to { self.broad } else { self.credit }
    }

    /// The buffers of one machine: as many as it may have under way to all stages of all machines.
    pub fn pool(&self) -> u64
        ensures number { result ≡ pool_of self.now }
        ensures bounded { result ≤ 14400 }
    {
        let each_stage = self.broad + (self.machines - 1) * self.credit;
        u64::from((self.stages - 1) * each_stage)
    }

    /// The buffers of all machines.
    pub fn need(&self) -> u64
        ensures number { result ≡ need_of self.now }
        ensures bounded { result ≤ 115200 }
    {
        u64::from(self.machines) * self.pool()
    }

    /// The most contexts that stand in buffers, in frames and as waiting children at any moment.
    pub fn contexts(&self) -> u64
        ensures { result ≡ contexts_of self.now }
    {
        let places = 2 * self.stages * self.machines * self.workers;
        u64::from(self.buffer) * self.need() + u64::from(places)
    }
}
