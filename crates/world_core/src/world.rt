//! All workers and what they share, as one value.
ghost use Rattle.std.specs.Prelude.{◌≡◌, ◌*◌, ◌<◌, ◌≤◌, ◌↔◌, IsTrue, IfOk, OnOk, OnErr, [], length, vec_capacity, slice_get, Some, None};
ghost use Rattle.dfs_worker.specs.declared.event.Event.TheVariants as kind;
ghost use Rattle.dfs_worker.specs.Sound.{IsWorker};
ghost use Rattle.world_core.specs.Advances.{AreMade};
ghost use Rattle.world_core.specs.Sound.{Sound};
ghost use Rattle.world_core.specs.Reach.{CanReach};
ghost use Rattle.world_core.specs.Rows.{IsFinished, all_rows, rows_at, without_rows_at};
ghost use Rattle.adfs_base.specs.Shape.{IsShape};
ghost use Rattle.world_core.specs.Owed.{owed};
ghost use Rattle.world_core.specs.Sound.{Sound};
ghost use Rattle.world_core.specs.Step.{guard_of};
ghost use Rattle.world_core.specs.Stepped.{IsStepped, IfDone, stepped_of};
ghost use Rattle.world_core.specs.Work.{work_left};
ghost use Rattle.world_core.specs.World.{Fits, world_of, fresh_workers, roots_of, start_world};

use crate::events::make;
use crate::gather::take_all;
use crate::guards::{first_guard, worker_of};
use crate::stepped::Stepped;
use adfs_base::{NoMemory, Shape};
use dfs_worker::{Event, Guard, Worker};
use fabric::PlainFabric;
use match_context::{Context, Expand};
use std::alloc::Global;
use std::marker::Model;

/// All workers and what they share. A contract sees it as the record of the two, and it is always sound.
#[derive(Drop)]
pub struct World {
    workers: Vec<Worker>,
    fabric: PlainFabric,
}

impl Model for World {
    ghost use Rattle.world_core.specs.World.{World as Core, world_of};
    ghost use Rattle.world_core.specs.Sound.{Sound};

    ghost Value = { Core };

    ghost view = { λ w. world_of w.workers.items w.fabric };

    ghost invariant = { λ w. Sound (world_of w.workers.items w.fabric) };
}

// The answer of a step whose guards hold.
fn stepped(made: Result<(), NoMemory>) -> Stepped
    ensures { result ≡ stepped_of made }
{
    match made {
        Ok(()) => Stepped::Done,
        Err(_) => Stepped::NoMemory,
    }
}

impl World {
    /// The workers, in the order of their numbers.
    pub fn workers(&self) -> &[Worker]
        ensures workers { result.now ≡ self.now.workers }
        ensures sound { Sound self.now }
    {
        &self.workers
    }

    /// The worker of this number.
    #[inline(always)]
    pub fn worker(&self, w: u32) -> &Worker
        requires { w < length self.now.workers }
        ensures at { slice_get self.now.workers w ≡ Some result.now }
        ensures worker { IsWorker result.now }
        ensures sound { Sound self.now }
    {
        &self.workers[w as usize]
    }

    /// What they share.
    pub fn fabric(&self) -> &PlainFabric
        ensures { result.now ≡ self.now.shared }
    {
        &self.fabric
    }

    /// How many stages are closed. None of these can be reached again.
    pub fn closed(&self) -> u32
        ensures closed { result ≡ self.now.shared.closed }
        ensures stays { (stage : _) → stage < result → CanReach self.now stage → ⊥ }
    {
        self.fabric.closed_at()
    }

    /// Whether all stages are closed: nothing is left to do.
    pub fn finished(&self) -> bool
        ensures { IsTrue result ↔ IsFinished self.now }
    {
        self.fabric.closed_at() == self.fabric.shape().stages()
    }

    /// The first guard of the event that fails. None exactly where all hold.
    pub fn enabled<X: Expand>(&self, x: &X, event: &Event) -> Option<Guard>
        ensures { result ≡ guard_of self.now event.now }
    {
        let _ = x;
        self.guard(event)
    }

    /// The same, which no tree has a say in.
    #[inline(always)]
    pub fn guard(&self, event: &Event) -> Option<Guard>
        ensures { result ≡ guard_of self.now event.now }
    {
        first_guard(&self.workers, &self.fabric, event)
    }

    /// Makes the event's change, where all its guards hold. It leaves less work (`work_left`), so no run goes on for ever.
    pub fn step<X: Expand>(&mut self, x: &X, event: &Event) -> Stepped
        requires { Fits (X.tree x.now) self.old.shared }
        ensures stepped { IsStepped (X.tree x.now) self.old event.now result self.new }
        ensures fits { Fits (X.tree x.now) self.new.shared }
        ensures owed { (row : _) → owed row (X.tree x.now) self.old ≡ owed row (X.tree x.now) self.new }
        ensures work { IfDone result (work_left (X.tree x.now) self.new < work_left (X.tree x.now) self.old) }
        ensures closed { self.old.shared.closed ≤ self.new.shared.closed }
    {
        match self.guard(event) {
            Some(guard) => Stepped::NotEnabled(guard),
            None => stepped(self.make(x, event)),
        }
    }

    /// Makes the change of an event all of whose guards hold. After `NoMemory`, which only a row may meet, nothing is
    /// changed.
    pub fn make<X: Expand>(&mut self, x: &X, event: &Event) -> Result<(), NoMemory>
        requires fits { Fits (X.tree x.now) self.old.shared }
        requires enabled { guard_of self.old event.now ≡ None }
        ensures stepped { IsStepped (X.tree x.now) self.old event.now (stepped_of result) self.new }
        ensures fits { Fits (X.tree x.now) self.new.shared }
        ensures owed { (row : _) → owed row (X.tree x.now) self.old ≡ owed row (X.tree x.now) self.new }
        ensures work { OnOk result (work_left (X.tree x.now) self.new < work_left (X.tree x.now) self.old) }
        ensures closed { self.old.shared.closed ≤ self.new.shared.closed }
    {
        let at = worker_of(event) as usize;
        make(&mut self.workers[at], &mut self.fabric, x, event)
    }

    /// Whether the worker's top has an answer to give now.
    #[inline(always)]
    pub fn may_advance(&self, w: u32) -> bool
        ensures { IsTrue result ↔ (guard_of self.now (kind.Advance w) ≡ None) }
    {
        match self.workers.get(w as usize) {
            Some(worker) => worker.may_advance(),
            None => false,
        }
    }

    /// Makes answers of the worker's top in one go, each an event of its own: some of which nothing comes, and one more. It
    /// tells how many gave nothing. After `NoMemory`, which only a row may meet, nothing is changed.
    pub fn advance<X: Expand>(&mut self, x: &X, w: u32) -> Result<u64, NoMemory>
        requires fits { Fits (X.tree x.now) self.old.shared }
        requires enabled { guard_of self.old (kind.Advance w) ≡ None }
        ensures made { IfOk result (λ passed. AreMade (X.tree x.now) self.old w passed self.new) }
        ensures err { OnErr result (self.new ≡ self.old) }
    {
        self.workers[w as usize].advance_on(x)
    }
}

impl World {
    /// Hands out the rows of a worker, and leaves it none. They are the worker's own list, so no memory is taken.
    pub fn take_rows(&mut self, w: u32) -> Vec<Context>
        requires { w < length self.old.workers }
        ensures rows { result.items ≡ rows_at self.old.workers w }
        ensures left { self.new ≡ world_of (without_rows_at self.old.workers w) self.old.shared }
    {
        self.workers[w as usize].take_rows()
    }

    /// The rows of all workers, in the order of the workers, in one list. It is the first worker's own, to which those of
    /// the others are added, so one worker's rows take no memory.
    pub fn into_rows(self) -> Result<Vec<Context>, NoMemory>
        ensures { IfOk result (λ rows. rows.items ≡ all_rows self.workers) }
    {
        let mut world = self;
        take_all(&mut world)
    }
}

// The numbers of roots of all machines.
fn roots_of<X: Expand>(alloc: Global, x: &X) -> Result<Vec<u64>, NoMemory>
    ensures roots { IfOk result (λ v. v.items ≡ roots_of (X.tree x.now) (X.tree x.now).machines) }
    ensures count { IfOk result (λ v. length v.items ≡ (X.tree x.now).machines) }
{
    let machines = x.machines();
    let mut roots = Vec::with_capacity(alloc, machines as usize)?;
    for machine in 0..machines {
        roots.push_reserved(x.roots(machine));
    }
    Ok(roots)
}

// So many workers at the start, put into the room that there is for them.
fn add_workers(
    alloc: Global,
    workers: &mut Vec<Worker>,
    shape: &Shape,
    count: u32,
) -> Result<(), NoMemory>
    requires empty { workers.old.items ≡ [] }
    requires room { count ≤ vec_capacity workers.old }
    requires within { count ≤ shape.now.machines * shape.now.workers }
    ensures { OnOk result (workers.new.items ≡ fresh_workers shape.now count) }
{
    for w in 0..count {
        let worker = Worker::new(alloc, w, shape)?;
        workers.push_reserved(worker);
    }
    Ok(())
}

// All workers at the start.
fn new_workers(alloc: Global, shape: &Shape) -> Result<Vec<Worker>, NoMemory>
    ensures fresh { IfOk result (λ v. v.items ≡ fresh_workers shape.now (shape.now.machines * shape.now.workers)) }
    ensures sound { IsShape shape.now }
{
    let count = shape.machines() * shape.workers();
    let mut workers = Vec::with_capacity(alloc, count as usize)?;
    add_workers(alloc, &mut workers, shape, count)?;
    Ok(workers)
}

impl World {
    /// The start of a run: all workers are enrolled, all pools full, and all else is 0 or empty. The tree has the
    /// stages and machines of the shape, and the world keeps its numbers of roots.
    pub fn new<X: Expand>(alloc: Global, x: &X, shape: &Shape) -> Result<World, NoMemory>
        requires stages { shape.now.stages ≡ (X.tree x.now).stages }
        requires machines { shape.now.machines ≡ (X.tree x.now).machines }
        ensures start { IfOk result (λ w. w ≡ start_world shape.now (X.tree x.now)) }
        ensures fits { IfOk result (λ w. Fits (X.tree x.now) w.shared) }
    {
        let roots = roots_of(alloc, x)?;
        let fabric = PlainFabric::new(alloc, shape, &roots)?;
        let workers = new_workers(alloc, shape)?;
        Ok(World { workers, fabric })
    }
}
