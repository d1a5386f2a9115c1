//! What stands outside the pools, counted along a run: an event changes little of it.
ghost use Rattle.std.specs.Prelude.{◌≡◌, ◌∷◌, ◌<◌, ◌^◌};
ghost use Rattle.run_trace.specs.Gauging as spec;
ghost use Rattle.run_trace.specs.Gauging.{Fitting};
ghost use Rattle.world_core.specs.Gauge.{gauge_of};
ghost use Rattle.world_core.specs.Sound.{Sound};
ghost use Rattle.world_core.specs.Stepped.{IsStepped};
ghost use Rattle.world_core.specs.World.{Fits};

use dfs_worker::{Event, Worker};
use match_context::{Expand, Frame, Rest};
use world_core::{Gauge, Stepped, World, worker_of};

/// The top of a worker's stack, as far as events count by it.
#[derive(Clone, Copy)]
pub struct Top {
    /// How many frames are on the stack.
    frames: u64,
    /// Whether the top waits with a child.
    waits: bool,
    /// How many contexts its buffer holds, if it is a message frame.
    held: u64,
}

// The contexts of a message frame's buffer.
fn held_in(rest: &Rest) -> u64
    ensures { result ≡ spec.held_in rest.now }
{
    match rest {
        Rest::Items { message, .. } => message.items.items().len() as u64,
        _ => 0,
    }
}

fn top_frame(worker: &Worker, top: &Frame) -> Top
    requires { (frames : _) × (worker.now.stack ≡ top.now ∷ frames) }
    ensures { result ≡ spec.top_in worker.now.stack }
{
    Top {
        frames: worker.stack().len() as u64,
        waits: top.wait.is_some(),
        held: held_in(&top.rest),
    }
}

// The top of a worker's stack.
fn top_in(worker: &Worker) -> Top
    ensures { result ≡ spec.top_in worker.now.stack }
{
    match worker.top() {
        Some(top) => top_frame(worker, top),
        None => Top {
            frames: 0,
            waits: false,
            held: 0,
        },
    }
}

// The top of the event's worker, if there is such a worker.
fn top_of(world: &World, event: &Event) -> Top
    ensures top { result ≡ spec.top_of world.now event.now }
    ensures sound { Sound world.now }
{
    match world.workers().get(worker_of(event) as usize) {
        Some(worker) => top_in(worker),
        None => Top {
            frames: 0,
            waits: false,
            held: 0,
        },
    }
}

fn so_many(buffers: u64, contexts: u64) -> Gauge
    ensures { result ≡ spec.so_many buffers contexts }
{
    Gauge { buffers, contexts }
}

fn one_if(test: bool) -> u64
    ensures { result ≡ spec.one_if test }
{
    if test { 1 } else { 0 }
}

// What an event puts outside the pools.
fn put_out(event: &Event, before: Top, after: Top) -> Gauge
    ensures { result ≡ spec.put_out event.now before after }
{
    match event {
        Event::Claim { .. } => so_many(0, 1),
        Event::Advance { .. } => {
            so_many(0, one_if(!(after.frames < before.frames) && after.waits))
        }
        Event::Fetch { .. } => so_many(1, 0),
        Event::Pick { .. } => so_many(0, 1),
        _ => so_many(0, 0),
    }
}

// What it takes away.
fn taken_back(event: &Event, before: Top, after: Top) -> Gauge
    requires { before.held < 2 ^ 63 }
    ensures { result ≡ spec.taken_back event.now before after }
{
    match event {
        Event::Advance { .. } => so_many(0, one_if(after.frames < before.frames)),
        Event::Restore { .. } => so_many(1, 1 + before.held),
        _ => so_many(0, 0),
    }
}

// What stands outside after both.
fn moved(gauge: Gauge, more: Gauge, less: Gauge) -> Gauge
    requires { Fitting gauge more less }
    ensures { result ≡ spec.moved gauge more less }
{
    Gauge {
        buffers: gauge.buffers + more.buffers - less.buffers,
        contexts: gauge.contexts + more.contexts - less.contexts,
    }
}

// What stands outside the pools after an event, by what stood there and the top of its worker's stack before.
fn counted(world: &World, event: &Event, gauge: Gauge, before: Top) -> Gauge
    requires held { before.held < 2 ^ 63 }
    requires fits { Fitting gauge (spec.put_out event.now before (spec.top_of world.now event.now)) (spec.taken_back event.now before (spec.top_of world.now event.now)) }
    ensures { result ≡ spec.moved gauge (spec.put_out event.now before (spec.top_of world.now event.now)) (spec.taken_back event.now before (spec.top_of world.now event.now)) }
{
    let after = top_of(world, event);
    moved(
        gauge,
        put_out(event, before, after),
        taken_back(event, before, after),
    )
}

/// Makes the event's change, where all its guards hold, and keeps count of what stands outside the pools.
pub fn step_counted<X: Expand>(
    world: &mut World,
    x: &X,
    event: &Event,
    gauge: &mut Gauge,
) -> Stepped
    requires fits { Fits (X.tree x.now) world.old.shared }
    requires counted { gauge.old ≡ gauge_of world.old }
    ensures stepped { IsStepped (X.tree x.now) world.old event.now result world.new }
    ensures fits { Fits (X.tree x.now) world.new.shared }
    ensures counted { gauge.new ≡ gauge_of world.new }
{
    let before = top_of(world, event);
    match world.step(x, event) {
        Stepped::Done => {
            *gauge = counted(world, event, *gauge, before);
            Stepped::Done
        }
        Stepped::NotEnabled(guard) => Stepped::NotEnabled(guard),
        Stepped::NoMemory => Stepped::NoMemory,
    }
}
