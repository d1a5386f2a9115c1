//! How much stands outside the pools.
ghost use Rattle.std.specs.Prelude.{◌≡◌, ◌+◌, ◌*◌, ◌^◌, ◌<◌, ◌≤◌, ℕ, length, slice_get, slice_index_or, IsSomeAnd, MatchOption, Some, None};
ghost use Rattle.match_context.specs.Bags.{total};
ghost use Rattle.fabric.specs.Shared.{IsMessageStage, inbox_at};
ghost use Rattle.dfs_worker.specs.Sound.{IsWorker};
ghost use Rattle.dfs_worker.specs.State.{State};
ghost use Rattle.world_core.specs.Bound.{Bound};
ghost use Rattle.world_core.specs.Gauge.{gauge_of, in_slot, in_hand, in_frame, in_worker, in_inbox, in_machine, in_inboxes, one_buffer, its_contexts, at_frame, at_worker};

use crate::world::World;
use dfs_worker::{Hand, Worker};
use fabric::PlainFabric;
use match_context::{Buffer, Frame, Rest};

/// What stands outside the pools at a moment.
#[derive(Clone, Copy, Debug, PartialEq, Eq)]
pub struct Gauge {
    /// The buffers that are open, on their way, or under a message frame.
    pub buffers: u64,
    /// The contexts in these buffers, in frames and in waiting children.
    pub contexts: u64,
}

// One buffer more, with its contexts.
fn with_buffer(gauge: Gauge, buffer: &Buffer) -> Gauge
    requires buffers { gauge.buffers + 1 < 2 ^ 63 }
    requires contexts { gauge.contexts + length buffer.now.items < 2 ^ 63 }
    ensures buffers { result.buffers ≡ gauge.buffers + 1 }
    ensures contexts { result.contexts ≡ gauge.contexts + length buffer.now.items }
{
    Gauge {
        buffers: gauge.buffers + 1,
        contexts: gauge.contexts + buffer.items().len() as u64,
    }
}

// The buffer that is open at a place, if there is one.
fn open_at(worker: &Worker, at: u32) -> Option<&Buffer>
    requires worker { IsWorker worker.now }
    requires at { at < length worker.now.slots.messages }
    ensures { MatchOption result (slice_index_or worker.now.slots.messages at None ≡ None)
        (λ b. IsSomeAnd (slice_index_or worker.now.slots.messages at None) (λ m. m.items ≡ b.now)) }
{
    let machines = worker.machines();
    worker.buffer(at / machines, at % machines)
}

// The same, added to what was counted.
fn with_slot(gauge: Gauge, worker: &Worker, at: u32) -> Gauge
    requires worker { IsWorker worker.now }
    requires at { at < length worker.now.slots.messages }
    requires buffers { gauge.buffers + in_slot one_buffer (slice_index_or worker.now.slots.messages at None) < 2 ^ 63 }
    requires contexts { gauge.contexts + in_slot its_contexts (slice_index_or worker.now.slots.messages at None) < 2 ^ 63 }
    ensures buffers { result.buffers ≡ gauge.buffers + in_slot one_buffer (slice_index_or worker.now.slots.messages at None) }
    ensures contexts { result.contexts ≡ gauge.contexts + in_slot its_contexts (slice_index_or worker.now.slots.messages at None) }
{
    match open_at(worker, at) {
        Some(buffer) => with_buffer(gauge, buffer),
        None => gauge,
    }
}

// The buffers that a worker has open.
fn with_open(mut gauge: Gauge, worker: &Worker) -> Gauge
    requires worker { IsWorker worker.now }
    requires buffers { gauge.buffers + total (in_slot one_buffer) worker.now.slots.messages < 2 ^ 63 }
    requires contexts { gauge.contexts + total (in_slot its_contexts) worker.now.slots.messages < 2 ^ 63 }
    ensures buffers { result.buffers ≡ gauge.buffers + total (in_slot one_buffer) worker.now.slots.messages }
    ensures contexts { result.contexts ≡ gauge.contexts + total (in_slot its_contexts) worker.now.slots.messages }
{
    for at in 0..worker.stages() * worker.machines() {
        gauge = with_slot(gauge, worker, at);
    }
    gauge
}

// The buffer in a hand, if there is one.
fn with_hand(gauge: Gauge, hand: &Hand) -> Gauge
    requires buffers { gauge.buffers + in_hand one_buffer hand.now < 2 ^ 63 }
    requires contexts { gauge.contexts + in_hand its_contexts hand.now < 2 ^ 63 }
    ensures buffers { result.buffers ≡ gauge.buffers + in_hand one_buffer hand.now }
    ensures contexts { result.contexts ≡ gauge.contexts + in_hand its_contexts hand.now }
{
    match hand {
        Hand::Posted(message) => with_buffer(gauge, &message.items),
        Hand::Popped(message) => with_buffer(gauge, &message.items),
        _ => gauge,
    }
}

// A frame's own context, and its waiting child.
fn standing(frame: &Frame) -> u64
    ensures { result ≡ at_frame frame.now }
{
    if frame.wait.is_some() { 2 } else { 1 }
}

// A frame, with its buffer if it is a message frame.
fn with_frame(gauge: Gauge, frame: &Frame) -> Gauge
    requires buffers { gauge.buffers + in_frame one_buffer frame.now < 2 ^ 63 }
    requires contexts { gauge.contexts + (in_frame its_contexts frame.now + at_frame frame.now) < 2 ^ 63 }
    ensures buffers { result.buffers ≡ gauge.buffers + in_frame one_buffer frame.now }
    ensures contexts { result.contexts ≡ gauge.contexts + (in_frame its_contexts frame.now + at_frame frame.now) }
{
    let gauge = Gauge {
        buffers: gauge.buffers,
        contexts: gauge.contexts + standing(frame),
    };
    match &frame.rest {
        Rest::Items { message, .. } => with_buffer(gauge, &message.items),
        _ => gauge,
    }
}

// A worker's frames.
fn with_frames(mut gauge: Gauge, frames: &[Frame]) -> Gauge
    requires buffers { gauge.buffers + total (in_frame one_buffer) frames.now < 2 ^ 63 }
    requires contexts { gauge.contexts + (total (in_frame its_contexts) frames.now + total at_frame frames.now) < 2 ^ 63 }
    ensures buffers { result.buffers ≡ gauge.buffers + total (in_frame one_buffer) frames.now }
    ensures contexts { result.contexts ≡ gauge.contexts + (total (in_frame its_contexts) frames.now + total at_frame frames.now) }
{
    for frame in frames {
        gauge = with_frame(gauge, frame);
    }
    gauge
}

// All that a worker has.
fn with_worker(gauge: Gauge, worker: &Worker) -> Gauge
    requires worker { IsWorker worker.now }
    requires buffers { gauge.buffers + in_worker one_buffer worker.now < 2 ^ 63 }
    requires contexts { gauge.contexts + (in_worker its_contexts worker.now + at_worker worker.now) < 2 ^ 63 }
    ensures buffers { result.buffers ≡ gauge.buffers + in_worker one_buffer worker.now }
    ensures contexts { result.contexts ≡ gauge.contexts + (in_worker its_contexts worker.now + at_worker worker.now) }
{
    let open = with_open(gauge, worker);
    let held = with_hand(open, worker.hand());
    with_frames(held, worker.stack())
}

// All that the workers have.
fn with_workers(mut gauge: Gauge, workers: &[Worker]) -> Gauge
    requires workers { (i : ℕ) (v : State) → slice_get workers.now i ≡ Some v → IsWorker v }
    requires buffers { gauge.buffers + total (in_worker one_buffer) workers.now < 2 ^ 63 }
    requires contexts { gauge.contexts + (total (in_worker its_contexts) workers.now + total at_worker workers.now) < 2 ^ 63 }
    ensures buffers { result.buffers ≡ gauge.buffers + total (in_worker one_buffer) workers.now }
    ensures contexts { result.contexts ≡ gauge.contexts + (total (in_worker its_contexts) workers.now + total at_worker workers.now) }
{
    for worker in workers {
        gauge = with_worker(gauge, worker);
    }
    gauge
}

// The messages of an inbox.
fn with_inbox(mut gauge: Gauge, fabric: &PlainFabric, machine: u32, stage: u32) -> Gauge
    requires machine_in { machine < fabric.now.shape.machines }
    requires stage { IsMessageStage fabric.now stage }
    requires buffers { gauge.buffers + in_inbox one_buffer (inbox_at fabric.now machine stage) < 2 ^ 63 }
    requires contexts { gauge.contexts + in_inbox its_contexts (inbox_at fabric.now machine stage) < 2 ^ 63 }
    ensures buffers { result.buffers ≡ gauge.buffers + in_inbox one_buffer (inbox_at fabric.now machine stage) }
    ensures contexts { result.contexts ≡ gauge.contexts + in_inbox its_contexts (inbox_at fabric.now machine stage) }
{
    for place in 0..fabric.inbox(machine, stage) {
        let message = fabric.message(machine, stage, place);
        gauge = with_buffer(gauge, &message.items);
    }
    gauge
}

// The messages in all inboxes of a machine.
fn with_machine(mut gauge: Gauge, fabric: &PlainFabric, machine: u32) -> Gauge
    requires machine_in { machine < fabric.now.shape.machines }
    requires buffers { gauge.buffers + in_machine one_buffer fabric.now machine < 2 ^ 63 }
    requires contexts { gauge.contexts + in_machine its_contexts fabric.now machine < 2 ^ 63 }
    ensures buffers { result.buffers ≡ gauge.buffers + in_machine one_buffer fabric.now machine }
    ensures contexts { result.contexts ≡ gauge.contexts + in_machine its_contexts fabric.now machine }
{
    for stage in 1..fabric.shape().stages() {
        gauge = with_inbox(gauge, fabric, machine, stage);
    }
    gauge
}

// The messages in all inboxes.
fn with_inboxes(mut gauge: Gauge, fabric: &PlainFabric) -> Gauge
    requires buffers { gauge.buffers + in_inboxes one_buffer fabric.now < 2 ^ 63 }
    requires contexts { gauge.contexts + in_inboxes its_contexts fabric.now < 2 ^ 63 }
    ensures buffers { result.buffers ≡ gauge.buffers + in_inboxes one_buffer fabric.now }
    ensures contexts { result.contexts ≡ gauge.contexts + in_inboxes its_contexts fabric.now }
{
    for machine in 0..fabric.shape().machines() {
        gauge = with_machine(gauge, fabric, machine);
    }
    gauge
}

impl World {
    /// What stands outside the pools. It is within the bound that the shape sets, whatever steps were made and in
    /// whatever order.
    pub fn gauge(&self) -> Gauge
        ensures counted { result ≡ gauge_of self.now }
        ensures bounded { Bound self.now.shared.shape result }
    {
        let none = Gauge {
            buffers: 0,
            contexts: 0,
        };
        with_inboxes(with_workers(none, self.workers()), self.fabric())
    }
}
