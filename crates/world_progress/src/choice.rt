//! The next event of a worker, and of a world.
ghost use Rattle.std.specs.Prelude.{◌≡◌, ℕ, ◌<◌, ◌≤◌, None, IfSome, IfNone, length};
ghost use Rattle.dfs_worker.specs.State.{is_free, is_over};
ghost use Rattle.world_core.specs.Rows.{IsFinished};
ghost use Rattle.world_core.specs.Sound.{Sound};
ghost use Rattle.world_core.specs.Step.{guard_of};
ghost use Rattle.world_progress.specs.Choice.{IsNext, AllFail, waiting_list, empty_list};
ghost use Rattle.world_progress.specs.Stuck.{IsIdle};

use crate::attempts::{child_event, first_of, hand_event, pop_event};
use bfs_budget::{Attempt, Policy, choice};
use dfs_worker::{Event, Hand};
use match_context::Rest;
use world_core::World;

/// What is tried where the top waits with a child.
const WAITING: [Attempt; 8] = [
    Attempt::PostOwn,
    Attempt::Append,
    Attempt::Charge,
    Attempt::Descend,
    Attempt::PostOthers,
    Attempt::Pop,
    Attempt::Mark,
    Attempt::Close,
];

/// What is tried on an empty stack.
const EMPTY: [Attempt; 6] = [
    Attempt::Pop,
    Attempt::PostOthers,
    Attempt::Claim,
    Attempt::Retire,
    Attempt::Mark,
    Attempt::Close,
];

/// The enabled event of one of these attempts: of the first that has one, from where the policy says, gone round.
fn by_policy<P: Policy>(
    world: &World,
    w: u32,
    policy: &mut P,
    attempts: &[Attempt],
) -> Option<Event>
    requires within { w < length world.now.workers }
    requires some_attempt { 0 < length attempts.now }
    requires few { length attempts.now ≤ 8 }
    ensures some { IfSome result (IsNext world.now w) }
    ensures none { IfNone result (AllFail world.now w attempts.now) }
{
    let look = world.worker(w).look(attempts.len() as u32);
    let start = choice(policy, &look) as usize;
    gone_round(world, w, attempts, start)
}

/// The enabled event of the first of these attempts that has one, from a place on and then from the first.
fn gone_round(world: &World, w: u32, attempts: &[Attempt], start: usize) -> Option<Event>
    requires within { w < length world.now.workers }
    requires place { start ≤ length attempts.now }
    ensures some { IfSome result (IsNext world.now w) }
    ensures none { IfNone result (AllFail world.now w attempts.now) }
{
    let event = first_of(world, w, &attempts[start..]);
    if event.is_some() {
        return event;
    }
    first_of(world, w, &attempts[..start])
}

/// The enabled event of a worker whose top waits with a child. Where the policy begins at the first attempt, what the
/// child itself does next is known without a look at the others.
fn waiting_event<P: Policy>(world: &World, w: u32, policy: &mut P) -> Option<Event>
    requires within { w < length world.now.workers }
    ensures some { IfSome result (IsNext world.now w) }
    ensures none { IfNone result (AllFail world.now w waiting_list) }
{
    let look = world.worker(w).look(8);
    let start = choice(policy, &look) as usize;
    if start == 0 {
        let event = child_event(world, w);
        if event.is_some() {
            return event;
        }
    }
    gone_round(world, w, &WAITING, start)
}

fn is_free(hand: &Hand) -> bool
    ensures { result ≡ is_free hand.now }
{
    matches!(hand, Hand::Free)
}

/// Whether it is the rest of a message frame that is over.
fn is_over(rest: &Rest) -> bool
    ensures { result ≡ is_over rest.now }
{
    match rest {
        Rest::None => false,
        Rest::Roots { .. } => false,
        Rest::Items { over, .. } => *over,
    }
}

/// An enabled event of the worker. None where none of its events is enabled.
pub fn worker_event<P: Policy>(world: &World, w: u32, policy: &mut P) -> Option<Event>
    requires within { w < length world.now.workers }
    ensures some { IfSome result (IsNext world.now w) }
    ensures none { IfNone result (IsIdle world.now w) }
{
    let worker = world.worker(w);
    if !is_free(worker.hand()) {
        return first_of(world, w, &[Attempt::Hand]);
    }
    let Some(top) = worker.top() else {
        return by_policy(world, w, policy, &EMPTY);
    };
    if is_over(&top.rest) {
        return Some(Event::Restore { w });
    }
    if top.wait.is_some() {
        return waiting_event(world, w, policy);
    }
    Some(Event::Advance { w })
}

/// The event of the first of these workers that has one.
fn first_from<P: Policy>(world: &World, policy: &mut P, from: u32, to: u32) -> Option<Event>
    requires { to ≤ length world.now.workers }
    ensures some { IfSome result (λ e. guard_of world.now e ≡ None) }
    ensures none { IfNone result ((worker : ℕ) → from ≤ worker → worker < to → IsIdle world.now worker) }
{
    for w in from..to {
        let event = worker_event(world, w, policy);
        if event.is_some() {
            return event;
        }
    }
    None
}

/// The next event: of this worker where it has one, else of the first after it that has, gone round. None where all
/// stages are closed.
pub fn next_event<P: Policy>(world: &World, policy: &mut P, from: u32) -> Option<Event>
    requires { from ≤ length world.now.workers }
    ensures some { IfSome result (λ e. guard_of world.now e ≡ None) }
    ensures none { IfNone result (IsFinished world.now) }
    ensures sound { Sound world.now }
{
    let count = world.workers().len() as u32;
    let event = first_from(world, policy, from, count);
    if event.is_some() {
        return event;
    }
    first_from(world, policy, 0, from)
}

/// An enabled event of the worker that a short look finds: what its hand or its top does next, or a message that it takes.
fn ready_event(world: &World, w: u32) -> Option<Event>
    requires within { w < length world.now.workers }
    ensures { IfSome result (IsNext world.now w) }
{
    let worker = world.worker(w);
    if !is_free(worker.hand()) {
        return hand_event(world, w);
    }
    let Some(top) = worker.top() else {
        return pop_event(world, w);
    };
    if is_over(&top.rest) {
        return Some(Event::Restore { w });
    }
    if top.wait.is_none() {
        return Some(Event::Advance { w });
    }
    let event = child_event(world, w);
    if event.is_some() {
        return event;
    }
    pop_event(world, w)
}

/// The ready event of the first of these workers that has one.
fn first_ready(world: &World, from: u32, to: u32) -> Option<Event>
    requires { to ≤ length world.now.workers }
    ensures { IfSome result (λ e. guard_of world.now e ≡ None) }
{
    for w in from..to {
        let event = ready_event(world, w);
        if event.is_some() {
            return event;
        }
    }
    None
}

/// An enabled event by which a worker goes on, where a short look at each finds one: of this worker where it has one, else
/// of the first after it that has, gone round.
///
/// Of many workers most have nothing to do, and to be sure of that for one of them takes a look at a word for each two
/// machines.
fn ready_from(world: &World, from: u32) -> Option<Event>
    requires { from ≤ length world.now.workers }
    ensures { IfSome result (λ e. guard_of world.now e ≡ None) }
{
    let count = world.workers().len() as u32;
    let event = first_ready(world, from, count);
    if event.is_some() {
        return event;
    }
    first_ready(world, 0, from)
}

/// The event by which a run goes on: of this worker as the policy chooses, where it has one; else one that a short look at
/// each worker finds; else the next. None where all stages are closed.
pub fn event_after<P: Policy>(world: &World, policy: &mut P, from: u32) -> Option<Event>
    requires { from ≤ length world.now.workers }
    ensures some { IfSome result (λ e. guard_of world.now e ≡ None) }
    ensures none { IfNone result (IsFinished world.now) }
    ensures sound { Sound world.now }
{
    if from < world.workers().len() as u32 {
        let event = worker_event(world, from, policy);
        if event.is_some() {
            return event;
        }
    }
    let event = ready_from(world, from);
    if event.is_some() {
        return event;
    }
    next_event(world, policy, from)
}
