//! The guards of each event that look at what is shared.
ghost use Rattle.std.specs.Prelude.{◌≡◌, Some, None, if◌then◌else◌};
ghost use Rattle.dfs_worker.specs.declared.event.Event.TheVariants as kind;
ghost use Rattle.dfs_worker.specs.Own.{event_word};
ghost use Rattle.fabric.specs.Shared.{Shared};
ghost use Rattle.world_core.specs.May.{IsPart};
ghost use Rattle.world_core.specs.Sound.{Sound};
ghost use Rattle.world_core.specs.Step.{worker_of, shared_guard, guard_of, can_mark, has_all_marks};
ghost use Rattle.world_core.specs.World.{world_of};

use adfs_base::Word;
use dfs_worker::{Event, Guard, Hand, Worker};
use fabric::PlainFabric;

/// The number of the event's worker.
pub fn worker_of(event: &Event) -> u32
    ensures { result ≡ worker_of event.now }
{
    match event {
        Event::Claim { w } => *w,
        Event::Retire { w } => *w,
        Event::Advance { w } => *w,
        Event::Descend { w } => *w,
        Event::Append { w } => *w,
        Event::Charge { w } => *w,
        Event::Fetch { w } => *w,
        Event::Post { w, .. } => *w,
        Event::Push { w } => *w,
        Event::Pop { w, .. } => *w,
        Event::Pick { w } => *w,
        Event::Restore { w } => *w,
        Event::Discharge { w } => *w,
        Event::Mark { w, .. } => *w,
        Event::Close { w } => *w,
    }
}

// The guard that fails where the test does, else none.
#[inline(always)]
fn unless(test: bool, guard: Guard) -> Option<Guard>
    ensures { result ≡ (if test then None else Some guard) }
{
    if test { None } else { Some(guard) }
}

/// The word of the stage that closes next which these two numbers name.
pub fn word_of(fabric: &PlainFabric, a: u32, b: u32) -> Word
    ensures { result ≡ event_word fabric.now.closed a b }
{
    let stage = fabric.closed_at();
    if stage == 0 {
        Word::Enrolled(a)
    } else {
        Word::Used {
            from: a,
            stage,
            to: b,
        }
    }
}

// Whether the worker may mark that word.
fn can_mark(fabric: &PlainFabric, worker: &Worker, a: u32, b: u32) -> bool
    ensures { result ≡ can_mark fabric.now worker.now.marks a b }
{
    let closed = fabric.closed_at();
    let shape = fabric.shape();
    let second = if closed == 0 {
        b == 0
    } else {
        b < shape.machines()
    };
    if closed >= shape.stages() || a >= shape.machines() || !second {
        return false;
    }
    let word = word_of(fabric, a, b);
    let closer = worker.closer();
    fabric.word(word) == 0 && !(closer.stage() == closed && closer.marked(word))
}

// Whether the worker has marked all words of the stage that closes next.
fn can_close(fabric: &PlainFabric, worker: &Worker) -> bool
    ensures { result ≡ has_all_marks worker.now.marks fabric.now.closed }
{
    let closer = worker.closer();
    closer.stage() == fabric.closed_at() && closer.ready()
}

fn claim_guard(fabric: &PlainFabric, worker: &Worker) -> Option<Guard>
    requires { IsPart fabric.now worker.now }
    ensures { result ≡ shared_guard (kind.Claim 0) worker.now fabric.now }
{
    unless(fabric.can_claim(worker.number()), Guard::Roots)
}

fn retire_guard(fabric: &PlainFabric, worker: &Worker) -> Option<Guard>
    requires { IsPart fabric.now worker.now }
    ensures { result ≡ shared_guard (kind.Retire 0) worker.now fabric.now }
{
    unless(!fabric.can_claim(worker.number()), Guard::Roots)
}

fn charge_guard(fabric: &PlainFabric, worker: &Worker) -> Option<Guard>
    requires { IsPart fabric.now worker.now }
    ensures { result ≡ shared_guard (kind.Charge 0) worker.now fabric.now }
{
    match worker.waiting() {
        Some((stage, to)) => unless(fabric.can_charge(worker.number(), stage, to), Guard::Limit),
        None => Some(Guard::Limit),
    }
}

fn push_guard(fabric: &PlainFabric, worker: &Worker) -> Option<Guard>
    requires { IsPart fabric.now worker.now }
    ensures { result ≡ shared_guard (kind.Push 0) worker.now fabric.now }
{
    match worker.hand() {
        Hand::Posted(message) => unless(fabric.can_push(message.to, message.stage), Guard::Inbox),
        _ => Some(Guard::Inbox),
    }
}

fn pick_guard(fabric: &PlainFabric, worker: &Worker) -> Option<Guard>
    requires { IsPart fabric.now worker.now }
    ensures { result ≡ shared_guard (kind.Pick 0) worker.now fabric.now }
{
    match worker.hand() {
        Hand::Popped(message) => unless(
            fabric.can_pick(worker.number(), message.from, message.stage),
            Guard::Flying,
        ),
        _ => Some(Guard::Flying),
    }
}

/// The guard of the event on what is shared, where it fails.
#[inline(always)]
pub fn shared_guard(fabric: &PlainFabric, worker: &Worker, event: &Event) -> Option<Guard>
    requires { IsPart fabric.now worker.now }
    ensures { result ≡ shared_guard event.now worker.now fabric.now }
{
    match event {
        Event::Claim { .. } => claim_guard(fabric, worker),
        Event::Retire { .. } => retire_guard(fabric, worker),
        Event::Charge { .. } => charge_guard(fabric, worker),
        Event::Fetch { .. } => unless(fabric.can_fetch(worker.number()), Guard::Pool),
        Event::Push { .. } => push_guard(fabric, worker),
        Event::Pop { stage, .. } => unless(fabric.can_pop(worker.number(), *stage), Guard::Inbox),
        Event::Pick { .. } => pick_guard(fabric, worker),
        Event::Mark { a, b, .. } => unless(can_mark(fabric, worker, *a, *b), Guard::Word),
        Event::Close { .. } => unless(can_close(fabric, worker), Guard::Marks),
        _ => None,
    }
}

/// The first guard of the event that fails.
#[inline(always)]
pub fn first_guard(workers: &[Worker], fabric: &PlainFabric, event: &Event) -> Option<Guard>
    requires { Sound (world_of workers.now fabric.now) }
    ensures { result ≡ guard_of (world_of workers.now fabric.now) event.now }
{
    let Some(worker) = workers.get(worker_of(event) as usize) else {
        return Some(Guard::Worker);
    };
    match worker.guard(event) {
        Some(guard) => Some(guard),
        None => shared_guard(fabric, worker, event),
    }
}
