//! Each event's change.
ghost use Rattle.std.specs.Prelude.{◌≡◌, OnOk, OnErr};
ghost use Rattle.dfs_worker.specs.declared.event.Event.TheVariants as kind;
ghost use Rattle.dfs_worker.specs.Own.{AddsRow, retired, charged, fetched, posted, freed, picked, restored, event_word, marked};
ghost use Rattle.fabric.specs.Calls.{empty_buffer, pop_answer};
ghost use Rattle.match_context.specs.Tree.{Tree};
ghost use Rattle.world_core.specs.Families.{family_of};
ghost use Rattle.world_core.specs.May.{May};
ghost use Rattle.world_core.specs.Step.{own_part, popped_as, shared_part, worker_of};
ghost use Rattle.world_core.specs.World.{Fits};

use crate::family::{Family, family_of};
use crate::guards::word_of;
use adfs_base::{Claimed, NoMemory};
use dfs_worker::{Event, Hand, Worker};
use fabric::PlainFabric;
use match_context::Expand;

pub fn claim<X: Expand>(worker: &mut Worker, fabric: &mut PlainFabric, x: &X)
    requires may { May (kind.Claim worker.old.number) fabric.old worker.old }
    requires fits { Fits (X.tree x.now) fabric.old }
    ensures own { worker.new ≡ own_part (X.tree x.now) (kind.Claim worker.old.number) fabric.old worker.old }
    ensures shared { fabric.new ≡ shared_part (kind.Claim worker.old.number) worker.old fabric.old }
{
    if let Claimed::Chunk(first, end) = fabric.claim(worker.number()) {
        worker.claim(x, first, end);
    }
}

pub fn retire(worker: &mut Worker, fabric: &mut PlainFabric)
    requires { May (kind.Retire worker.old.number) fabric.old worker.old }
    ensures own { worker.new ≡ retired worker.old }
    ensures shared { fabric.new ≡ shared_part (kind.Retire worker.old.number) worker.old fabric.old }
{
    fabric.retire(worker.number());
    worker.leave();
}

pub fn charge(worker: &mut Worker, fabric: &mut PlainFabric)
    requires { May (kind.Charge worker.old.number) fabric.old worker.old }
    ensures own { worker.new ≡ charged worker.old }
    ensures shared { fabric.new ≡ shared_part (kind.Charge worker.old.number) worker.old fabric.old }
{
    if let Some((stage, to)) = worker.waiting() {
        let _ = fabric.charge(worker.number(), stage, to);
        worker.charge();
    }
}

pub fn fetch(worker: &mut Worker, fabric: &mut PlainFabric)
    requires { May (kind.Fetch worker.old.number) fabric.old worker.old }
    ensures own { worker.new ≡ fetched (empty_buffer worker.old.machine fabric.old.shape.buffer) worker.old }
    ensures shared { fabric.new ≡ shared_part (kind.Fetch worker.old.number) worker.old fabric.old }
{
    if let Some(buffer) = fabric.fetch(worker.number()) {
        worker.fetch(buffer);
    }
}

pub fn post(worker: &mut Worker, fabric: &mut PlainFabric, stage: u32, to: u32)
    requires { May (kind.Post worker.old.number stage to) fabric.old worker.old }
    ensures own { worker.new ≡ posted stage to worker.old }
    ensures shared { fabric.new ≡ shared_part (kind.Post worker.old.number stage to) worker.old fabric.old }
{
    fabric.post(worker.number(), stage, to);
    worker.post(stage, to);
}

pub fn push(worker: &mut Worker, fabric: &mut PlainFabric)
    requires { May (kind.Push worker.old.number) fabric.old worker.old }
    ensures own { worker.new ≡ freed worker.old }
    ensures shared { fabric.new ≡ shared_part (kind.Push worker.old.number) worker.old fabric.old }
{
    if let Hand::Posted(message) = worker.set_hand(Hand::Free) {
        let _ = fabric.push(worker.number(), message);
    }
}

pub fn pop(worker: &mut Worker, fabric: &mut PlainFabric, stage: u32)
    requires { May (kind.Pop worker.old.number stage) fabric.old worker.old }
    ensures own { worker.new ≡ popped_as (pop_answer fabric.old worker.old.machine stage) worker.old }
    ensures shared { fabric.new ≡ shared_part (kind.Pop worker.old.number stage) worker.old fabric.old }
{
    if let Some(message) = fabric.pop(worker.number(), stage) {
        worker.pop(message);
    }
}

pub fn pick(worker: &mut Worker, fabric: &mut PlainFabric)
    requires { May (kind.Pick worker.old.number) fabric.old worker.old }
    ensures own { worker.new ≡ picked worker.old }
    ensures shared { fabric.new ≡ shared_part (kind.Pick worker.old.number) worker.old fabric.old }
{
    if let Hand::Popped(message) = worker.hand() {
        let from = message.from;
        let stage = message.stage;
        let _ = fabric.pick(worker.number(), from, stage);
        worker.pick();
    }
}

pub fn restore(worker: &mut Worker, fabric: &mut PlainFabric)
    requires { May (kind.Restore worker.old.number) fabric.old worker.old }
    ensures own { worker.new ≡ restored worker.old }
    ensures shared { fabric.new ≡ shared_part (kind.Restore worker.old.number) worker.old fabric.old }
{
    if let Some(buffer) = worker.restore() {
        let _ = fabric.restore(worker.number(), buffer);
    }
}

pub fn discharge(worker: &mut Worker, fabric: &mut PlainFabric)
    requires { May (kind.Discharge worker.old.number) fabric.old worker.old }
    ensures own { worker.new ≡ freed worker.old }
    ensures shared { fabric.new ≡ shared_part (kind.Discharge worker.old.number) worker.old fabric.old }
{
    if let Hand::Emptied { from, stage } = worker.set_hand(Hand::Free) {
        fabric.discharge(worker.number(), from, stage);
    }
}

pub fn mark(worker: &mut Worker, fabric: &mut PlainFabric, a: u32, b: u32)
    requires { May (kind.Mark worker.old.number a b) fabric.old worker.old }
    ensures own { worker.new ≡ marked fabric.old.closed (event_word fabric.old.closed a b) worker.old }
    ensures shared { fabric.new ≡ shared_part (kind.Mark worker.old.number a b) worker.old fabric.old }
{
    let word = word_of(fabric, a, b);
    worker.moved(fabric.closed_at());
    worker.mark(word);
}

pub fn close(worker: &mut Worker, fabric: &mut PlainFabric)
    requires { May (kind.Close worker.old.number) fabric.old worker.old }
    ensures own { worker.new ≡ worker.old }
    ensures shared { fabric.new ≡ shared_part (kind.Close worker.old.number) worker.old fabric.old }
{
    let _ = fabric.close(worker.number());
}

// The change of an event that is of the worker alone, but for an answer of its top, or that ends what it does.
fn make_alone(worker: &mut Worker, fabric: &mut PlainFabric, event: &Event)
    requires may { May event.now fabric.old worker.old }
    requires number { worker.old.number ≡ worker_of event.now }
    requires family { family_of event.now ≡ Family.Alone }
    ensures own { (tree : Tree) → worker.new ≡ own_part tree event.now fabric.old worker.old }
    ensures shared { fabric.new ≡ shared_part event.now worker.old fabric.old }
{
    match event {
        Event::Retire { .. } => retire(worker, fabric),
        Event::Descend { .. } => worker.descend(),
        Event::Append { .. } => worker.append(),
        Event::Mark { a, b, .. } => mark(worker, fabric, *a, *b),
        Event::Close { .. } => close(worker, fabric),
        _ => {}
    }
}

// The change of an event by which a child gets a buffer, and a buffer leaves.
fn make_outward(worker: &mut Worker, fabric: &mut PlainFabric, event: &Event)
    requires may { May event.now fabric.old worker.old }
    requires number { worker.old.number ≡ worker_of event.now }
    requires family { family_of event.now ≡ Family.Outward }
    ensures own { (tree : Tree) → worker.new ≡ own_part tree event.now fabric.old worker.old }
    ensures shared { fabric.new ≡ shared_part event.now worker.old fabric.old }
{
    match event {
        Event::Charge { .. } => charge(worker, fabric),
        Event::Fetch { .. } => fetch(worker, fabric),
        Event::Post { stage, to, .. } => post(worker, fabric, *stage, *to),
        Event::Push { .. } => push(worker, fabric),
        _ => {}
    }
}

// The change of an event by which a buffer comes in, and goes back.
fn make_inward(worker: &mut Worker, fabric: &mut PlainFabric, event: &Event)
    requires may { May event.now fabric.old worker.old }
    requires number { worker.old.number ≡ worker_of event.now }
    requires family { family_of event.now ≡ Family.Inward }
    ensures own { (tree : Tree) → worker.new ≡ own_part tree event.now fabric.old worker.old }
    ensures shared { fabric.new ≡ shared_part event.now worker.old fabric.old }
{
    match event {
        Event::Pop { stage, .. } => pop(worker, fabric, *stage),
        Event::Pick { .. } => pick(worker, fabric),
        Event::Restore { .. } => restore(worker, fabric),
        Event::Discharge { .. } => discharge(worker, fabric),
        _ => {}
    }
}

// The change of an event of such a family, which takes no memory.
fn make_surely<X: Expand>(
    worker: &mut Worker,
    fabric: &mut PlainFabric,
    x: &X,
    event: &Event,
    family: Family,
)
    requires may { May event.now fabric.old worker.old }
    requires number { worker.old.number ≡ worker_of event.now }
    requires fits { Fits (X.tree x.now) fabric.old }
    requires family { family ≡ family_of event.now }
    requires surely { family ≡ Family.Answers → ⊥ }
    ensures own { worker.new ≡ own_part (X.tree x.now) event.now fabric.old worker.old }
    ensures shared { fabric.new ≡ shared_part event.now worker.old fabric.old }
{
    match family {
        Family::Roots => claim(worker, fabric, x),
        Family::Answers => {}
        Family::Alone => make_alone(worker, fabric, event),
        Family::Outward => make_outward(worker, fabric, event),
        Family::Inward => make_inward(worker, fabric, event),
    }
}

/// The event's change, all of whose guards hold. After `NoMemory`, which only a row may meet, nothing is changed.
pub fn make<X: Expand>(
    worker: &mut Worker,
    fabric: &mut PlainFabric,
    x: &X,
    event: &Event,
) -> Result<(), NoMemory>
    requires may { May event.now fabric.old worker.old }
    requires number { worker.old.number ≡ worker_of event.now }
    requires fits { Fits (X.tree x.now) fabric.old }
    ensures own { OnOk result (worker.new ≡ own_part (X.tree x.now) event.now fabric.old worker.old) }
    ensures shared { OnOk result (fabric.new ≡ shared_part event.now worker.old fabric.old) }
    ensures err { OnErr result ((worker.new ≡ worker.old) × (fabric.new ≡ fabric.old) × (event.now ≡ kind.Advance worker.old.number) × AddsRow (X.tree x.now) worker.old.machine worker.old.stack) }
{
    match family_of(event) {
        Family::Answers => worker.advance(x),
        family => {
            make_surely(worker, fabric, x, event, family);
            Ok(())
        }
    }
}
