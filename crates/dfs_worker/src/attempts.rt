//! The attempts of a turn, one function for each.
ghost use Rattle.std.specs.Prelude.{◌≡◌, ◌<◌, ◌≤◌, [], ◌∷◌, true, None};
ghost use Rattle.dfs_worker.specs.Guards.{own_guard, is_charged, is_posted, is_popped, is_emptied};
ghost use Rattle.dfs_worker.specs.Own.{posted};
ghost use Rattle.fabric.specs.Account.{ToPost, Nothing};
ghost use Rattle.dfs_worker.specs.Turn.{Fits, Tried, Step, PostOther, Start, NextMark, NextClose, IsMoved, hand_step};

use crate::event::Event;
use crate::hand::Hand;
use crate::turn::Turn;
use crate::worker::Worker;
use adfs_base::{Charge, Pick};
use fabric::Fabric;
use match_context::Expand;

/// The buffer for which a credit is in hand.
pub fn fetch<F: Fabric, X: Expand>(worker: &mut Worker, fabric: &mut F, _x: &X) -> Turn
    requires fits { Fits F.agrees F.shape F.roots (X.tree _x.now) worker.old fabric.old }
    requires charged { is_charged worker.old.hand ≡ true }
    ensures { Tried F.agrees F.done F.excused F.shape F.roots (X.tree _x.now) worker.old fabric.old (Step (Event.Fetch worker.old.number) ∷ []) result worker.new fabric.new }
{
    let w = worker.number();
    match fabric.fetch(w) {
        Some(buffer) => {
            worker.fetch(buffer);
            Turn::Did(Event::Fetch { w })
        }
        None => Turn::Idle,
    }
}

/// The message in hand goes into its inbox.
pub fn push<F: Fabric, X: Expand>(worker: &mut Worker, fabric: &mut F, _x: &X) -> Turn
    requires fits { Fits F.agrees F.shape F.roots (X.tree _x.now) worker.old fabric.old }
    requires posted { is_posted worker.old.hand ≡ true }
    ensures { Tried F.agrees F.done F.excused F.shape F.roots (X.tree _x.now) worker.old fabric.old (Step (Event.Push worker.old.number) ∷ []) result worker.new fabric.new }
{
    let w = worker.number();
    match worker.set_hand(Hand::Free) {
        Hand::Posted(message) => match fabric.push(w, message) {
            Ok(()) => Turn::Did(Event::Push { w }),
            Err(message) => {
                let _ = worker.set_hand(Hand::Posted(message));
                Turn::Idle
            }
        },
        other => {
            let _ = worker.set_hand(other);
            Turn::Idle
        }
    }
}

/// The message in hand becomes the top.
pub fn pick<F: Fabric, X: Expand>(worker: &mut Worker, fabric: &mut F, _x: &X) -> Turn
    requires fits { Fits F.agrees F.shape F.roots (X.tree _x.now) worker.old fabric.old }
    requires popped { is_popped worker.old.hand ≡ true }
    ensures { Tried F.agrees F.done F.excused F.shape F.roots (X.tree _x.now) worker.old fabric.old (Step (Event.Pick worker.old.number) ∷ []) result worker.new fabric.new }
{
    let w = worker.number();
    let Hand::Popped(message) = worker.hand() else {
        return Turn::Idle;
    };
    match fabric.pick(w, message.from, message.stage) {
        Pick::Picked => {
            worker.pick();
            Turn::Did(Event::Pick { w })
        }
        _ => Turn::Idle,
    }
}

/// The credit in hand goes back.
pub fn discharge<F: Fabric, X: Expand>(worker: &mut Worker, fabric: &mut F, _x: &X) -> Turn
    requires fits { Fits F.agrees F.shape F.roots (X.tree _x.now) worker.old fabric.old }
    requires emptied { is_emptied worker.old.hand ≡ true }
    ensures { Tried F.agrees F.done F.excused F.shape F.roots (X.tree _x.now) worker.old fabric.old (Step (Event.Discharge worker.old.number) ∷ []) result worker.new fabric.new }
{
    let w = worker.number();
    let Hand::Emptied { from, stage } = worker.hand() else {
        return Turn::Idle;
    };
    fabric.discharge(w, *from, *stage);
    let _ = worker.set_hand(Hand::Free);
    Turn::Did(Event::Discharge { w })
}

/// One answer of the top.
pub fn advance<F: Fabric, X: Expand>(worker: &mut Worker, fabric: &F, x: &X) -> Turn
    requires fits { Fits F.agrees F.shape F.roots (X.tree x.now) worker.old fabric.now }
    requires enabled { own_guard (Event.Advance 0) worker.old ≡ None }
    ensures { Tried F.agrees F.done F.excused F.shape F.roots (X.tree x.now) worker.old fabric.now (Step (Event.Advance worker.old.number) ∷ []) result worker.new fabric.now }
{
    let _ = fabric;
    let w = worker.number();
    match worker.advance(x) {
        Ok(()) => Turn::Did(Event::Advance { w }),
        Err(_) => Turn::NoMemory,
    }
}

/// A credit for a buffer for the waiting child.
pub fn charge<F: Fabric, X: Expand>(worker: &mut Worker, fabric: &mut F, _x: &X) -> Turn
    requires fits { Fits F.agrees F.shape F.roots (X.tree _x.now) worker.old fabric.old }
    ensures tried { Tried F.agrees F.done F.excused F.shape F.roots (X.tree _x.now) worker.old fabric.old (Step (Event.Charge worker.old.number) ∷ []) result worker.new fabric.new }
    ensures kept { result ≡ Turn.Idle → worker.new ≡ worker.old }
{
    let w = worker.number();
    if worker.guard(&Event::Charge { w }).is_some() {
        return Turn::Idle;
    }
    let Some((stage, to)) = worker.waiting() else {
        return Turn::Idle;
    };
    match fabric.charge(w, stage, to) {
        Charge::Charged => {
            worker.charge();
            Turn::Did(Event::Charge { w })
        }
        _ => Turn::Idle,
    }
}

/// The waiting child becomes the top, or goes into the buffer that is open for it.
pub fn descend<F: Fabric, X: Expand>(worker: &mut Worker, fabric: &F, _x: &X) -> Turn
    requires fits { Fits F.agrees F.shape F.roots (X.tree _x.now) worker.old fabric.now }
    ensures tried { Tried F.agrees F.done F.excused F.shape F.roots (X.tree _x.now) worker.old fabric.now (Step (Event.Descend worker.old.number) ∷ []) result worker.new fabric.now }
    ensures kept { result ≡ Turn.Idle → worker.new ≡ worker.old }
{
    let _ = fabric;
    let w = worker.number();
    if worker.guard(&Event::Descend { w }).is_some() {
        return Turn::Idle;
    }
    worker.descend();
    Turn::Did(Event::Descend { w })
}

pub fn append<F: Fabric, X: Expand>(worker: &mut Worker, fabric: &F, _x: &X) -> Turn
    requires fits { Fits F.agrees F.shape F.roots (X.tree _x.now) worker.old fabric.now }
    ensures tried { Tried F.agrees F.done F.excused F.shape F.roots (X.tree _x.now) worker.old fabric.now (Step (Event.Append worker.old.number) ∷ []) result worker.new fabric.now }
    ensures kept { result ≡ Turn.Idle → worker.new ≡ worker.old }
{
    let _ = fabric;
    let w = worker.number();
    if worker.guard(&Event::Append { w }).is_some() {
        return Turn::Idle;
    }
    worker.append();
    Turn::Did(Event::Append { w })
}

/// The message that is open there comes into the hand.
pub fn post<F: Fabric, X: Expand>(
    worker: &mut Worker,
    fabric: &mut F,
    x: &X,
    stage: u32,
    to: u32,
) -> Turn
    requires fits { Fits F.agrees F.shape F.roots (X.tree x.now) worker.old fabric.old }
    ensures tried { Tried F.agrees F.done F.excused F.shape F.roots (X.tree x.now) worker.old fabric.old (Step (Event.Post worker.old.number stage to) ∷ []) result worker.new fabric.new }
    ensures kept { result ≡ Turn.Idle → worker.new ≡ worker.old }
{
    let w = worker.number();
    match worker.guard(&Event::Post { w, stage, to }) {
        None => Turn::Did(post_open(worker, fabric, x, stage, to)),
        Some(_) => Turn::Idle,
    }
}

/// The message that is open there comes into the hand, once it is counted as on its way.
pub fn post_open<F: Fabric, X: Expand>(
    worker: &mut Worker,
    fabric: &mut F,
    _x: &X,
    stage: u32,
    to: u32,
) -> Event
    requires fits { Fits F.agrees F.shape F.roots (X.tree _x.now) worker.old fabric.old }
    requires enabled { own_guard (Event.Post 0 stage to) worker.old ≡ None }
    ensures event { result ≡ Event.Post worker.old.number stage to }
    ensures own { worker.new ≡ posted stage to worker.old }
    ensures shared { F.done fabric.old worker.old.number (ToPost stage to) Nothing fabric.new }
    ensures fits { Fits F.agrees F.shape F.roots (X.tree _x.now) worker.new fabric.new }
{
    let w = worker.number();
    fabric.post(w, stage, to);
    worker.post(stage, to);
    Event::Post { w, stage, to }
}

/// The first message of an inbox comes into the hand.
pub fn pop<F: Fabric, X: Expand>(worker: &mut Worker, fabric: &mut F, _x: &X, stage: u32) -> Turn
    requires fits { Fits F.agrees F.shape F.roots (X.tree _x.now) worker.old fabric.old }
    requires some_stage { 0 < stage }
    requires stage_in { stage < worker.old.shape.stages }
    ensures tried { Tried F.agrees F.done F.excused F.shape F.roots (X.tree _x.now) worker.old fabric.old (Step (Event.Pop worker.old.number stage) ∷ []) result worker.new fabric.new }
    ensures kept { result ≡ Turn.Idle → worker.new ≡ worker.old }
{
    let w = worker.number();
    let event = Event::Pop { w, stage };
    if worker.guard(&event).is_some() {
        return Turn::Idle;
    }
    match fabric.pop(w, stage) {
        Some(message) => {
            worker.pop(message);
            Turn::Did(event)
        }
        None => Turn::Idle,
    }
}
