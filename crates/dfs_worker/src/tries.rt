//! The attempts of a turn that stand for several steps, and the order in which all are made.
ghost use Rattle.std.specs.Prelude.{◌≡◌, ℕ, ◌-◌, ◌<◌, [], ◌∷◌, true, false, ◌&&◌, None, MatchOption};
ghost use Rattle.dfs_worker.specs.Sound.{IsWorker};
ghost use Rattle.dfs_worker.specs.State.{waiting};
ghost use Rattle.dfs_worker.specs.Turn.{Fits, Tried, PostOther, NoOther, IsFirstOther, is_other, is_postable, hand_step, own_post, pops_from, lowest_pop};

use crate::attempts;
use crate::hand::Hand;
use crate::turn::Turn;
use crate::worker::Worker;
use fabric::Fabric;
use match_context::Expand;

/// The one step of what is in hand.
pub fn hand_step<F: Fabric, X: Expand>(worker: &mut Worker, fabric: &mut F, x: &X) -> Turn
    requires { Fits F.agrees F.shape F.roots (X.tree x.now) worker.old fabric.old }
    ensures { Tried F.agrees F.done F.excused F.shape F.roots (X.tree x.now) worker.old fabric.old (hand_step worker.old.number worker.old.hand) result worker.new fabric.new }
{
    match worker.hand() {
        Hand::Free => Turn::Idle,
        Hand::Charged { .. } => attempts::fetch(worker, fabric, x),
        Hand::Posted(_) => attempts::push(worker, fabric, x),
        Hand::Popped(_) => attempts::pick(worker, fabric, x),
        Hand::Emptied { .. } => attempts::discharge(worker, fabric, x),
    }
}

/// Whether it is another stage or machine than that of the waiting child.
fn is_other(own: Option<(u32, u32)>, stage: u32, to: u32) -> bool
    ensures { result ≡ is_other own stage to }
{
    match own {
        None => true,
        Some((own_stage, own_to)) => !(own_stage == stage && own_to == to),
    }
}

/// The lowest machine for which another buffer than the waiting child's is open at a stage.
fn other_of(worker: &Worker, own: Option<(u32, u32)>, stage: u32) -> Option<u32>
    requires own { own ≡ waiting worker.now.stack }
    ensures { MatchOption result ((n : ℕ) → n < worker.now.shape.machines → is_postable worker.now stage n ≡ false)
        (λ to. (is_postable worker.now stage to ≡ true) × ((n : ℕ) → n < to → is_postable worker.now stage n ≡ false)) }
{
    for to in 0..worker.machines() {
        if is_other(own, stage, to) && worker.is_open(stage, to) {
            return Some(to);
        }
    }
    None
}

/// The first open buffer but the waiting child's: of the highest stage, and there of the lowest machine.
fn first_other(worker: &Worker) -> Option<(u32, u32)>
    requires { IsWorker worker.now }
    ensures { MatchOption result (NoOther worker.now) (λ p. IsFirstOther worker.now p.0 p.1) }
{
    let own = worker.waiting();
    let mut stage = worker.stages();
    while stage > 1 {
        stage -= 1;
        if let Some(to) = other_of(worker, own, stage) {
            return Some((stage, to));
        }
    }
    None
}

/// The buffer that is open for the waiting child leaves.
pub fn post_own<F: Fabric, X: Expand>(worker: &mut Worker, fabric: &mut F, x: &X) -> Turn
    requires { Fits F.agrees F.shape F.roots (X.tree x.now) worker.old fabric.old }
    ensures { Tried F.agrees F.done F.excused F.shape F.roots (X.tree x.now) worker.old fabric.old (own_post worker.old.number (waiting worker.old.stack)) result worker.new fabric.new }
{
    match worker.waiting() {
        Some((stage, to)) => attempts::post(worker, fabric, x, stage, to),
        None => Turn::Idle,
    }
}

/// The first other open buffer leaves.
pub fn post_other<F: Fabric, X: Expand>(worker: &mut Worker, fabric: &mut F, x: &X) -> Turn
    requires fits { Fits F.agrees F.shape F.roots (X.tree x.now) worker.old fabric.old }
    requires free { worker.old.hand ≡ Hand.Free }
    ensures tried { Tried F.agrees F.done F.excused F.shape F.roots (X.tree x.now) worker.old fabric.old (PostOther ∷ []) result worker.new fabric.new }
    ensures kept { result ≡ Turn.Idle → worker.new ≡ worker.old }
{
    match first_other(worker) {
        Some((stage, to)) => Turn::Did(attempts::post_open(worker, fabric, x, stage, to)),
        None => Turn::Idle,
    }
}

/// The first message of an inbox above the top comes into the hand, of the highest stage that has one.
pub fn pops<F: Fabric, X: Expand>(worker: &mut Worker, fabric: &mut F, x: &X) -> Turn
    requires { Fits F.agrees F.shape F.roots (X.tree x.now) worker.old fabric.old }
    ensures tried { Tried F.agrees F.done F.excused F.shape F.roots (X.tree x.now) worker.old fabric.old (pops_from worker.old.number (lowest_pop worker.old.stack) (worker.old.shape.stages - lowest_pop worker.old.stack)) result worker.new fabric.new }
    ensures kept { result ≡ Turn.Idle → worker.new ≡ worker.old }
{
    let lowest = worker.next_stage().max(1);
    let mut stage = worker.stages();
    while stage > lowest {
        stage -= 1;
        match attempts::pop(worker, fabric, x, stage) {
            Turn::Idle => {}
            turn => return turn,
        }
    }
    Turn::Idle
}
