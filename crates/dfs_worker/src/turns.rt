//! A worker's turn: its attempts in their order, up to the first that is ready.
ghost use Rattle.std.specs.Prelude.{◌≡◌, ◌<◌, ◌≤◌, length, [], ◌∷◌, Some, None};
ghost use Rattle.dfs_worker.specs.Sound.{IsWorker};
ghost use Rattle.dfs_worker.specs.Turn.{Fits, Tried, TookTurn, Step, tries_of, all_tries, turn_tries, look_of, is_retire, start_at, idle_after};

use crate::event::Event;
use crate::hand::Hand;
use crate::turn::Turn;
use crate::worker::Worker;
use crate::{attempts, closing, starts, tries};
use bfs_budget::{Attempt, Policy, actions, choice};
use fabric::Fabric;
use match_context::Expand;

impl Worker {
    /// Makes the first of its attempts that is ready, begun where the policy says and gone round once.
    ///
    /// The most frequent turn, in which the top gives its next answer, makes no list of attempts.
    pub fn turn<F: Fabric, X: Expand, P: Policy>(
        &mut self,
        fabric: &mut F,
        x: &X,
        policy: &mut P,
    ) -> Turn
        requires { Fits F.agrees F.shape F.roots (X.tree x.now) self.old fabric.old }
        ensures took { TookTurn F.done F.excused (X.tree x.now) self.old fabric.old (P.answer policy.old (look_of self.old)) result self.new fabric.new }
        ensures fits { Fits F.agrees F.shape F.roots (X.tree x.now) self.new fabric.new }
    {
        let idle = self.idle();
        let turn = attempts_in_turn(self, fabric, x, policy);
        self.set_idle(idle_after(turn, idle));
        turn
    }
}

/// The idle turns in a row after a turn.
fn idle_after(turn: Turn, idle: u32) -> u32
    ensures { result ≡ idle_after turn idle }
{
    match turn {
        Turn::Did(_) => 0,
        Turn::Idle => idle.saturating_add(1),
        Turn::NoMemory => idle,
    }
}

/// All of a turn but the count of idle ones.
fn attempts_in_turn<F: Fabric, X: Expand, P: Policy>(
    worker: &mut Worker,
    fabric: &mut F,
    x: &X,
    policy: &mut P,
) -> Turn
    requires { Fits F.agrees F.shape F.roots (X.tree x.now) worker.old fabric.old }
    ensures { Tried F.agrees F.done F.excused F.shape F.roots (X.tree x.now) worker.old fabric.old (turn_tries worker.old (P.answer policy.old (look_of worker.old))) result worker.new fabric.new }
{
    if worker.advance_guard().is_none() {
        ask(worker, policy);
        return attempts::advance(worker, fabric, x);
    }
    if !worker.is_free() {
        ask(worker, policy);
        return tries::hand_step(worker, fabric, x);
    }
    round(worker, fabric, x, policy)
}

/// Asks the policy before the only attempt. Whatever it answers, that is where to begin.
fn ask<P: Policy>(worker: &Worker, policy: &mut P)
    requires { IsWorker worker.now }
{
    let _ = policy.choose(&worker.look(1));
}

/// Makes the attempts of a list, begun where the policy says and gone round once.
fn round<F: Fabric, X: Expand, P: Policy>(
    worker: &mut Worker,
    fabric: &mut F,
    x: &X,
    policy: &mut P,
) -> Turn
    requires fits { Fits F.agrees F.shape F.roots (X.tree x.now) worker.old fabric.old }
    requires free { worker.old.hand ≡ Hand.Free }
    ensures { Tried F.agrees F.done F.excused F.shape F.roots (X.tree x.now) worker.old fabric.old (turn_tries worker.old (P.answer policy.old (look_of worker.old))) result worker.new fabric.new }
{
    let list = actions(&worker.hand_state());
    let attempts = list.items();
    let at = choice(policy, &worker.look(attempts.len() as u32));
    let start = start_at(attempts, at as usize);
    match sweep(worker, fabric, x, &attempts[start..]) {
        Turn::Idle => sweep(worker, fabric, x, &attempts[..start]),
        turn => turn,
    }
}

/// The place at which to begin where that one is chosen: the end of claims begins at the claim before it.
fn start_at(attempts: &[Attempt], at: usize) -> usize
    requires { at < length attempts.now }
    ensures start { result ≡ start_at attempts.now at }
    ensures within { result ≤ length attempts.now }
{
    if is_retire(attempts[at]) {
        at.saturating_sub(1)
    } else {
        at
    }
}

fn is_retire(attempt: Attempt) -> bool
    ensures { result ≡ is_retire (Some attempt) }
{
    match attempt {
        Attempt::Retire => true,
        _ => false,
    }
}

/// Makes these attempts one after the other, up to the first that is ready.
fn sweep<F: Fabric, X: Expand>(
    worker: &mut Worker,
    fabric: &mut F,
    x: &X,
    attempts: &[Attempt],
) -> Turn
    requires fits { Fits F.agrees F.shape F.roots (X.tree x.now) worker.old fabric.old }
    requires free { worker.old.hand ≡ Hand.Free }
    ensures { Tried F.agrees F.done F.excused F.shape F.roots (X.tree x.now) worker.old fabric.old (all_tries worker.old.number worker.old.shape.stages worker.old.stack worker.old.hand attempts.now) result worker.new fabric.new }
{
    for attempt in attempts {
        match one_attempt(worker, fabric, x, *attempt) {
            Turn::Idle => {}
            turn => return turn,
        }
    }
    Turn::Idle
}

/// Makes one attempt of a worker whose hand is free.
fn one_attempt<F: Fabric, X: Expand>(
    worker: &mut Worker,
    fabric: &mut F,
    x: &X,
    attempt: Attempt,
) -> Turn
    requires fits { Fits F.agrees F.shape F.roots (X.tree x.now) worker.old fabric.old }
    requires free { worker.old.hand ≡ Hand.Free }
    ensures { Tried F.agrees F.done F.excused F.shape F.roots (X.tree x.now) worker.old fabric.old (tries_of worker.old.number worker.old.shape.stages worker.old.stack worker.old.hand attempt) result worker.new fabric.new }
{
    match attempt {
        Attempt::Hand => tries::hand_step(worker, fabric, x),
        Attempt::Restore => restore_top(worker, fabric, x),
        Attempt::Advance => advance_top(worker, fabric, x),
        Attempt::PostOwn => tries::post_own(worker, fabric, x),
        Attempt::Append => attempts::append(worker, fabric, x),
        Attempt::Charge => attempts::charge(worker, fabric, x),
        Attempt::Descend => attempts::descend(worker, fabric, x),
        Attempt::PostOthers => tries::post_other(worker, fabric, x),
        Attempt::Pop => tries::pops(worker, fabric, x),
        Attempt::Claim => starts::start(worker, fabric, x),
        // the claim before it has made it, where no root is left
        Attempt::Retire => Turn::Idle,
        Attempt::Mark => closing::mark(worker, fabric, x),
        Attempt::Close => closing::close(worker, fabric, x),
    }
}

/// The buffer of the top goes back, where the top is over.
fn restore_top<F: Fabric, X: Expand>(worker: &mut Worker, fabric: &mut F, x: &X) -> Turn
    requires { Fits F.agrees F.shape F.roots (X.tree x.now) worker.old fabric.old }
    ensures { Tried F.agrees F.done F.excused F.shape F.roots (X.tree x.now) worker.old fabric.old (Step (Event.Restore worker.old.number) ∷ []) result worker.new fabric.new }
{
    match worker.restore_guard() {
        None => starts::restore(worker, fabric, x),
        Some(_) => Turn::Idle,
    }
}

/// The top gives its next answer, where it can.
fn advance_top<F: Fabric, X: Expand>(worker: &mut Worker, fabric: &mut F, x: &X) -> Turn
    requires { Fits F.agrees F.shape F.roots (X.tree x.now) worker.old fabric.old }
    ensures { Tried F.agrees F.done F.excused F.shape F.roots (X.tree x.now) worker.old fabric.old (Step (Event.Advance worker.old.number) ∷ []) result worker.new fabric.new }
{
    match worker.advance_guard() {
        None => attempts::advance(worker, fabric, x),
        Some(_) => Turn::Idle,
    }
}
