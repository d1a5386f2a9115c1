//! Runs to their end.
ghost use Rattle.std.specs.Prelude.{◌≡◌, ℕ, ◌+◌, ◌<◌, ◌≤◌, List, None, IfOk, IfSome, IfNone, OnOk, length};
ghost use Rattle.dfs_worker.specs.declared.event.Event.{Event};
ghost use Rattle.match_context.specs.Bags.{SameBag};
ghost use Rattle.match_context.specs.Leaves.{tree_leaves};
ghost use Rattle.world_core.specs.Owed.{owed};
ghost use Rattle.world_core.specs.Rows.{IsFinished};
ghost use Rattle.world_core.specs.Sound.{Sound};
ghost use Rattle.world_core.specs.Step.{Run, guard_of};
ghost use Rattle.world_core.specs.Work.{work_left};
ghost use Rattle.world_core.specs.World.{Fits};

use crate::choice::{event_after, next_event};
use crate::steps::Steps;
use adfs_base::{NoMemory, Shape};
use bfs_budget::{Deepest, Policy};
use dfs_worker::Event;
use match_context::{Context, Expand};
use std::alloc::Global;
use std::marker::Brand;
use std::sync::ledger::{Blank, Ledger};
use world_core::{World, worker_of};

/// An enabled event that the policy chooses. None exactly where all stages are closed.
pub fn policy_event<X: Expand, P: Policy>(world: &World, x: &X, policy: &mut P) -> Option<Event>
    ensures enabled { IfSome result (λ e. guard_of world.now e ≡ None) }
    ensures unfinished { IfSome result (λ _. IsFinished world.now → ⊥) }
    ensures finished { IfNone result (IsFinished world.now) }
{
    let _ = x;
    if world.finished() {
        return None;
    }
    next_event(world, policy, 0)
}

/// An enabled event. None exactly where all stages are closed.
pub fn some_event<X: Expand>(world: &World, x: &X) -> Option<Event>
    ensures enabled { IfSome result (λ e. guard_of world.now e ≡ None) }
    ensures unfinished { IfSome result (λ _. IsFinished world.now → ⊥) }
    ensures finished { IfNone result (IsFinished world.now) }
{
    policy_event(world, x, &mut Deepest)
}

/// Makes events until all stages are closed, and counts them. A worker goes on as long as it can, at each event as the
/// policy chooses; then it is the turn of one that has work at hand. Where its top has answers to give, nothing is chosen, and those of
/// which nothing comes are made in one go.
///
/// The steps are as many as the events, and at most the work that was left. After `NoMemory` the world is one that a run reaches, too.
pub fn run_to_end<X: Expand, P: Policy, L: Ledger>(
    world: &mut World,
    x: &X,
    policy: &mut P,
    steps: &mut Steps<L>,
) -> Result<(), NoMemory>
    requires { Fits (X.tree x.now) world.old.shared }
    ensures finished { OnOk result (IsFinished world.new) }
    ensures sound { OnOk result (Sound world.new) }
    ensures run { (events : List Event) × (Run (X.tree x.now) world.old events world.new × (steps.new ≡ steps.old + length events)) }
    ensures fits { Fits (X.tree x.now) world.new.shared }
    ensures owed { (row : _) → owed row (X.tree x.now) world.old ≡ owed row (X.tree x.now) world.new }
    ensures steps { steps.new + work_left (X.tree x.now) world.new ≤ steps.old + work_left (X.tree x.now) world.old }
{
    let mut w = 0;
    'events: loop {
        if world.may_advance(w) {
            let passed = world.advance(x, w)?;
            steps.add(passed);
            steps.tick();
            continue 'events;
        }
        let Some(event) = event_after(world, policy, w) else {
            return Ok(());
        };
        w = worker_of(&event);
        world.make(x, &event)?;
        steps.tick();
    }
}

/// The rows of a run from the start to its end, which are the leaves of the tree.
pub fn rows_of_tree<X: Expand, P: Policy>(
    alloc: Global,
    x: &X,
    shape: &Shape,
    policy: &mut P,
) -> Result<Vec<Context>, NoMemory>
    requires stages { shape.now.stages ≡ (X.tree x.now).stages }
    requires machines { shape.now.machines ≡ (X.tree x.now).machines }
    ensures { IfOk result (λ rows. SameBag rows.items (tree_leaves (X.tree x.now))) }
{
    counted_rows::<X, P, Brand>(alloc, x, shape, policy, Blank::new(1))
}

// The same, with a ledger for the count.
fn counted_rows<X: Expand, P: Policy, L: Ledger>(
    alloc: Global,
    x: &X,
    shape: &Shape,
    policy: &mut P,
    blank: Blank,
) -> Result<Vec<Context>, NoMemory>
    requires stages { shape.now.stages ≡ (X.tree x.now).stages }
    requires machines { shape.now.machines ≡ (X.tree x.now).machines }
    requires name { blank.name ≡ L.name }
    requires parts { blank.parts ≡ L.parts }
    requires some { 0 < blank.parts }
    ensures { IfOk result (λ rows. SameBag rows.items (tree_leaves (X.tree x.now))) }
{
    let mut world = World::new(alloc, x, shape)?;
    let mut steps = Steps::<L>::new(blank);
    run_to_end(&mut world, x, policy, &mut steps)?;
    world.into_rows()
}
